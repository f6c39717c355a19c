//! The exports that find and update a key by a pass.
ghost use Rattle.std.specs.Prelude.{◌≡◌, true, false, Some, None};
ghost use Rattle.ist_c.specs.Calls.{FindsBy, UpdatesBy};
ghost use Rattle.ist_handles.specs.Results.{misuse};

use ist_handles::{CallResult, Handle, Held, Shortage, misused, refused, replied};
use std::alloc::Global;

// FindsBy the key by the pass.
fn find_in(held: &mut Held, key: u64) -> CallResult
    ensures finds { FindsBy held.old held.new key result }
{
    match held {
        Held::Pass(pass) => replied(pass.tree.tree.find(&mut pass.pass, key)),
        _ => misused(),
    }
}

/// FindsBy the key by the pass.
#[unsafe(no_mangle)]
pub extern "C" fn ist_find(alloc: Global, pass: &mut Handle, key: u64) -> CallResult
    ensures full { pass.new.full ≡ pass.old.full }
    ensures empty { pass.old.full ≡ false → result.status ≡ misuse }
    ensures finds { pass.old.full ≡ true
        → FindsBy pass.old.opaque.value pass.new.opaque.value key result }
{
    match pass.open(alloc) {
        Some(mut held) => {
            let called = find_in(&mut held, key);
            *pass = Handle::of(held);
            called
        }
        None => misused(),
    }
}

// Puts the value at the key by the pass, or removes the key if there is no value.
fn update_in(held: &mut Held, key: u64, value: Option<u64>, short: &mut Shortage) -> CallResult
    ensures updates { UpdatesBy held.old held.new key value result short.old short.new }
{
    match held {
        Held::Pass(pass) => match pass.update(key, value) {
            Ok(reply) => replied(reply),
            Err(numbers) => refused(numbers, short),
        },
        _ => misused(),
    }
}

// The same by the pass that the handle holds.
fn update(
    alloc: Global,
    pass: &mut Handle,
    key: u64,
    value: Option<u64>,
    short: &mut Shortage,
) -> CallResult
    ensures full { pass.new.full ≡ pass.old.full }
    ensures empty { pass.old.full ≡ false
        → (result.status ≡ misuse) × (short.new ≡ short.old) }
    ensures updates { pass.old.full ≡ true → UpdatesBy pass.old.opaque.value
        pass.new.opaque.value key value result short.old short.new }
{
    match pass.open(alloc) {
        Some(mut held) => {
            let called = update_in(&mut held, key, value, short);
            *pass = Handle::of(held);
            called
        }
        None => misused(),
    }
}

/// Puts the value at the key by the pass, and returns what the key had. If the call is refused, `short`
/// says why.
#[unsafe(no_mangle)]
pub extern "C" fn ist_put(
    alloc: Global,
    pass: &mut Handle,
    key: u64,
    value: u64,
    short: &mut Shortage,
) -> CallResult
    ensures full { pass.new.full ≡ pass.old.full }
    ensures empty { pass.old.full ≡ false
        → (result.status ≡ misuse) × (short.new ≡ short.old) }
    ensures updates { pass.old.full ≡ true → UpdatesBy pass.old.opaque.value
        pass.new.opaque.value key (Some value) result short.old short.new }
{
    update(alloc, pass, key, Some(value), short)
}

/// Removes the key by the pass, and returns what it had. If the call is refused, `short` says why.
#[unsafe(no_mangle)]
pub extern "C" fn ist_remove(
    alloc: Global,
    pass: &mut Handle,
    key: u64,
    short: &mut Shortage,
) -> CallResult
    ensures full { pass.new.full ≡ pass.old.full }
    ensures empty { pass.old.full ≡ false
        → (result.status ≡ misuse) × (short.new ≡ short.old) }
    ensures updates { pass.old.full ≡ true → UpdatesBy pass.old.opaque.value
        pass.new.opaque.value key None result short.old short.new }
{
    update(alloc, pass, key, None, short)
}
