//! The exports that update a key only if it has an expected value.
ghost use Rattle.std.specs.Prelude.{◌≡◌, true, false, Some, None};
ghost use Rattle.ist_c.specs.Conditions.{UpdatesIf};
ghost use Rattle.ist_handles.specs.Results.{misuse};

use ist_handles::{CallResult, Handle, Held, Shortage, misused, refused, replied};
use std::alloc::Global;

// Puts the value at the key by the pass, if the key has what is expected.
fn put_if_in(
    held: &mut Held,
    key: u64,
    expected: Option<u64>,
    value: u64,
    short: &mut Shortage,
) -> CallResult
    ensures updates { UpdatesIf held.old held.new key expected (Some value) result
        short.old short.new }
{
    match held {
        Held::Pass(pass) => match pass.tree.tree.put_if(&mut pass.pass, key, expected, value) {
            Ok(reply) => replied(reply),
            Err(numbers) => refused(numbers, short),
        },
        _ => misused(),
    }
}

// The same by the pass that the handle holds.
fn put_if(
    alloc: Global,
    pass: &mut Handle,
    key: u64,
    expected: Option<u64>,
    value: u64,
    short: &mut Shortage,
) -> CallResult
    ensures full { pass.new.full ≡ pass.old.full }
    ensures empty { pass.old.full ≡ false
        → (result.status ≡ misuse) × (short.new ≡ short.old) }
    ensures updates { pass.old.full ≡ true → UpdatesIf pass.old.opaque.value
        pass.new.opaque.value key expected (Some value) result short.old short.new }
{
    match pass.open(alloc) {
        Some(mut held) => {
            let called = put_if_in(&mut held, key, expected, value, short);
            *pass = Handle::of(held);
            called
        }
        None => misused(),
    }
}

/// Puts the value at the key by the pass if the key has no value, and returns what the key had. If the
/// call is refused, `short` says why.
#[unsafe(no_mangle)]
pub extern "C" fn ist_put_new(
    alloc: Global,
    pass: &mut Handle,
    key: u64,
    value: u64,
    short: &mut Shortage,
) -> CallResult
    ensures full { pass.new.full ≡ pass.old.full }
    ensures empty { pass.old.full ≡ false
        → (result.status ≡ misuse) × (short.new ≡ short.old) }
    ensures updates { pass.old.full ≡ true → UpdatesIf pass.old.opaque.value
        pass.new.opaque.value key None (Some value) result short.old short.new }
{
    put_if(alloc, pass, key, None, value, short)
}

/// Puts the value at the key by the pass if the key has the expected value, and returns what the key had.
/// If the call is refused, `short` says why.
#[unsafe(no_mangle)]
pub extern "C" fn ist_put_if(
    alloc: Global,
    pass: &mut Handle,
    key: u64,
    expected: u64,
    value: u64,
    short: &mut Shortage,
) -> CallResult
    ensures full { pass.new.full ≡ pass.old.full }
    ensures empty { pass.old.full ≡ false
        → (result.status ≡ misuse) × (short.new ≡ short.old) }
    ensures updates { pass.old.full ≡ true → UpdatesIf pass.old.opaque.value
        pass.new.opaque.value key (Some expected) (Some value) result short.old short.new }
{
    put_if(alloc, pass, key, Some(expected), value, short)
}

// Removes the key by the pass, if the key has the expected value.
fn remove_if_in(held: &mut Held, key: u64, expected: u64, short: &mut Shortage) -> CallResult
    ensures updates { UpdatesIf held.old held.new key (Some expected) None result
        short.old short.new }
{
    match held {
        Held::Pass(pass) => match pass.tree.tree.remove_if(&mut pass.pass, key, expected) {
            Ok(reply) => replied(reply),
            Err(numbers) => refused(numbers, short),
        },
        _ => misused(),
    }
}

/// Removes the key by the pass if the key has the expected value, and returns what the key had. If the call
/// is refused, `short` says why.
#[unsafe(no_mangle)]
pub extern "C" fn ist_remove_if(
    alloc: Global,
    pass: &mut Handle,
    key: u64,
    expected: u64,
    short: &mut Shortage,
) -> CallResult
    ensures full { pass.new.full ≡ pass.old.full }
    ensures empty { pass.old.full ≡ false
        → (result.status ≡ misuse) × (short.new ≡ short.old) }
    ensures updates { pass.old.full ≡ true → UpdatesIf pass.old.opaque.value
        pass.new.opaque.value key (Some expected) None result short.old short.new }
{
    match pass.open(alloc) {
        Some(mut held) => {
            let called = remove_if_in(&mut held, key, expected, short);
            *pass = Handle::of(held);
            called
        }
        None => misused(),
    }
}
