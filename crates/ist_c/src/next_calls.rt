//! The exports that find the next pair above or below a key by a pass.
ghost use Rattle.std.specs.Prelude.{◌≡◌, true, false};
ghost use Rattle.ist_c.specs.Reads.{ReadsBy, up, down};
ghost use Rattle.ist_handles.specs.Results.{misuse};

use ist_core::Pair;
use ist_handles::{Handle, Held, MISUSE, write_pair};
use ist_live::{at_least, at_most};
use std::alloc::Global;

// Writes the pair with the least key that is at least `key`.
fn at_least_in(held: &mut Held, key: u64, found: &mut Pair) -> u32
    ensures reads { ReadsBy up held.old held.new key result found.old found.new }
{
    match held {
        Held::Pass(pass) => write_pair(at_least(&pass.tree.tree, &mut pass.pass, key), found),
        _ => MISUSE,
    }
}

// Writes the pair with the greatest key that is at most `key`.
fn at_most_in(held: &mut Held, key: u64, found: &mut Pair) -> u32
    ensures reads { ReadsBy down held.old held.new key result found.old found.new }
{
    match held {
        Held::Pass(pass) => write_pair(at_most(&pass.tree.tree, &mut pass.pass, key), found),
        _ => MISUSE,
    }
}

/// Writes the pair with the least key that is at least `key`. The status is `NO_KEY` if there is none.
#[unsafe(no_mangle)]
pub extern "C" fn ist_at_least(alloc: Global, pass: &mut Handle, key: u64, found: &mut Pair) -> u32
    ensures full { pass.new.full ≡ pass.old.full }
    ensures empty { pass.old.full ≡ false → (result ≡ misuse) × (found.new ≡ found.old) }
    ensures reads { pass.old.full ≡ true → ReadsBy up pass.old.opaque.value
        pass.new.opaque.value key result found.old found.new }
{
    match pass.open(alloc) {
        Some(mut held) => {
            let status = at_least_in(&mut held, key, found);
            *pass = Handle::of(held);
            status
        }
        None => MISUSE,
    }
}

/// Writes the pair with the greatest key that is at most `key`. The status is `NO_KEY` if there is none.
#[unsafe(no_mangle)]
pub extern "C" fn ist_at_most(alloc: Global, pass: &mut Handle, key: u64, found: &mut Pair) -> u32
    ensures full { pass.new.full ≡ pass.old.full }
    ensures empty { pass.old.full ≡ false → (result ≡ misuse) × (found.new ≡ found.old) }
    ensures reads { pass.old.full ≡ true → ReadsBy down pass.old.opaque.value
        pass.new.opaque.value key result found.old found.new }
{
    match pass.open(alloc) {
        Some(mut held) => {
            let status = at_most_in(&mut held, key, found);
            *pass = Handle::of(held);
            status
        }
        None => MISUSE,
    }
}
