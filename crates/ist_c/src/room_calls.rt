//! The export that says how many words of a tree are left.
ghost use Rattle.std.specs.Prelude.{◌≡◌, true, false};
ghost use Rattle.ist_c.specs.Reads.{CountsRoom};
ghost use Rattle.ist_handles.specs.Results.{misuse};

use ist_handles::{DONE, Handle, Held, MISUSE};
use std::alloc::Global;

// Writes how many words of the tree are left.
fn room_in(held: &mut Held, words: &mut u64) -> u32
    ensures counts { CountsRoom held.old held.new result words.old words.new }
{
    match held {
        Held::Pass(pass) => {
            *words = pass.tree.tree.room(&mut pass.pass);
            DONE
        }
        _ => MISUSE,
    }
}

/// Writes how many words of the tree are left at one moment of the call. Other passes may take words from
/// then on.
#[unsafe(no_mangle)]
pub extern "C" fn ist_room(alloc: Global, pass: &mut Handle, words: &mut u64) -> u32
    ensures full { pass.new.full ≡ pass.old.full }
    ensures empty { pass.old.full ≡ false → (result ≡ misuse) × (words.new ≡ words.old) }
    ensures counts { pass.old.full ≡ true → CountsRoom pass.old.opaque.value
        pass.new.opaque.value result words.old words.new }
{
    match pass.open(alloc) {
        Some(mut held) => {
            let status = room_in(&mut held, words);
            *pass = Handle::of(held);
            status
        }
        None => MISUSE,
    }
}
