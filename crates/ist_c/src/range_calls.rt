//! The exports that list a range of keys by a pass.
ghost use Rattle.std.specs.Prelude.{◌≡◌, true, false};
ghost use Rattle.ist_c.specs.Reads.{ListsBy, ListsLive};
ghost use Rattle.ist_handles.specs.Results.{misuse};

use ist_core::Pair;
use ist_handles::{DONE, Handle, Held, MEMORY, MISUSE, Piece, read_piece, write_pairs};
use ist_live::list_live;
use std::alloc::Global;

// Writes the pairs from `first` to `last`, as many as there is room for.
fn list_in(held: &mut Held, first: u64, last: u64, room: &mut [Pair], piece: &mut Piece) -> u32
    ensures lists { ListsBy held.old held.new first last result room.old room.new piece.old
        piece.new }
{
    if room.is_empty() {
        return MISUSE;
    }
    match held {
        Held::Pass(pass) => {
            *piece = read_piece(&pass.tree.tree, &mut pass.pass, first, last, room);
            DONE
        }
        _ => MISUSE,
    }
}

/// Writes the pairs from `first` to `last`, as many as there is room for, and to `piece` how many these
/// are and where to go on. There must be room for one at least.
#[unsafe(no_mangle)]
pub extern "C" fn ist_list_range(
    alloc: Global,
    pass: &mut Handle,
    first: u64,
    last: u64,
    room: &mut [Pair],
    piece: &mut Piece,
) -> u32
    ensures full { pass.new.full ≡ pass.old.full }
    ensures empty { pass.old.full ≡ false → result ≡ misuse }
    ensures unwritten { pass.old.full ≡ false
        → (room.new ≡ room.old) × (piece.new ≡ piece.old) }
    ensures lists { pass.old.full ≡ true → ListsBy pass.old.opaque.value
        pass.new.opaque.value first last result room.old room.new piece.old piece.new }
{
    match pass.open(alloc) {
        Some(mut held) => {
            let status = list_in(&mut held, first, last, room, piece);
            *pass = Handle::of(held);
            status
        }
        None => MISUSE,
    }
}

// Writes the pairs from `first` to `last`, as many as there is room for, and how many there are.
fn live_in(
    alloc: Global,
    held: &mut Held,
    first: u64,
    last: u64,
    room: &mut [Pair],
    count: &mut u64,
) -> u32
    ensures lists { ListsLive held.old held.new first last result room.old room.new count.old
        count.new }
{
    match held {
        Held::Pass(pass) => match list_live(alloc, &pass.tree.tree, &mut pass.pass, first, last) {
            Ok(found) => {
                *count = found.len() as u64;
                write_pairs(found.as_slice(), room);
                DONE
            }
            Err(_) => MEMORY,
        },
        _ => MISUSE,
    }
}

/// Writes the pairs from `first` to `last`, as many as there is room for, and how many there are. It finds
/// them in one walk, and has memory of its own for them meanwhile.
#[unsafe(no_mangle)]
pub extern "C" fn ist_list_live(
    alloc: Global,
    pass: &mut Handle,
    first: u64,
    last: u64,
    room: &mut [Pair],
    count: &mut u64,
) -> u32
    ensures full { pass.new.full ≡ pass.old.full }
    ensures empty { pass.old.full ≡ false → result ≡ misuse }
    ensures unwritten { pass.old.full ≡ false
        → (room.new ≡ room.old) × (count.new ≡ count.old) }
    ensures lists { pass.old.full ≡ true → ListsLive pass.old.opaque.value
        pass.new.opaque.value first last result room.old room.new count.old count.new }
{
    match pass.open(alloc) {
        Some(mut held) => {
            let status = live_in(alloc, &mut held, first, last, room, count);
            *pass = Handle::of(held);
            status
        }
        None => MISUSE,
    }
}
