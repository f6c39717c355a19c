//! The exports that say what is left of a closed tree.
ghost use Rattle.std.specs.Prelude.{◌≡◌, true, false};
ghost use Rattle.ist_c.specs.Listing.{ListsLeft, CountsLeft};
ghost use Rattle.ist_handles.specs.Results.{misuse};

use ist_core::Pair;
use ist_handles::{DONE, Handle, Held, MISUSE, Stats, write_pairs};
use std::alloc::Global;

// Writes the pairs from this number on.
fn list_in(held: &Held, from: u64, room: &mut [Pair], count: &mut u64) -> u32
    ensures lists { ListsLeft held.now from result room.old room.new count.old count.new }
{
    match held {
        Held::Left(left) => {
            *count = left.pairs.len() as u64;
            if from < left.pairs.len() as u64 {
                write_pairs(&left.pairs[from as usize..], room);
            }
            DONE
        }
        _ => MISUSE,
    }
}

/// Writes the pairs of a closed tree from this number on, as many as there is room for, and how many there
/// are in all.
#[unsafe(no_mangle)]
pub extern "C" fn ist_list(
    alloc: Global,
    closed: &mut Handle,
    from: u64,
    room: &mut [Pair],
    count: &mut u64,
) -> u32
    ensures full { closed.new.full ≡ closed.old.full }
    ensures empty { closed.old.full ≡ false → result ≡ misuse }
    ensures unwritten { closed.old.full ≡ false
        → (room.new ≡ room.old) × (count.new ≡ count.old) }
    ensures same { closed.old.full ≡ true → closed.new.opaque.value ≡ closed.old.opaque.value }
    ensures lists { closed.old.full ≡ true
        → ListsLeft closed.old.opaque.value from result room.old room.new count.old count.new }
{
    match closed.open(alloc) {
        Some(held) => {
            let status = list_in(&held, from, room, count);
            *closed = Handle::of(held);
            status
        }
        None => MISUSE,
    }
}

// Writes how many pairs are left, and how many words there were and were used.
fn count_in(held: &Held, stats: &mut Stats) -> u32
    ensures counts { CountsLeft held.now result stats.old stats.new }
{
    match held {
        Held::Left(left) => {
            *stats = Stats {
                keys: left.pairs.len() as u64,
                words: left.words,
                used: left.used,
            };
            DONE
        }
        _ => MISUSE,
    }
}

/// Writes how many pairs a closed tree left, how many words it had, and how many of these were used.
#[unsafe(no_mangle)]
pub extern "C" fn ist_count(alloc: Global, closed: &mut Handle, stats: &mut Stats) -> u32
    ensures full { closed.new.full ≡ closed.old.full }
    ensures empty { closed.old.full ≡ false → (result ≡ misuse) × (stats.new ≡ stats.old) }
    ensures same { closed.old.full ≡ true → closed.new.opaque.value ≡ closed.old.opaque.value }
    ensures counts { closed.old.full ≡ true
        → CountsLeft closed.old.opaque.value result stats.old stats.new }
{
    match closed.open(alloc) {
        Some(held) => {
            let status = count_in(&held, stats);
            *closed = Handle::of(held);
            status
        }
        None => MISUSE,
    }
}
