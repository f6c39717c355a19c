//! The pairs that a caller in C passes in, and that it gets.
ghost use Rattle.std.specs.Prelude.{◌≡◌, true, IfOk, OnOk};
ghost use Rattle.plain_map.specs.Rising.{IsRising};
ghost use Rattle.ist_handles.specs.Pairs.{Wrote, pairs_given, written};

use crate::results::{DONE, NO_KEY};
use ist_core::{Command, Pair};
use plain_map::Plain;
use std::alloc::{AllocError, Global};

/// Returns whether each key is greater than the one before it. A map into which such pairs are put, one
/// after another, has just these.
pub fn are_rising(pairs: &[Pair]) -> bool
    ensures rising { result ≡ true → IsRising pairs.now }
    ensures given { result ≡ true → pairs_given pairs.now ≡ pairs.now }
    ensures exact { IsRising pairs.now → result ≡ true }
{
    for at in 1..pairs.len() {
        if pairs[at].key <= pairs[at - 1].key {
            return false;
        }
    }
    true
}

// Puts the pairs into a map, one after another, and returns those that it has then.
fn put_all(alloc: Global, pairs: &[Pair]) -> Result<Vec<Pair>, AllocError>
    ensures rising { IfOk result (λ put. IsRising put.items) }
    ensures given { IfOk result (λ put. put.items ≡ pairs_given pairs.now) }
{
    let mut map = Plain::new(alloc);
    for pair in pairs {
        let _had = map.apply(Command::Put {
            key: pair.key,
            value: pair.value,
        })?;
    }
    Ok(map.into_pairs())
}

// Sorts the pairs by their keys; those with one key keep their order, so that the last one is put last.
fn sort_by_keys(alloc: Global, pairs: &mut [Pair]) -> Result<(), AllocError>
    ensures same { OnOk result (pairs_given pairs.new ≡ pairs_given pairs.old) }
{
    pairs.sort_by_key(alloc, |pair| pair.key)
}

/// Returns the pairs that a map has after all of these were put, one after another: of pairs with one key the
/// last, in increasing order of keys. A copy of them is sorted first, since a put of the greatest key so far
/// moves no pair. Fails only if memory runs out.
pub fn sorted_pairs(alloc: Global, pairs: &[Pair]) -> Result<Vec<Pair>, AllocError>
    ensures rising { IfOk result (λ sorted. IsRising sorted.items) }
    ensures given { IfOk result (λ sorted. sorted.items ≡ pairs_given pairs.now) }
{
    let mut sorted = Vec::from_slice(alloc, pairs)?;
    sort_by_keys(alloc, &mut sorted)?;
    put_all(alloc, &sorted)
}

/// Writes the pair to `place`, if there is one, and returns a status.
pub fn write_pair(pair: Option<Pair>, place: &mut Pair) -> u32
    ensures wrote { Wrote pair result place.old place.new }
{
    match pair {
        Some(pair) => {
            *place = pair;
            DONE
        }
        None => NO_KEY,
    }
}

/// Writes as many of the pairs as there is room for.
pub fn write_pairs(pairs: &[Pair], room: &mut [Pair])
    ensures written { room.new ≡ written pairs.now room.old }
{
    let count = pairs.len().min(room.len());
    room[..count].copy_from_slice(&pairs[..count]);
}
