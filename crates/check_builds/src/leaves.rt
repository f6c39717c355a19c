//! The leaves below a row of a replica, child by child.
//!
//! The slots still to be read wait in a list, the next one last, so no tree is too deep.
ghost use Rattle.std.specs.Prelude.{◌≡◌, ◌∷◌, ◌++◌, IfOk, OnOk, Some, reverse};
ghost use Rattle.ist_core.specs.References.{InnerAt, LeafAt};
ghost use Rattle.ist_core.specs.Snapshots.{Snapshot};
ghost use Rattle.ist_core.specs.Leaves.{HasLeaves};
ghost use Rattle.check_events.specs.Mirroring.{Mirrors};
ghost use Rattle.check_builds.specs.Reading.{Gathers, GathersOn, PutsSlots};

use crate::readings::{SlotReading, read_slot};
use check_events::{FoundLeaf, Replica};
use std::alloc::{AllocError, Global};

/// Adds the leaves below the inner row, if it has a list of them. Returns whether it has.
///
/// After a lawful log rows have higher bases than their parents, and the way down ends. If it went
/// in a circle, the call would run out of memory.
pub fn add_leaves(
    alloc: Global,
    replica: &Replica,
    base: u64,
    out: &mut Vec<FoundLeaf>,
) -> Result<bool, AllocError>
    ensures exact { IfOk result (λ found. (t : Snapshot) → Mirrors replica.now t
        → Gathers (λ ls. HasLeaves t.pieces (Some (InnerAt base)) ls)
        out.old.items found out.new.items) }
{
    let mut waiting = Vec::new(alloc);
    if !put_slots(replica, base, &mut waiting)? {
        return Ok(false);
    }
    for _ in 0..u64::MAX {
        match waiting.pop() {
            None => return Ok(true),
            Some(word) => {
                if !add_of_slot(replica, word, &mut waiting, out)? {
                    return Ok(false);
                }
            }
        }
    }
    Err(AllocError)
}

/// Adds what a slot with this word reads as: a leaf to the leaves, and the slots of an inner row to
/// those that wait.
fn add_of_slot(
    replica: &Replica,
    word: u64,
    waiting: &mut Vec<u64>,
    out: &mut Vec<FoundLeaf>,
) -> Result<bool, AllocError>
    ensures exact { IfOk result (λ found. (t : Snapshot) → Mirrors replica.now t
        → GathersOn t.pieces (word ∷ reverse waiting.old.items) out.old.items found
        (reverse waiting.new.items) out.new.items) }
{
    match read_slot(replica, word) {
        SlotReading::Nothing => Ok(true),
        SlotReading::OneLeaf(leaf) => add_leaf(replica, leaf, out),
        SlotReading::OneRow(row) => put_slots(replica, row, waiting),
        SlotReading::Other => Ok(false),
    }
}

/// Appends the slots of the inner row at the base to those that wait, if there is such a row.
fn put_slots(replica: &Replica, base: u64, waiting: &mut Vec<u64>) -> Result<bool, AllocError>
    ensures exact { IfOk result (λ found. (t : Snapshot) → Mirrors replica.now t
        → PutsSlots t.pieces base waiting.old.items found waiting.new.items) }
{
    match replica.inners.get(&base) {
        None => Ok(false),
        Some(row) => {
            put_words(row.slots.as_slice(), waiting)?;
            Ok(true)
        }
    }
}

/// Appends the words to those that wait, the first one last.
fn put_words(words: &[u64], waiting: &mut Vec<u64>) -> Result<(), AllocError>
    ensures added { OnOk result (waiting.new.items ≡ waiting.old.items ++ reverse words.now) }
{
    for word in words.iter().rev() {
        waiting.push(*word)?;
    }
    Ok(())
}

/// Adds the leaf at the base.
fn add_leaf(replica: &Replica, base: u64, out: &mut Vec<FoundLeaf>) -> Result<bool, AllocError>
    ensures exact { IfOk result (λ found. (t : Snapshot) → Mirrors replica.now t
        → Gathers (λ ls. HasLeaves t.pieces (Some (LeafAt base)) ls)
        out.old.items found out.new.items) }
{
    match replica.leaves.get(&base) {
        None => Ok(false),
        Some(row) => {
            out.push(FoundLeaf::new(base, *row))?;
            Ok(true)
        }
    }
}
