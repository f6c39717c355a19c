//! The pairs of an interval, slot by slot.
//!
//! A tree may be as deep as it has inner rows, so the slots still to visit are a list, and nothing
//! here is recursive.
ghost use Rattle.std.specs.Prelude.{◌≡◌, ◌+◌, ◌≤◌, ◌++◌, length, reverse};
ghost use Rattle.std.specs.Prelude.{IfOk, OnOk, Some, slice_range};
ghost use Rattle.ist_core.specs.RowLayout.{leaf_words, next_place, place_limit, first_row};
ghost use Rattle.ist_core.specs.References as references;
ghost use Rattle.ist_rest.specs.WordRows as word_rows;
ghost use Rattle.ist_rest.specs.WordRows.{word_at, row_degree, row_slots, reads_in, IsWithinUsed};
ghost use Rattle.ist_rest.specs.RestingWords.{Hold, HoldPairs, AreListed};
ghost use Rattle.ist_rest.specs.Steps.{slots_between, slots_of, pairs_at, IsGoodSlot, IsRowHere};

use crate::children::child_for;
use crate::reading::reads;
use crate::rows::{degree_at, leaf_pair, slot_at};
use crate::slots::SlotLeft;
use crate::words::WordList;
use ist_core::Pair;
use ist_layout::{ANCHOR, ANCHOR_SLOT_PLACE, Ref};
use std::alloc::{AllocError, Global};

/// Returns the pairs from `first` to `last` that the words hold, in increasing order of keys. It
/// visits the slots in which keys of the interval may lie, and no others.
pub fn list_words<W: WordList>(
    alloc: Global,
    words: &W,
    first: u64,
    last: u64,
) -> Result<Vec<Pair>, AllocError>
    requires hold { Hold (W.list words.now) }
    ensures listed { IfOk result (λ found. AreListed (W.list words.now) first last found.items) }
{
    let mut found = Vec::new(alloc);
    if first > last {
        return Ok(found);
    }
    let mut left = Vec::new(alloc);
    left.push(SlotLeft {
        word: words.word(ANCHOR_SLOT_PLACE),
        node: u64::from(ANCHOR),
    })?;
    while let Some(slot) = left.pop() {
        visit(words, slot, first, last, &mut left, &mut found)?;
    }
    Ok(found)
}

/// Returns all pairs that the words hold, in increasing order of keys.
pub fn all_words<W: WordList>(alloc: Global, words: &W) -> Result<Vec<Pair>, AllocError>
    requires hold { Hold (W.list words.now) }
    ensures held { IfOk result (λ found. HoldPairs (W.list words.now) found.items) }
{
    words.know_fit();
    list_words(alloc, words, 0, u64::MAX)
}

/// Visits a slot. Appends its pair to `found`, if the key is in the interval, and pushes the slots
/// below it in which keys of the interval may lie onto `left`, the last first.
fn visit<W: WordList>(
    words: &W,
    slot: SlotLeft,
    first: u64,
    last: u64,
    left: &mut Vec<SlotLeft>,
    found: &mut Vec<Pair>,
) -> Result<(), AllocError>
    requires some { first_row ≤ length (W.list words.now) }
    requires used { word_at (W.list words.now) next_place ≤ length (W.list words.now) }
    requires most { length (W.list words.now) ≤ place_limit }
    requires interval { first ≤ last }
    requires good { IsGoodSlot (W.list words.now) slot }
    ensures left { OnOk result (left.new.items
        ≡ left.old.items ++ reverse (slots_between (W.list words.now) first last
        (reads_in (W.list words.now) slot.word))) }
    ensures found { OnOk result (found.new.items
        ≡ found.old.items ++ pairs_at (W.list words.now) first last
        (reads_in (W.list words.now) slot.word)) }
{
    match reads(words, slot.word) {
        Some(Ref::Leaf { base }) => push_pair(words, base, first, last, found),
        Some(Ref::Inner { base }) => push_slots(words, base, first, last, left),
        Some(Ref::Empty)
        | Some(Ref::Unset)
        | Some(Ref::Change { .. })
        | Some(Ref::Rebuild { .. }) => Ok(()),
        None => Ok(()),
    }
}

/// Appends the pair of the leaf to `found`, if its key is in the interval.
fn push_pair<W: WordList>(
    words: &W,
    base: u32,
    first: u64,
    last: u64,
    found: &mut Vec<Pair>,
) -> Result<(), AllocError>
    requires used { word_at (W.list words.now) next_place ≤ length (W.list words.now) }
    requires within { IsWithinUsed (W.list words.now) record { base = base; size = leaf_words } }
    ensures found { OnOk result (found.new.items
        ≡ found.old.items ++ pairs_at (W.list words.now) first last
        (Some (references.LeafAt base))) }
{
    let pair = leaf_pair(words, base);
    if first <= pair.key && pair.key <= last {
        found.push(pair)?;
    }
    Ok(())
}

/// Pushes the slots of the row in which keys of the interval may lie onto `left`, the last first.
fn push_slots<W: WordList>(
    words: &W,
    base: u32,
    first: u64,
    last: u64,
    left: &mut Vec<SlotLeft>,
) -> Result<(), AllocError>
    requires used { word_at (W.list words.now) next_place ≤ length (W.list words.now) }
    requires most { length (W.list words.now) ≤ place_limit }
    requires row { IsRowHere (W.list words.now) base }
    requires interval { first ≤ last }
    ensures left { OnOk result (left.new.items
        ≡ left.old.items ++ reverse (slots_between (W.list words.now) first last
        (Some (references.InnerAt base)))) }
{
    let degree = degree_at(words, base);
    let from = child_for(words, base, first);
    let to = child_for(words, base, last) + 1;
    push_between(words, base, degree, from, to, left)
}

/// Pushes the slots of a row from one number up to another onto `left`, the last first.
fn push_between<W: WordList>(
    words: &W,
    base: u32,
    degree: u64,
    from: u64,
    to: u64,
    left: &mut Vec<SlotLeft>,
) -> Result<(), AllocError>
    requires used { word_at (W.list words.now) next_place ≤ length (W.list words.now) }
    requires most { length (W.list words.now) ≤ place_limit }
    requires row { IsRowHere (W.list words.now) base }
    requires degree { degree ≡ row_degree (W.list words.now) base }
    requires order { from ≤ to }
    requires within { to ≤ degree }
    ensures left { OnOk result (left.new.items ≡ left.old.items
        ++ reverse (slots_of base (slice_range (row_slots (W.list words.now) base) from to))) }
{
    let mut at = to;
    while at > from {
        at -= 1;
        left.push(SlotLeft {
            word: slot_at(words, base, degree, at),
            node: u64::from(base),
        })?;
    }
    Ok(())
}
