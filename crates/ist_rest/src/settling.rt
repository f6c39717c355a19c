//! Whether all inner rows that are reached are open and count few updates.
//!
//! It goes down from a row to its children, but never below a row that isn't settled. A settled row
//! counts few updates: if each update is counted at the rows above it, a way down has few rows that
//! updates made. No clause bounds how many.
ghost use Rattle.std.specs.Prelude.{◌≡◌, ℕ, ◌≤◌, ◌↔◌, length, IsTrue, IfSome, Some, None};
ghost use Rattle.ist_core.specs.RowLayout.{next_place, place_limit, first_row};
ghost use Rattle.ist_rest.specs.WordRows.{word_at, reads_in};
ghost use Rattle.ist_core.specs.References.{InnerAt};
ghost use Rattle.ist_rest.specs.Walks.{Visit, IsGood};
ghost use Rattle.ist_rest.specs.Steps.{IsRowHere};
ghost use Rattle.ist_rest.specs.RestingWords.{Hold};
ghost use Rattle.ist_rest.specs.Settling.{AreSettled, AreSettledFrom, AreInShapeFrom, IsSettledRow};

use crate::reading::reads;
use crate::rows::{degree_at, slot_at};
use crate::words::WordList;
use ist_layout::{
    ANCHOR_SLOT_PLACE, INNER_COUNT_OFFSET, INNER_SIZE_OFFSET, INNER_STATUS_OFFSET, Ref,
};
use ist_math::limit;

/// Returns whether each inner row that is reached is open, with a count below its limit.
pub fn are_settled<W: WordList>(words: &W) -> bool
    requires hold { Hold (W.list words.now) }
    ensures exact { IsTrue result ↔ AreSettled (W.list words.now) }
{
    let first = words.word(ANCHOR_SLOT_PLACE);
    match child_row(words, first) {
        Some(base) => are_settled_from(words, base),
        None => true,
    }
}

/// Returns whether this inner row and each that is reached from it is open, with a count below its
/// limit.
fn are_settled_from<W: WordList>(words: &W, base: u32) -> bool
    requires some { first_row ≤ length (W.list words.now) }
    requires used { word_at (W.list words.now) next_place ≤ length (W.list words.now) }
    requires most { length (W.list words.now) ≤ place_limit }
    requires row { IsRowHere (W.list words.now) base }
    requires shape { AreInShapeFrom (W.list words.now) base }
    ensures exact { IsTrue result ↔ AreSettledFrom (W.list words.now) base }
{
    if !is_settled_row(words, base) {
        return false;
    }
    let degree = degree_at(words, base);
    for i in 0..degree {
        if let Some(child) = child_row(words, slot_at(words, base, degree, i)) {
            if !are_settled_from(words, child) {
                return false;
            }
        }
    }
    true
}

/// Returns whether the row is open, with a count below its limit.
fn is_settled_row<W: WordList>(words: &W, base: u32) -> bool
    requires used { word_at (W.list words.now) next_place ≤ length (W.list words.now) }
    requires row { IsRowHere (W.list words.now) base }
    ensures exact { IsTrue result ↔ IsSettledRow (W.list words.now) base }
{
    let at = u64::from(base);
    words.word(at + INNER_STATUS_OFFSET) == 0
        && words.word(at + INNER_COUNT_OFFSET) < limit(words.word(at + INNER_SIZE_OFFSET))
}

/// Returns the inner row that a slot in good shape with this word reads as, if it reads as one.
fn child_row<W: WordList>(words: &W, word: u64) -> Option<u32>
    requires some { first_row ≤ length (W.list words.now) }
    requires used { word_at (W.list words.now) next_place ≤ length (W.list words.now) }
    requires most { length (W.list words.now) ≤ place_limit }
    requires good { (visit : Visit) × (visit.word ≡ word) × IsGood (W.list words.now) visit }
    ensures found { IfSome result (λ child.
        reads_in (W.list words.now) word ≡ Some (InnerAt child)) }
    ensures none { result ≡ None → (child : ℕ)
        → reads_in (W.list words.now) word ≡ Some (InnerAt child) → ⊥ }
{
    match reads(words, word) {
        Some(Ref::Inner { base }) => Some(base),
        Some(Ref::Empty)
        | Some(Ref::Unset)
        | Some(Ref::Leaf { .. })
        | Some(Ref::Change { .. })
        | Some(Ref::Rebuild { .. }) => None,
        None => None,
    }
}
