//! What a slot of a table at rest reads as.
ghost use Rattle.std.specs.Prelude.{◌≡◌, ◌≤◌, ◌↔◌, length, IfSome, IsTrue};
ghost use Rattle.ist_core.specs.References as references;
ghost use Rattle.ist_core.specs.RowLayout.{first_row, place_limit, next_place};
ghost use Rattle.ist_layout.specs.Meanings.{ref_meant};
ghost use Rattle.ist_rest.specs.WordRows.{word_at, IsWithinUsed};
ghost use Rattle.ist_rest.specs.Walks.{Reads, Visit, IsGood};
ghost use Rattle.ist_rest.specs.Readings.{IsTreeRef, LeavesSide, LeadsPast, IsInUse};

use crate::words::WordList;
use ist_layout::{
    CHANGE_DECISION_OFFSET, CHANGE_FROM_OFFSET, CHANGE_TO_OFFSET, CHANGE_WORDS, DECIDED_NO,
    DECIDED_YES, FIRST_ROW, NEXT_PLACE, PLACE_LIMIT, REBUILD_TARGET_OFFSET, REBUILD_WORDS, Ref,
};

/// Returns whether the words lie after the fixed words and below the first free one.
pub fn is_within<W: WordList>(words: &W, base: u64, size: u64) -> bool
    requires some { first_row ≤ length (W.list words.now) }
    requires used { word_at (W.list words.now) next_place ≤ length (W.list words.now) }
    ensures exact { IsTrue result
        ↔ IsWithinUsed (W.list words.now) record { base = base; size = size } }
{
    let next = words.word(NEXT_PLACE);
    base >= u64::from(FIRST_ROW) && size <= next && base <= next - size
}

/// Returns what a slot with this word reads as: a change as the side that its decision leaves, and
/// a rebuild, also after a change, as its target. Returns `None` if no slot with this word is in
/// good shape.
pub fn reads<W: WordList>(words: &W, word: u64) -> Option<Ref>
    requires some { first_row ≤ length (W.list words.now) }
    requires used { word_at (W.list words.now) next_place ≤ length (W.list words.now) }
    requires most { length (W.list words.now) ≤ place_limit }
    ensures found { IfSome result (λ found. Reads (W.list words.now) word (ref_meant found)) }
    ensures plain { IfSome result (λ found. IsTreeRef (ref_meant found)) }
    ensures none { result ≡ None → (visit : Visit) → visit.word ≡ word
        → IsGood (W.list words.now) visit → ⊥ }
{
    let Some(found) = Ref::from_word(word) else {
        return None;
    };
    let Some(side) = past_change(words, found) else {
        return None;
    };
    past_rebuild(words, side)
}

/// Returns what a reference reads as after changes: a change as the side that its decision leaves.
/// Returns `None` if the change is out of bounds, its decision isn't known, or the side is no
/// reference.
pub fn past_change<W: WordList>(words: &W, found: Ref) -> Option<Ref>
    requires some { first_row ≤ length (W.list words.now) }
    requires used { word_at (W.list words.now) next_place ≤ length (W.list words.now) }
    ensures found { IfSome result (λ side.
        LeavesSide (W.list words.now) (ref_meant found) (ref_meant side)) }
    ensures none { result ≡ None → (side : references.Ref)
        → LeavesSide (W.list words.now) (ref_meant found) side → ⊥ }
{
    match found {
        Ref::Empty | Ref::Unset | Ref::Leaf { .. } | Ref::Inner { .. } | Ref::Rebuild { .. } =>
            Some(found),
        Ref::Change { base } => {
            if !is_within(words, u64::from(base), CHANGE_WORDS) {
                return None;
            }
            let base = u64::from(base);
            let decision = words.word(base + CHANGE_DECISION_OFFSET);
            if decision > DECIDED_NO {
                return None;
            }
            if decision == DECIDED_YES {
                Ref::from_word(words.word(base + CHANGE_TO_OFFSET))
            } else {
                Ref::from_word(words.word(base + CHANGE_FROM_OFFSET))
            }
        }
    }
}

/// Returns what a reference that is no change reads as. Returns `None` if it is a change, or a part
/// that isn't built, or a rebuild out of bounds or without a target.
pub fn past_rebuild<W: WordList>(words: &W, found: Ref) -> Option<Ref>
    requires some { first_row ≤ length (W.list words.now) }
    requires used { word_at (W.list words.now) next_place ≤ length (W.list words.now) }
    requires most { length (W.list words.now) ≤ place_limit }
    ensures found { IfSome result (λ r.
        LeadsPast (W.list words.now) (ref_meant found) (ref_meant r)) }
    ensures none { result ≡ None → (r : references.Ref) → IsTreeRef r
        → LeadsPast (W.list words.now) (ref_meant found) r → IsInUse (W.list words.now) r → ⊥ }
{
    match found {
        Ref::Empty | Ref::Leaf { .. } | Ref::Inner { .. } => Some(found),
        Ref::Unset | Ref::Change { .. } => None,
        Ref::Rebuild { base } => {
            if !is_within(words, u64::from(base), REBUILD_WORDS) {
                return None;
            }
            let target = words.word(u64::from(base) + REBUILD_TARGET_OFFSET);
            if target >= PLACE_LIMIT {
                return None;
            }
            Some(Ref::Inner {
                base: target as u32,
            })
        }
    }
}
