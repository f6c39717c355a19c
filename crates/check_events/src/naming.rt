//! Which row a word names.
ghost use Rattle.std.specs.Prelude.{◌≡◌, ◌↔◌, IsTrue, Some};
ghost use Rattle.ist_core.specs.References.{Empty, LeafAt, InnerAt, RebuildAt, ref_of};
ghost use Rattle.check_fairness.specs.Answers.{FindsOne};

use ist_layout::Ref;

/// Returns whether the word names nothing.
pub fn names_nothing(word: u64) -> bool
    ensures exact { IsTrue result ↔ (ref_of word ≡ Some Empty) }
{
    match Ref::from_word(word) {
        Some(Ref::Empty) => true,
        _ => false,
    }
}

/// Returns the base of the leaf that this word names.
pub fn leaf_of_word(word: u64) -> Option<u64>
    ensures exact { FindsOne (λ base. ref_of word ≡ Some (LeafAt base)) result }
{
    match Ref::from_word(word) {
        Some(Ref::Leaf { base }) => Some(u64::from(base)),
        _ => None,
    }
}

/// Returns the base of the inner row that this word names.
pub fn inner_of_word(word: u64) -> Option<u64>
    ensures exact { FindsOne (λ base. ref_of word ≡ Some (InnerAt base)) result }
{
    match Ref::from_word(word) {
        Some(Ref::Inner { base }) => Some(u64::from(base)),
        _ => None,
    }
}

/// Returns the base of the rebuild that this word names.
pub fn rebuild_of_word(word: u64) -> Option<u64>
    ensures exact { FindsOne (λ base. ref_of word ≡ Some (RebuildAt base)) result }
{
    match Ref::from_word(word) {
        Some(Ref::Rebuild { base }) => Some(u64::from(base)),
        _ => None,
    }
}
