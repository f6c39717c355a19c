//! Whether a word and the rows of an event are a root, or a part of one, over some leaves.
ghost use Rattle.std.specs.Prelude.{◌≡◌, ◌↔◌, IsTrue, replicate};
ghost use Rattle.ist_core.specs.References.{unset_word};
ghost use Rattle.check_builds.specs.Built.{BuildsAt, IsTopAlone, IsRootOf};

use crate::ideals::{built, top_slots};
use check_events::{FoundLeaf, inner_of_word};
use check_fairness::degree_of;
use ist_core::Row;
use ist_math::SHARE_FROM;

/// The word of a part of a shared root that isn't built yet.
const UNSET_WORD: u64 = 7;

/// Returns whether the word and all of the rows are the ideal subtree over the leaves, with bases
/// above this one.
pub fn is_ideal(word: u64, leaves: &[FoundLeaf], above: u64, rows: &[Row]) -> bool
    ensures exact { IsTrue result ↔ BuildsAt word leaves.now above rows.now }
{
    match built(word, leaves, above, rows) {
        None => false,
        Some(used) => used == rows.len(),
    }
}

/// Returns whether they are the root over the leaves of a target with `k` keys: the whole subtree,
/// or only its top row if `k` is large.
pub fn is_root(word: u64, k: u64, leaves: &[FoundLeaf], target: u64, rows: &[Row]) -> bool
    ensures exact { IsTrue result ↔ IsRootOf word k leaves.now target rows.now }
{
    if k < SHARE_FROM {
        return is_ideal(word, leaves, target, rows);
    }
    is_top_alone(word, leaves, target, rows)
}

/// Returns whether they are only the top row, with every slot Unset.
fn is_top_alone(word: u64, leaves: &[FoundLeaf], target: u64, rows: &[Row]) -> bool
    ensures exact { IsTrue result ↔ IsTopAlone word leaves.now target rows.now }
{
    if rows.len() != 1 {
        return false;
    }
    match inner_of_word(word) {
        None => false,
        Some(base) => {
            if rows[0].base != base {
                return false;
            }
            match top_slots(&rows[0], leaves, target) {
                None => false,
                Some(slots) => are_unset(slots, degree_of(leaves.len() as u64)),
            }
        }
    }
}

/// Returns whether these are `many` words of Unset.
fn are_unset(slots: &[u64], many: u64) -> bool
    ensures exact { IsTrue result ↔ (slots.now ≡ replicate many unset_word) }
{
    match slots {
        [] => many == 0,
        [word, more @ ..] => {
            if many == 0 || *word != UNSET_WORD {
                return false;
            }
            are_unset(more, many - 1)
        }
    }
}
