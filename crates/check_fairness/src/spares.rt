//! Rows that may be held in addition to the rows of builds: one of each kind.
ghost use Rattle.std.specs.Prelude.{◌≡◌, ◌↔◌, IsTrue};
ghost use Rattle.check_fairness.specs.Searching as searching;
ghost use Rattle.check_fairness.specs.Searching.{IsSpare, AreSpare, without_spare};

use ist_layout::{CHANGE_WORDS, LEAF_WORDS, PAIR_WORDS, REBUILD_WORDS};

/// Which rows may still be held in addition to the builds: one of each kind.
#[derive(Clone, Copy, PartialEq, Eq, Drop)]
pub struct Spare {
    pub leaf: bool,
    pub rebuild: bool,
    pub pair: bool,
    pub change: bool,
}

/// One row of each kind may be held in addition to the builds.
pub(crate) const ALL_SPARE: Spare = Spare {
    leaf: true,
    rebuild: true,
    pair: true,
    change: true,
};

/// Returns whether these are sizes of spare rows, at most one of each kind. Such sizes are fair,
/// whatever the building lists are.
pub(crate) fn are_all_spare(sizes: &[u64]) -> bool
    ensures exact { IsTrue result ↔ AreSpare searching.all_spare sizes.now }
{
    are_spare(ALL_SPARE, sizes)
}

/// Returns whether these are sizes of rows that may still be held in addition to the builds.
fn are_spare(may: Spare, sizes: &[u64]) -> bool
    ensures exact { IsTrue result ↔ AreSpare may sizes.now }
{
    match sizes {
        [] => true,
        [size, more @ ..] => {
            if !is_spare(may, *size) {
                return false;
            }
            are_spare(without(may, *size), more)
        }
    }
}

/// Returns whether both allow the same rows in addition to the builds.
pub(crate) fn are_equal(a: Spare, b: Spare) -> bool
    ensures exact { IsTrue result ↔ (a ≡ b) }
{
    a == b
}

/// Returns whether a row of this size may still be held in addition to the builds.
pub(crate) fn is_spare(may: Spare, size: u64) -> bool
    ensures exact { IsTrue result ↔ IsSpare may size }
{
    match size {
        LEAF_WORDS => may.leaf,
        REBUILD_WORDS => may.rebuild,
        PAIR_WORDS => may.pair,
        CHANGE_WORDS => may.change,
        _ => false,
    }
}

/// Returns what may still be held in addition to the builds after a row of this size.
pub(crate) fn without(may: Spare, size: u64) -> Spare
    ensures value { result ≡ without_spare may size }
{
    Spare {
        leaf: may.leaf && size != LEAF_WORDS,
        rebuild: may.rebuild && size != REBUILD_WORDS,
        pair: may.pair && size != PAIR_WORDS,
        change: may.change && size != CHANGE_WORDS,
    }
}
