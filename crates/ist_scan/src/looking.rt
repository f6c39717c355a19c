//! Single pairs of a shot by their numbers, and where keys cut them.
ghost use Rattle.std.specs.Prelude.{◌≡◌, ◌+◌, ◌*◌, ◌^◌, ◌<◌, ◌≤◌, List, slice_get, Some};
ghost use Rattle.ist_core.specs.declared.pairs.Pair.{Pair};
ghost use Rattle.ist_tree.specs.Freezing.{IsFrozenFor};
ghost use Rattle.ist_scan.specs.Cuts.{CutsAt, IsCut};
ghost use Rattle.ist_scan.specs.Shots.{HasOnlyLooked, ArePairsOf};

use ist_core::Pair;
use ist_tree::{Frozen, Pass, Tree};

// The place where a key cuts the pairs, and how many pairs the search looked at.
#[derive(Clone, Copy, Drop)]
pub(crate) struct Cut {
    pub(crate) count: u64,
    pub(crate) looks: u64,
}

// The pairs from number `low` on, up to the one before `high`.
#[derive(Clone, Copy, Drop)]
pub(crate) struct Ends {
    pub(crate) low: u64,
    pub(crate) high: u64,
}

// Returns pair number `i` of the shot.
pub(crate) fn pair_at(tree: &Tree, pass: &mut Pass, shot: Frozen, i: u64) -> Pair
    requires same_tree { pass.old.tree ≡ tree.now }
    requires frozen { IsFrozenFor pass.old shot }
    requires within { i < shot.keys }
    ensures looked { HasOnlyLooked pass.old pass.new }
    ensures pair { (pairs : List Pair) → ArePairsOf pass.old shot pairs
        → slice_get pairs i ≡ Some result }
{
    let pair = tree.frozen_pair(pass, &shot, i);
    pass.know();
    pair
}

// Returns how many pairs the shot has.
fn keys_of(shot: Frozen) -> u64
    ensures value { result ≡ shot.keys }
{
    shot.keys
}

// Returns how many pairs of the shot have keys below the bound, by halving: with at most one look
// more than the logarithm of the keys to base two. The looks are counted by the search itself. No
// clause ties them to the loads that the pass made.
pub(crate) fn count_below(tree: &Tree, pass: &mut Pass, shot: Frozen, bound: u128) -> Cut
    requires same_tree { pass.old.tree ≡ tree.now }
    requires frozen { IsFrozenFor pass.old shot }
    ensures looked { HasOnlyLooked pass.old pass.new }
    ensures within { result.count ≤ shot.keys }
    ensures cuts { (pairs : List Pair) → ArePairsOf pass.old shot pairs
        → CutsAt pairs bound result.count }
    ensures halves { 2 ^ result.looks ≤ 2 * shot.keys + 1 }
{
    let mut low = 0;
    let mut high = keys_of(shot);
    let mut looks = 0;
    while low < high {
        let middle = low + (high - low) / 2;
        looks += 1;
        if u128::from(pair_at(tree, pass, shot, middle).key) < bound {
            low = middle + 1;
        } else {
            high = middle;
        }
    }
    Cut { count: low, looks }
}

// Returns the pairs of the shot with keys from `from` on and below `to`, as numbers.
pub(crate) fn ends_of(tree: &Tree, pass: &mut Pass, shot: Frozen, from: u128, to: u128) -> Ends
    requires same_tree { pass.old.tree ≡ tree.now }
    requires frozen { IsFrozenFor pass.old shot }
    requires some { from < to }
    ensures looked { HasOnlyLooked pass.old pass.new }
    ensures cut { (pairs : List Pair) → ArePairsOf pass.old shot pairs
        → IsCut pairs from to result.low result.high }
    ensures order { result.low ≤ result.high }
    ensures within { result.high ≤ shot.keys }
{
    let low = count_below(tree, pass, shot, from).count;
    let high = count_below(tree, pass, shot, to).count;
    Ends {
        low: low.min(high),
        high,
    }
}
