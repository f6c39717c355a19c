//! A shot: the map as it was at one position, and its readings.
ghost use Rattle.std.specs.Prelude.{◌≡◌, ℕ, ◌+◌, ◌-◌, ◌*◌, ◌<◌, ◌≤◌, List, length, slice_get, Some, IfOk, IfErr, OnErr};
ghost use Rattle.ist_core.specs.declared.pairs.Pair.{Pair};
ghost use Rattle.ist_tree.specs.Faces.{PassFace};
ghost use Rattle.ist_scan.specs.Walks.{IsWalkOfPass};
ghost use Rattle.ist_core.specs.Map.{listed, pairs_between};
ghost use Rattle.ist_tree.specs.Calls.{HasSeenMore};
ghost use Rattle.ist_tree.specs.DueRows.{FinishesFreeze};
ghost use Rattle.ist_tree.specs.Freezing.{FreezesInFew, IsFrozenFor, IsFreezeRefused, HasStartedNone, LeavesRebuilt};
ghost use Rattle.ist_tree.specs.Refusals.{HasStartsDone, KeepsRefusal};
ghost use Rattle.ist_scan.specs.Cuts.{slice_of};
ghost use Rattle.ist_scan.specs.Shots.{ArePairsOf, IsOf, HasTakenShot, HasOnlyLooked, map_seen};
ghost use Rattle.ist_scan.specs.Totals.{total_of, in_bin, pairs_in_bin};

use crate::looking::{Ends, ends_of, pair_at};
use crate::totals::Total;
use crate::walks::Walk;
use ist_core::{Full, Pair};
use ist_tree::{Frozen, Pass, Tree};
use std::alloc::{AllocError, Global};
use std::marker::Model;

/// The map as it was at one position among the changes: what a pass froze.
///
/// Whatever other passes do, all that a shot returns is of that one position. Each call asks that
/// the shot is frozen in what the pass has seen. This holds for the pass that took it, and for each
/// pass that has learnt of that since. Each such pass reads the pairs that the shot has in what it
/// has seen (`by_pairs`): one list, the same for all of them.
#[derive(Debug, Drop)]
pub struct Shot {
    frozen: Frozen,
}

impl Model for Shot {
    ghost use Rattle.ist_tree.specs.declared.freezing.Frozen.{Frozen};

    ghost Value = { Frozen };

    ghost view = { λ s. s.frozen };
}

// Returns the total of the pairs of the shot from number `low` on, up to the one before `high`.
fn total_at(tree: &Tree, pass: &mut Pass, shot: Frozen, ends: Ends) -> Total
    requires same_tree { pass.old.tree ≡ tree.now }
    requires frozen { IsFrozenFor pass.old shot }
    requires order { ends.low ≤ ends.high }
    requires within { ends.high ≤ shot.keys }
    ensures looked { HasOnlyLooked pass.old pass.new }
    ensures total { (pairs : List Pair) → ArePairsOf pass.old shot pairs
        → result ≡ total_of (slice_of pairs ends.low ends.high) }
{
    let mut total = Total::of_none();
    for i in ends.low..ends.high {
        let pair = pair_at(tree, pass, shot, i);
        total = total.with(pair.value);
    }
    total
}

// Returns the pairs of the shot from number `low` on, up to the one before `high`.
fn list_at(
    alloc: Global,
    tree: &Tree,
    pass: &mut Pass,
    shot: Frozen,
    ends: Ends,
) -> Result<Vec<Pair>, AllocError>
    requires same_tree { pass.old.tree ≡ tree.now }
    requires frozen { IsFrozenFor pass.old shot }
    requires order { ends.low ≤ ends.high }
    requires within { ends.high ≤ shot.keys }
    ensures looked { HasOnlyLooked pass.old pass.new }
    ensures list { IfOk result (λ v. (pairs : List Pair) → ArePairsOf pass.old shot pairs
        → v.items ≡ slice_of pairs ends.low ends.high) }
{
    let mut list = Vec::new(alloc);
    for i in ends.low..ends.high {
        list.push(pair_at(tree, pass, shot, i))?;
    }
    Ok(list)
}

// Returns the total of bin number `j` of this width.
fn bin_at(tree: &Tree, pass: &mut Pass, shot: Frozen, first: u64, width: u64, j: u64) -> Total
    requires same_tree { pass.old.tree ≡ tree.now }
    requires frozen { IsFrozenFor pass.old shot }
    requires some { 1 ≤ width }
    ensures looked { HasOnlyLooked pass.old pass.new }
    ensures total { (pairs : List Pair) → ArePairsOf pass.old shot pairs → result ≡ total_of
        (pairs_between (first + j * width) (first + (j + 1) * width - 1) pairs) }
{
    let from = u128::from(first) + u128::from(j) * u128::from(width);
    let ends = ends_of(tree, pass, shot, from, from + u128::from(width));
    total_at(tree, pass, shot, ends)
}

impl Shot {
    /// Takes a shot of the map: freezes the tree at one moment of the call, and rebuilds it.
    /// `shot_words` says how many words that takes at most. If they run out during the rebuild, the shot is
    /// taken, but all updates are refused from then on: see `take_if_room`.
    ///
    /// Its position isn't before what the pass had seen. The calls of the pass are as before.
    /// Returns `Full` if the tree had too few words left for a row of the rebuild's start; then no
    /// shot was taken.
    pub fn take(tree: &Tree, pass: &mut Pass) -> Result<Shot, Full>
        requires same_tree { pass.old.tree ≡ tree.now }
        ensures seen { HasSeenMore pass.old pass.new }
        ensures frozen { IfOk result (IsFrozenFor pass.new) }
        ensures taken { IfOk result (HasTakenShot pass.old pass.new) }
        ensures rebuilt { IfOk result (LeavesRebuilt pass.old pass.new) }
        ensures few { IfOk result (FreezesInFew pass.old pass.new) }
        ensures full { IfErr result (IsFreezeRefused pass.old pass.new) }
        ensures unstarted { OnErr result (HasStartedNone pass.old pass.new) }
        ensures calls { pass.new.calls ≡ pass.old.calls }
        ensures unrefused { OnErr result (pass.new.refused ≡ pass.old.refused) }
        ensures refused { KeepsRefusal pass.old pass.new }
        ensures finished { FinishesFreeze pass.old pass.new }
        ensures done { HasStartsDone pass.new }
    {
        let frozen = tree.freeze(pass)?;
        pass.know();
        Ok(Shot { frozen })
    }

    // Returns what was frozen.
    pub(crate) fn frozen(&self) -> Frozen
        ensures value { result ≡ self.now }
    {
        self.frozen
    }

    /// Returns how many pairs it has.
    pub fn keys(&self) -> u64
        ensures value { result ≡ self.now.keys }
    {
        self.frozen.keys
    }

    /// Returns the pairs with keys from `first` to `last`, both included, by increasing key; no
    /// pairs if `first` is above `last`. Looks at about two logarithms of pairs to find the ends,
    /// and then at the pairs that it lists. Fails only if memory runs out.
    pub fn list(
        &self,
        alloc: Global,
        tree: &Tree,
        pass: &mut Pass,
        first: u64,
        last: u64,
    ) -> Result<Vec<Pair>, AllocError>
        requires same_tree { pass.old.tree ≡ tree.now }
        requires frozen { IsFrozenFor pass.old self.now }
        ensures looked { HasOnlyLooked pass.old pass.new }
        ensures list { IfOk result (λ v. (position : ℕ) → IsOf pass.old position self.now
            → v.items ≡ listed first last (map_seen pass.old position)) }
        ensures by_pairs { IfOk result (λ v. (pairs : List Pair)
            → ArePairsOf pass.old self.now pairs → v.items ≡ pairs_between first last pairs) }
    {
        pass.know();
        if first > last {
            return Ok(Vec::new(alloc));
        }
        let shot = self.frozen;
        let ends = ends_of(tree, pass, shot, u128::from(first), u128::from(last) + 1);
        list_at(alloc, tree, pass, shot, ends)
    }

    /// Returns how many pairs have keys from `first` to `last`, both included, the sum of their
    /// values, and the least and the greatest of these. Allocates nothing.
    pub fn total(&self, tree: &Tree, pass: &mut Pass, first: u64, last: u64) -> Total
        requires same_tree { pass.old.tree ≡ tree.now }
        requires frozen { IsFrozenFor pass.old self.now }
        ensures looked { HasOnlyLooked pass.old pass.new }
        ensures total { (position : ℕ) → IsOf pass.old position self.now
            → result ≡ total_of (listed first last (map_seen pass.old position)) }
        ensures by_pairs { (pairs : List Pair) → ArePairsOf pass.old self.now pairs
            → result ≡ total_of (pairs_between first last pairs) }
    {
        pass.know();
        if first > last {
            return Total::of_none();
        }
        let shot = self.frozen;
        let ends = ends_of(tree, pass, shot, u128::from(first), u128::from(last) + 1);
        total_at(tree, pass, shot, ends)
    }

    /// Writes the totals of bins of one width. Entry `j` becomes the total of the keys from
    /// `first + j * width` to `first + (j + 1) * width - 1`, whatever it was. A bin above all keys
    /// has no pairs. Allocates nothing.
    pub fn bins(&self, tree: &Tree, pass: &mut Pass, first: u64, width: u64, out: &mut [Total])
        requires same_tree { pass.old.tree ≡ tree.now }
        requires frozen { IsFrozenFor pass.old self.now }
        requires some { 1 ≤ width }
        ensures looked { HasOnlyLooked pass.old pass.new }
        ensures same { length out.new ≡ length out.old }
        ensures bins { (position : ℕ) → IsOf pass.old position self.now
            → (j : ℕ) → j < length out.old
            → slice_get out.new j
            ≡ Some (total_of (in_bin (map_seen pass.old position) first width j)) }
        ensures by_pairs { (pairs : List Pair) → ArePairsOf pass.old self.now pairs
            → (j : ℕ) → j < length out.old
            → slice_get out.new j ≡ Some (total_of (pairs_in_bin pairs first width j)) }
    {
        pass.know();
        for j in 0..out.len() {
            out[j] = bin_at(tree, pass, self.frozen, first, width, j as u64);
        }
    }

    /// Begins a walk over the pairs with keys from `first` to `last`, both included.
    pub fn walk(&self, first: u64, last: u64) -> Walk
        ensures shot { result.shot ≡ self.now }
        ensures first { result.first ≡ first }
        ensures last { result.last ≡ last }
        ensures given { result.given ≡ 0 }
        ensures way { (p : PassFace) → IsWalkOfPass p result }
    {
        Walk::new(self.frozen, first, last)
    }
}
