//! A walk over the pairs of a shot, one at a time.
ghost use Rattle.std.specs.Prelude.{◌≡◌, ℕ, ◌+◌, ◌*◌, ◌^◌, ◌≤◌, List, true, false, slice_get, OnSome, IfNone};
ghost use Rattle.ist_core.specs.declared.pairs.Pair.{Pair};
ghost use Rattle.ist_core.specs.Map.{listed, pairs_between};
ghost use Rattle.ist_tree.specs.Freezing.{IsFrozenFor};
ghost use Rattle.ist_scan.specs.Shots.{ArePairsOf, IsOf, HasOnlyLooked, map_seen};
ghost use Rattle.ist_scan.specs.Walks.{IsWalkOfPass, WalkHasBegun, AreOneWalk};

use crate::looking::{count_below, pair_at};
use crate::shots::Shot;
use ist_core::Pair;
use ist_tree::{Frozen, Pass, Tree};
use std::marker::Model;

/// A walk over the pairs of a shot between two keys, both included, by increasing key.
///
/// Contracts see its shot, its interval, how many pairs it has given, and the number of the next
/// pair once the first was looked for.
#[derive(Debug, Drop)]
pub struct Walk {
    frozen: Frozen,
    first: u64,
    last: u64,
    given: u64,
    next: u64,
    begun: bool,
}

impl Model for Walk {
    ghost use Rattle.std.specs.Prelude.{◌≤◌};
    ghost use Rattle.ist_scan.specs.Walks.{WalkFace};

    ghost Value = { WalkFace };

    ghost view = { λ w. record {
      shot = w.frozen;
      first = w.first;
      last = w.last;
      given = w.given;
      next = w.next;
      begun = w.begun;
    } };

    ghost invariant = { λ w. w.given ≤ w.next };
}

impl Walk {
    // Makes a walk that has given no pair.
    pub(crate) fn new(frozen: Frozen, first: u64, last: u64) -> Walk
        ensures shot { result.shot ≡ frozen }
        ensures first { result.first ≡ first }
        ensures last { result.last ≡ last }
        ensures given { result.given ≡ 0 }
        ensures begun { result.begun ≡ false }
    {
        Walk {
            frozen,
            first,
            last,
            given: 0,
            next: 0,
            begun: false,
        }
    }

    // Looks for the first pair of the interval, unless that was done. Returns how many pairs it
    // looked at.
    fn begin(&mut self, tree: &Tree, pass: &mut Pass, shot: Frozen) -> u64
        requires same_tree { pass.old.tree ≡ tree.now }
        requires its_shot { self.old.shot ≡ shot }
        requires frozen { IsFrozenFor pass.old shot }
        requires way { IsWalkOfPass pass.old self.old }
        ensures looked { HasOnlyLooked pass.old pass.new }
        ensures one_walk { AreOneWalk self.old self.new }
        ensures given { self.new.given ≡ self.old.given }
        ensures begun { self.new.begun ≡ true }
        ensures way { WalkHasBegun pass.new self.new }
        ensures not_again { self.old.begun ≡ true → result ≡ 0 }
        ensures halves { 2 ^ result ≤ 2 * shot.keys + 1 }
    {
        pass.know();
        if self.begun {
            return 0;
        }
        let cut = count_below(tree, pass, shot, u128::from(self.first));
        self.next = cut.count;
        self.begun = true;
        cut.looks
    }

    /// Returns the next pair, and `None` exactly after the last. The shot must be the walk's, and
    /// the walk must be where it should be for the pass. This holds for the pass that walked so
    /// far, and for each pass that has learnt of that since.
    ///
    /// The first call looks for the first key, at about a logarithm of pairs; each call also looks
    /// at one pair. Allocates nothing.
    pub fn next(&mut self, tree: &Tree, pass: &mut Pass, shot: &Shot) -> Option<Pair>
        requires same_tree { pass.old.tree ≡ tree.now }
        requires its_shot { self.old.shot ≡ shot.now }
        requires frozen { IsFrozenFor pass.old shot.now }
        requires way { IsWalkOfPass pass.old self.old }
        ensures looked { HasOnlyLooked pass.old pass.new }
        ensures one_walk { AreOneWalk self.old self.new }
        ensures pair { (position : ℕ) → IsOf pass.old position shot.now → result ≡ slice_get
            (listed self.old.first self.old.last (map_seen pass.old position)) self.old.given }
        ensures by_pairs { (pairs : List Pair) → ArePairsOf pass.old shot.now pairs
            → result ≡ slice_get (pairs_between self.old.first self.old.last pairs) self.old.given }
        ensures given { OnSome result (self.new.given ≡ self.old.given + 1) }
        ensures ended { IfNone result (self.new.given ≡ self.old.given) }
        ensures way { IsWalkOfPass pass.new self.new }
    {
        pass.know();
        let frozen = shot.frozen();
        self.begin(tree, pass, frozen);
        if self.next >= frozen.keys {
            return None;
        }
        let pair = pair_at(tree, pass, frozen, self.next);
        if pair.key > self.last {
            return None;
        }
        self.next += 1;
        self.given += 1;
        Some(pair)
    }
}
