//! A cursor over the pairs of a tree that others change.
ghost use Rattle.std.specs.Prelude.{◌≡◌, ◌+◌};
ghost use Rattle.ist_live.specs.Reading.{HasOnlyRead};
ghost use Rattle.ist_live.specs.Ends.{IsNextUp, IsNextDown, end_up, end_down};

use crate::ends::{at_least, at_most};
use ist_core::Pair;
use ist_tree::{Pass, Tree};
use std::marker::Model;

/// A place between two keys, from which pairs are read one by one, in either direction.
///
/// It keeps one key and nothing of the tree. So it never gets old, holds up no one, and may go on with any
/// pass of any tree. Contracts see how many keys lie below its place.
#[derive(Debug, Drop)]
pub struct Live {
    // the least key above the place, if there is one
    above: Option<u64>,
}

impl Model for Live {
    ghost use Rattle.std.specs.Prelude.{ℕ};
    ghost use Rattle.ist_live.specs.Cursors.{cursor_place};

    ghost Value = { ℕ };

    ghost view = { λ c. cursor_place c.above };
}

impl Live {
    /// A cursor below `key`: upwards it reads this key first, and downwards the keys below it.
    pub fn below(key: u64) -> Live
        ensures place { result ≡ key }
    {
        Live { above: Some(key) }
    }

    /// A cursor above `key`: upwards it reads the keys above it, and downwards this key first.
    pub fn above(key: u64) -> Live
        ensures place { result ≡ key + 1 }
    {
        if key == u64::MAX {
            return Live { above: None };
        }
        Live {
            above: Some(key + 1),
        }
    }

    /// Returns the next pair upwards, and steps over it; if there is none, steps above all keys. Never
    /// blocks, never allocates, always returns.
    ///
    /// Pairs come in strictly increasing order of keys. What the pair and the keys before it had, they
    /// had at positions of their own, as of `at_least`.
    pub fn up(&mut self, tree: &Tree, pass: &mut Pass) -> Option<Pair>
        requires same_tree { pass.old.tree ≡ tree.now }
        ensures read { HasOnlyRead pass.old pass.new }
        ensures next { IsNextUp pass.old pass.new self.old result }
        ensures place { self.new ≡ end_up result }
    {
        let Some(from) = self.above else {
            return None;
        };
        match at_least(tree, pass, from) {
            Some(pair) => {
                *self = Live::above(pair.key);
                Some(pair)
            }
            None => {
                self.above = None;
                None
            }
        }
    }

    /// Returns the next pair downwards, and steps over it; if there is none, steps below all keys.
    /// Otherwise as `up`, in decreasing order of keys.
    pub fn down(&mut self, tree: &Tree, pass: &mut Pass) -> Option<Pair>
        requires same_tree { pass.old.tree ≡ tree.now }
        ensures read { HasOnlyRead pass.old pass.new }
        ensures next { IsNextDown pass.old pass.new self.old result }
        ensures place { self.new ≡ end_down result }
    {
        let last = match self.above {
            Some(0) => return None,
            Some(key) => key - 1,
            None => u64::MAX,
        };
        let pair = at_most(tree, pass, last);
        self.above = match pair {
            Some(pair) => Some(pair.key),
            None => Some(0),
        };
        pair
    }
}
