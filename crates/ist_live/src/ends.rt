//! The next pair above or below a key.
ghost use Rattle.std.specs.Prelude.{◌≡◌, ◌+◌};
ghost use Rattle.ist_find.specs.Sweeps.{one_of};
ghost use Rattle.ist_live.specs.Reading.{HasOnlyRead, ReadsUp, ReadsDown};
ghost use Rattle.ist_live.specs.Ends.{IsNextUp, IsNextDown, end_up, end_down};

use crate::parts::{PartRead, read_down, read_up};
use ist_core::Pair;
use ist_tree::{Pass, Tree};

/// Returns the pair with the least key that is at least `key`, if there is one. Never blocks, never
/// allocates, always returns.
///
/// The pair was in the map at some position during the call. Each key from `key` to before it had no
/// value at a position of its own: not all at one moment. It reads span after span upwards (`spans`), so
/// it takes as many searches as there are empty slots on its way, and one more.
pub fn at_least(tree: &Tree, pass: &mut Pass, key: u64) -> Option<Pair>
    requires same_tree { pass.old.tree ≡ tree.now }
    ensures read { HasOnlyRead pass.old pass.new }
    ensures next { IsNextUp pass.old pass.new key result }
    ensures spans { ReadsUp pass.old key pass.new (end_up result) (one_of result) }
{
    let mut from = key;
    'spans: loop {
        let PartRead { pair, to } = read_up(tree, pass, from, u64::MAX);
        match pair {
            Some(pair) => return Some(pair),
            None => {
                if to == u64::MAX {
                    return None;
                }
                from = to + 1;
            }
        }
    }
}

/// Returns the pair with the greatest key that is at most `key`, if there is one. Otherwise as
/// `at_least`.
pub fn at_most(tree: &Tree, pass: &mut Pass, key: u64) -> Option<Pair>
    requires same_tree { pass.old.tree ≡ tree.now }
    ensures read { HasOnlyRead pass.old pass.new }
    ensures next { IsNextDown pass.old pass.new (key + 1) result }
    ensures spans { ReadsDown pass.old (key + 1) pass.new (end_down result) (one_of result) }
{
    let mut from = key;
    'spans: loop {
        let PartRead { pair, to } = read_down(tree, pass, from);
        match pair {
            Some(pair) => return Some(pair),
            None => {
                if to == 0 {
                    return None;
                }
                from = to - 1;
            }
        }
    }
}
