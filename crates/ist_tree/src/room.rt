//! How many words of a tree are left.
ghost use Rattle.std.specs.Prelude.{◌≡◌, ◌+◌};
ghost use Rattle.ist_tree.specs.Calls.{HasSeenMore};
ghost use Rattle.ist_tree.specs.Freezing.{HasStartedNone};
ghost use Rattle.ist_tree.specs.RealTime.{StepsIn};
ghost use Rattle.ist_tree.specs.Room.{HasLeft, HasMadeNone};

use crate::passes::Pass;
use crate::trees::Tree;
use ist_rule::{glance, know, word_count};

impl Tree {
    /// Returns how many words the tree was opened with.
    pub fn words(&self) -> u64
        ensures value { result ≡ self.now.words }
    {
        word_count(&self.table)
    }

    /// Returns how many words are left: those that no one had taken at the one step of this call, a
    /// load. Never blocks, never allocates, always returns.
    ///
    /// The pass makes no event and no call. Other passes may take words from then on, so this many
    /// are left later only if no other pass works.
    pub fn room(&self, pass: &mut Pass) -> u64
        requires same_tree { pass.old.tree ≡ self.now }
        ensures seen { HasSeenMore pass.old pass.new }
        ensures left { HasLeft pass.new result }
        ensures step { StepsIn pass.old pass.new pass.new.seen }
        ensures none { HasMadeNone pass.old pass.new }
        ensures unstarted { HasStartedNone pass.old pass.new }
        ensures no_walk { pass.new.searches ≡ pass.old.searches }
        ensures loads { pass.new.loaded ≡ pass.old.loaded + 1 }
        ensures calls { pass.new.calls ≡ pass.old.calls }
        ensures stamp { pass.new.stamp ≡ pass.old.stamp }
        ensures refused { pass.new.refused ≡ pass.old.refused }
    {
        know(&pass.caller.token);
        // A load. Meets whoever reserves a row.
        let next = glance(&self.table, &mut pass.caller.token);
        word_count(&self.table) - next
    }
}
