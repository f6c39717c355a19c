//! The pairs of a range of keys, read in their order.
ghost use Rattle.std.specs.Prelude.{◌≡◌, ◌+◌, ◌≤◌, OnOk};
ghost use Rattle.ist_tree.specs.Calls.{HasSeenMore};
ghost use Rattle.ist_tree.specs.Sweeps.{HasSweptOver};

use crate::passes::Pass;
use crate::trees::Tree;
use ist_core::Pair;
use ist_find::sweep;
use ist_rule::{begin_read, know};
use std::alloc::AllocError;

impl Tree {
    /// Appends the pairs from `first` to `last`, both included, to `found`, in strictly increasing order
    /// of keys. Never blocks. If allocation fails it returns an error; `found` then has some of them.
    ///
    /// It goes down from the anchor once, and reads each slot of these keys once, in their order. Each key
    /// has what the pairs give it at some number of changes of its own, no fewer than there were at the
    /// first step of this call, and no fewer than a lesser key's. It isn't a call of the map: the calls of
    /// the pass stay as they are. Its loads are in proportion to the slots that it reads (`swept`).
    pub fn sweep(
        &self,
        pass: &mut Pass,
        first: u64,
        last: u64,
        found: &mut Vec<Pair>,
    ) -> Result<(), AllocError>
        requires same_tree { pass.old.tree ≡ self.now }
        requires some { first ≤ last }
        ensures seen { HasSeenMore pass.old pass.new }
        ensures once { pass.new.searches ≡ pass.old.searches + 1 }
        ensures swept { OnOk result (HasSweptOver pass.old pass.new first last
            found.old.items found.new.items) }
        ensures calls { pass.new.calls ≡ pass.old.calls }
        ensures stamp { pass.new.stamp ≡ pass.old.stamp }
        ensures refused { pass.new.refused ≡ pass.old.refused }
    {
        let token = &mut pass.caller.token;
        know(token);
        begin_read(&self.table, token);
        sweep(&self.table, token, first, last, found)
    }
}
