//! Updates on the condition that a key has a value.
ghost use Rattle.std.specs.Prelude.{◌≡◌, Some, None, IfOk, IfErr};
ghost use Rattle.ist_core.specs.declared.commands.Command.TheVariants.{Put, Remove};
ghost use Rattle.ist_tree.specs.Updates.{HasAnswered, HasRunRounds, IsTurnedAway};

use crate::passes::Pass;
use crate::trees::Tree;
use crate::updating::run_rounds;
use ist_core::{Full, Reply};

impl Tree {
    /// Puts the value at the key if the key has the value that is expected, or no value if none is
    /// expected, and returns the value that the key had.
    ///
    /// If the reply is what was expected, the call is a put in the history of the pass, as with
    /// `put`. If it is another value, the call is a find, and nothing was changed or counted.
    /// `Full` is as with `put`: the call didn't happen then. It never allocates and always returns:
    /// it tries again only after another change of the map.
    ///
    /// Source: compare-and-set of a map's entry, as in `java.util.concurrent.ConcurrentMap.replace`
    /// and `putIfAbsent`.
    pub fn put_if(
        &self,
        pass: &mut Pass,
        key: u64,
        expected: Option<u64>,
        value: u64,
    ) -> Result<Reply, Full>
        requires same_tree { pass.old.tree ≡ self.now }
        ensures run { HasRunRounds pass.old pass.new }
        ensures answered { IfOk result
            (HasAnswered pass.old pass.new key (Put key value) expected) }
        ensures turned_away { IfErr result (IsTurnedAway pass.old pass.new key (Some value)) }
    {
        run_rounds(self, pass, key, Some(value), expected)
    }

    /// Removes the key if it has the value that is expected, and returns the value that it had. All
    /// else is as with `put_if`.
    pub fn remove_if(&self, pass: &mut Pass, key: u64, expected: u64) -> Result<Reply, Full>
        requires same_tree { pass.old.tree ≡ self.now }
        ensures run { HasRunRounds pass.old pass.new }
        ensures answered { IfOk result
            (HasAnswered pass.old pass.new key (Remove key) (Some expected)) }
        ensures turned_away { IfErr result (IsTurnedAway pass.old pass.new key None) }
    {
        run_rounds(self, pass, key, None, Some(expected))
    }
}
