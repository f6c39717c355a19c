//! What the checker remembers of the nodes that there is a cause to mark.
ghost use Rattle.std.specs.Prelude.{◌↔◌, ◌⊎◌, ◌∷◌, ℕ, List, OnOk};
ghost use Rattle.ist_core.specs.declared.pairs.Pair.{Pair as APair};
ghost use Rattle.ist_core.specs.Snapshots.{Snapshot};
ghost use Rattle.ist_core.specs.Logs.{Log};
ghost use Rattle.ist_core.specs.Lawful.{Lawful, state_of};
ghost use Rattle.ist_core.specs.Marking.{HasTarget};
ghost use Rattle.check_fairness.specs.Answers.{Holds};
ghost use Rattle.check_events.specs.Mirroring.{Mirrors};
ghost use Rattle.check_events.specs.Remembering.{KnowsCalls};
ghost use Rattle.check_state.specs.Calls.{StartCalls, WordCalls};

use check_events::{Replica, inner_of_word, rebuild_of_word};
use ist_core::Event;
use ist_layout::START_KIND;
use std::alloc::AllocError;
use std::collections::BTreeSet;

/// Remembers the node that the event gives a cause to mark: the target of the rebuild that a Decide
/// starts, or the row that a passed word names, or the target of the rebuild that it names. The
/// replica must show the state before the event.
pub fn remember_call(
    replica: &Replica,
    called: &mut BTreeSet<u64>,
    event: &Event,
) -> Result<(), AllocError>
    ensures exact { OnOk result ((pairs : List APair) → (words : ℕ) → (log : Log)
        → Lawful pairs words (event.now ∷ log)
        → Mirrors replica.now (state_of pairs words log)
        → KnowsCalls called.old (state_of pairs words log) log
        → KnowsCalls called.new (state_of pairs words (event.now ∷ log)) (event.now ∷ log)) }
{
    match event {
        Event::Decide { change, yes, .. } => {
            if !*yes {
                return Ok(());
            }
            call_by_start(replica, called, *change)
        }
        Event::Pass { word, .. } => call_by_word(replica, called, *word),
        _ => Ok(()),
    }
}

/// Adds the target of the rebuild that the change starts, if it starts one.
pub(crate) fn call_by_start(
    replica: &Replica,
    called: &mut BTreeSet<u64>,
    change: u64,
) -> Result<(), AllocError>
    ensures exact { OnOk result ((t : Snapshot) → Mirrors replica.now t → (node : ℕ)
        → (Holds called.new node ↔ (Holds called.old node ⊎ StartCalls t change node))) }
{
    match replica.changes.get(&change) {
        None => Ok(()),
        Some(row) => {
            if row.kind != START_KIND {
                return Ok(());
            }
            match rebuild_of_word(row.to) {
                None => Ok(()),
                Some(rebuild) => call_target(replica, called, rebuild),
            }
        }
    }
}

/// Adds the row that the word names, or the target of the rebuild that it names.
fn call_by_word(replica: &Replica, called: &mut BTreeSet<u64>, word: u64) -> Result<(), AllocError>
    ensures exact { OnOk result ((t : Snapshot) → Mirrors replica.now t → (node : ℕ)
        → (Holds called.new node ↔ (Holds called.old node ⊎ WordCalls t word node))) }
{
    match inner_of_word(word) {
        Some(row) => {
            called.insert(row)?;
            Ok(())
        }
        None => match rebuild_of_word(word) {
            None => Ok(()),
            Some(rebuild) => call_target(replica, called, rebuild),
        },
    }
}

/// Adds the target of the rebuild, if there is one at the base.
fn call_target(
    replica: &Replica,
    called: &mut BTreeSet<u64>,
    rebuild: u64,
) -> Result<(), AllocError>
    ensures exact { OnOk result ((t : Snapshot) → Mirrors replica.now t → (node : ℕ)
        → (Holds called.new node ↔ (Holds called.old node ⊎ HasTarget t rebuild node))) }
{
    match replica.rebuilds.get(&rebuild) {
        None => Ok(()),
        Some(row) => {
            called.insert(row.target)?;
            Ok(())
        }
    }
}
