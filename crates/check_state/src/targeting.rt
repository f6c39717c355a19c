//! What the checker remembers of the targets of started rebuilds, and the building lists for them.
ghost use Rattle.std.specs.Prelude.{◌∷◌, ℕ, List, OnOk};
ghost use Rattle.ist_core.specs.declared.pairs.Pair.{Pair as APair};
ghost use Rattle.ist_core.specs.Snapshots.{Snapshot};
ghost use Rattle.ist_core.specs.Logs.{Log};
ghost use Rattle.ist_core.specs.Lawful.{Lawful, state_of};
ghost use Rattle.check_fairness.specs.Answers.{FindsOne};
ghost use Rattle.check_events.specs.Mirroring.{Mirrors};
ghost use Rattle.check_fairness.specs.Targets.{KnowsTargets, GainsKeys};
ghost use Rattle.check_fairness.specs.Knowing.{KnowsLists};
ghost use Rattle.check_state.specs.Remembered.{StartsFinished};

use crate::calling::call_by_start;
use check_events::{Replica, rebuild_of_word, target_keys};
use check_fairness::{BuildingLists, add_keys};
use ist_core::Event;
use ist_layout::START_KIND;
use std::alloc::{AllocError, Global};
use std::collections::BTreeSet;

/// Remembers the target of the rebuild that a Decide starts. The replica must show the state before
/// the event.
pub fn remember_target(
    replica: &Replica,
    targets: &mut BTreeSet<u64>,
    event: &Event,
) -> Result<(), AllocError>
    ensures exact { OnOk result ((pairs : List APair) → (words : ℕ) → (log : Log)
        → Lawful pairs words (event.now ∷ log)
        → Mirrors replica.now (state_of pairs words log)
        → KnowsTargets targets.old (state_of pairs words log)
        → KnowsTargets targets.new (state_of pairs words (event.now ∷ log))) }
{
    match event {
        Event::Decide { change, yes, .. } => {
            if !*yes {
                return Ok(());
            }
            call_by_start(replica, targets, *change)
        }
        _ => Ok(()),
    }
}

/// Remembers the number of keys with which such a target is finished, and the building lists for
/// this number. A Finish may finish a target, and the target of the rebuild that a Decide starts
/// may be finished already. The replica and the targets must show the state before the event.
pub fn remember_lists(
    alloc: Global,
    replica: &Replica,
    targets: &BTreeSet<u64>,
    building: &mut BuildingLists,
    event: &Event,
) -> Result<(), AllocError>
    ensures exact { OnOk result ((pairs : List APair) → (words : ℕ) → (log : Log)
        → Lawful pairs words (event.now ∷ log)
        → Mirrors replica.now (state_of pairs words log)
        → KnowsTargets targets.now (state_of pairs words log)
        → KnowsLists building.old (state_of pairs words log)
        → KnowsLists building.new (state_of pairs words (event.now ∷ log))) }
{
    match event {
        Event::Decide { change, yes, .. } => {
            if !*yes {
                return Ok(());
            }
            list_by_start(alloc, replica, building, *change)
        }
        Event::Finish { node, keys, .. } => {
            if !targets.contains(node) {
                return Ok(());
            }
            add_keys(alloc, building, *keys)
        }
        _ => Ok(()),
    }
}

/// Adds the number of keys with which the target of the rebuild that the change starts is finished,
/// if it starts one with such a target, and the building lists for this number.
fn list_by_start(
    alloc: Global,
    replica: &Replica,
    building: &mut BuildingLists,
    change: u64,
) -> Result<(), AllocError>
    ensures exact { OnOk result ((t u : Snapshot) → Mirrors replica.now t
        → GainsKeys t u (StartsFinished t change)
        → KnowsLists building.old t → KnowsLists building.new u) }
{
    match keys_by_start(replica, change) {
        None => Ok(()),
        Some(keys) => add_keys(alloc, building, keys),
    }
}

/// Returns the number of keys with which the target of the rebuild that the change starts is
/// finished, if it starts one, and the target is finished.
fn keys_by_start(replica: &Replica, change: u64) -> Option<u64>
    ensures exact { (t : Snapshot) → Mirrors replica.now t
        → FindsOne (StartsFinished t change) result }
{
    match replica.changes.get(&change) {
        None => None,
        Some(row) => {
            if row.kind != START_KIND {
                return None;
            }
            match rebuild_of_word(row.to) {
                None => None,
                Some(rebuild) => target_keys(replica, rebuild),
            }
        }
    }
}
