//! Brings the tables of what is remembered forward.
ghost use Rattle.std.specs.Prelude.{◌≡◌, ◌∷◌, ◌<◌, ◌≤◌, ◌+◌, ◌^◌, [], ℕ, List, IfOk, OnOk};
ghost use Rattle.ist_core.specs.declared.pairs.Pair.{Pair as APair};
ghost use Rattle.ist_core.specs.StartLayout.{start};
ghost use Rattle.ist_core.specs.Logs.{Log};
ghost use Rattle.ist_core.specs.Lawful.{Lawful, CanOpen, state_of as following};
ghost use Rattle.check_events.specs.Mirroring.{Mirrors};
ghost use Rattle.check_events.specs.Remembering.{KnowsSlots, KnowsWays};
ghost use Rattle.ist_check.specs.Knowing.{Remembers};

use check_builds::{
    remember_build, remember_draw, remember_leaves, remember_okay, remember_pass, remember_sizes,
};
use check_events::{BuildTable, Past, Replica};
use check_fairness::no_lists;
use check_state::{
    remember_call, remember_lists, remember_refusal, remember_start, remember_target,
    remember_update, slots_of_start, ways_of_start,
};
use ist_core::Event;
use std::alloc::{AllocError, Global};
use std::collections::{BTreeMap, BTreeSet};

/// Returns the tables for a new table of which this is the replica.
pub(crate) fn open_past(alloc: Global, replica: &Replica) -> Result<Past, AllocError>
    ensures exact { IfOk result (λ past. (pairs : List APair) → (words : ℕ) → CanOpen pairs words
        → Mirrors replica.now (start pairs words) → Remembers past pairs words []) }
    ensures slots { IfOk result (λ past. (pairs : List APair) → (words : ℕ) → CanOpen pairs words
        → Mirrors replica.now (start pairs words) → KnowsSlots past.slots (start pairs words) []) }
    ensures ways { IfOk result (λ past. (pairs : List APair) → (words : ℕ) → CanOpen pairs words
        → Mirrors replica.now (start pairs words) → KnowsWays past.ways (start pairs words) []) }
    ensures few { IfOk result (λ past. past.builds.count ≡ 0) }
{
    let slots = slots_of_start(alloc, replica)?;
    let ways = ways_of_start(alloc, replica, &slots)?;
    Ok(Past {
        okayed: BTreeSet::new(alloc),
        called: BTreeSet::new(alloc),
        drawn: BTreeMap::new(alloc),
        passed: BTreeMap::new(alloc),
        updates: BTreeMap::new(alloc),
        slots,
        ways,
        refused: BTreeSet::new(alloc),
        started: BTreeSet::new(alloc),
        builds: BuildTable {
            count: 0,
            last: BTreeMap::new(alloc),
            since: BTreeMap::new(alloc),
        },
        targets: BTreeSet::new(alloc),
        building: no_lists(alloc),
        leaves: BTreeMap::new(alloc),
    })
}

/// Brings each table except the slots and the ways forward by the event. The replica shows the
/// state before it.
pub(crate) fn remember(
    alloc: Global,
    replica: &Replica,
    past: &mut Past,
    event: &Event,
) -> Result<(), AllocError>
    requires room { past.old.builds.count < 2 ^ 63 }
    ensures exact { OnOk result ((pairs : List APair) → (words : ℕ) → (log : Log)
        → Lawful pairs words (event.now ∷ log)
        → Mirrors replica.now (following pairs words log)
        → Remembers past.old pairs words log
        → Remembers past.new pairs words (event.now ∷ log)) }
    ensures slots { OnOk result (past.new.slots ≡ past.old.slots) }
    ensures ways { OnOk result (past.new.ways ≡ past.old.ways) }
    ensures few { OnOk result (past.new.builds.count ≤ past.old.builds.count + 1) }
{
    remember_okay(&mut past.okayed, event)?;
    remember_call(replica, &mut past.called, event)?;
    remember_draw(&mut past.drawn, event)?;
    remember_pass(&mut past.passed, event)?;
    remember_update(alloc, replica, &mut past.updates, event)?;
    remember_refusal(replica, &mut past.refused, event)?;
    remember_start(replica, &mut past.started, event)?;
    remember_sizes(alloc, replica, &mut past.building, event)?;
    remember_lists(alloc, replica, &past.targets, &mut past.building, event)?;
    remember_target(replica, &mut past.targets, event)?;
    remember_leaves(alloc, replica, &mut past.leaves, event)?;
    remember_build(alloc, &mut past.builds, event)
}
