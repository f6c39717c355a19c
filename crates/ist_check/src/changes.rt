//! Which condition fails for an event by which a caller enters, reserves a row, or acts on a
//! change.
ghost use Rattle.std.specs.Prelude.{IfOk};
ghost use Rattle.ist_core.specs.Snapshots.{Snapshot};
ghost use Rattle.ist_core.specs.Logs.{Log, state};
ghost use Rattle.check_events.specs.Mirroring.{Mirrors};
ghost use Rattle.check_events.specs.Remembering.{KnowsSlots, KnowsWays, KnowsOkays, KnowsUpdates};
ghost use Rattle.check_fairness.specs.Knowing.{KnowsLists};
ghost use Rattle.ist_check.specs.Failing.{TellsCondition};
ghost use Rattle.ist_check.specs.Conditions.{enter_says, reserve_says, okay_says, decide_says, resolve_says, count_says};

use crate::conditions::Condition;
use crate::single::{
    has_change, has_room, is_decided, is_known, is_next, is_next_caller, is_uncounted, is_undecided,
};
use crate::tested::{first_failing, test_of};
use check_events::{
    Past, Replica, can_count, can_decide, can_enter, can_okay, can_reserve, can_resolve,
};
use std::alloc::{AllocError, Global};

/// Returns the first condition of an Enter that fails, or `None`.
pub(crate) fn enter_fails(replica: &Replica, caller: u64) -> Option<Condition>
    ensures exact { (t : Snapshot) → Mirrors replica.now t
        → TellsCondition (enter_says t caller) result }
{
    first_failing(&[
        test_of(Condition::Number, is_next_caller(replica, caller)),
        test_of(Condition::BelowLimit, can_enter(replica, caller)),
    ])
}

/// Returns the first condition of a Reserve that fails, or `None`.
pub(crate) fn reserve_fails(
    alloc: Global,
    replica: &Replica,
    past: &Past,
    caller: u64,
    base: u64,
    size: u64,
) -> Result<Option<Condition>, AllocError>
    ensures exact { IfOk result (λ fails. (t : Snapshot) → Mirrors replica.now t
        → KnowsLists past.now.building t
        → TellsCondition (reserve_says t caller base size) fails) }
{
    let may = can_reserve(alloc, replica, past, caller, base, size)?;
    Ok(first_failing(&[
        test_of(Condition::Known, is_known(replica, caller)),
        test_of(Condition::BaseIs, is_next(replica, base)),
        test_of(Condition::Room, has_room(replica, size)),
        test_of(Condition::Fair, may),
    ]))
}

/// Returns the first condition of an Okay that fails, or `None`.
pub(crate) fn okay_fails(replica: &Replica, caller: u64, change: u64) -> Option<Condition>
    ensures exact { (t : Snapshot) → Mirrors replica.now t
        → TellsCondition (okay_says t caller change) result }
{
    first_failing(&[
        test_of(Condition::Known, is_known(replica, caller)),
        test_of(Condition::Published, has_change(replica, change)),
        test_of(Condition::Unset, is_undecided(replica, change)),
        test_of(Condition::NodeOpen, can_okay(replica, caller, change)),
    ])
}

/// Returns the first condition of a Decide that fails, or `None`.
pub(crate) fn decide_fails(
    replica: &Replica,
    past: &Past,
    caller: u64,
    change: u64,
    yes: bool,
) -> Option<Condition>
    ensures exact { (t : Snapshot) (log : Log) → Mirrors replica.now t
        → KnowsOkays past.now.okayed log → TellsCondition (decide_says t log caller change yes) result }
{
    first_failing(&[
        test_of(Condition::Known, is_known(replica, caller)),
        test_of(Condition::Published, has_change(replica, change)),
        test_of(Condition::Unset, is_undecided(replica, change)),
        test_of(
            Condition::Outcome,
            can_decide(replica, past, caller, change, yes),
        ),
    ])
}

/// Returns the first condition of a Resolve that fails, or `None`.
pub(crate) fn resolve_fails(replica: &Replica, caller: u64, change: u64) -> Option<Condition>
    ensures exact { (t : Snapshot) → Mirrors replica.now t
        → TellsCondition (resolve_says t caller change) result }
{
    first_failing(&[
        test_of(Condition::Known, is_known(replica, caller)),
        test_of(Condition::Published, has_change(replica, change)),
        test_of(Condition::Decided, is_decided(replica, change)),
        test_of(Condition::InSlot, can_resolve(replica, caller, change)),
    ])
}

/// Returns the first condition of a Count that fails, or `None`.
pub(crate) fn count_fails(
    replica: &Replica,
    past: &Past,
    caller: u64,
    node: u64,
) -> Option<Condition>
    ensures exact { (first : Snapshot) (log : Log) → Mirrors replica.now (state first log)
        → KnowsUpdates past.now.updates (state first log) log → KnowsSlots past.now.slots first log
        → KnowsWays past.now.ways first log → TellsCondition (count_says first log caller node) result }
{
    first_failing(&[
        test_of(Condition::Known, is_known(replica, caller)),
        test_of(Condition::Uncounted, is_uncounted(past, caller, node)),
        test_of(Condition::OnChain, can_count(replica, past, caller, node)),
    ])
}
