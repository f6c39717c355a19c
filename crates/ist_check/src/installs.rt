//! Which condition of an Install fails.
ghost use Rattle.std.specs.Prelude.{◌≡◌, ◌↔◌, IsTrue};
ghost use Rattle.ist_core.specs.Snapshots.{Snapshot};
ghost use Rattle.ist_core.specs.Logs.{Log, state};
ghost use Rattle.ist_core.specs.Slots.{SlotHolds};
ghost use Rattle.ist_core.specs.Links.{WasLinked};
ghost use Rattle.ist_core.specs.Statuses.{undecided};
ghost use Rattle.ist_core.specs.Installing.{IsUnrefused};
ghost use Rattle.check_events.specs.Mirroring.{Mirrors};
ghost use Rattle.check_events.specs.Remembering.{KnowsSlots, KnowsWays, KnowsRefusals, KnowsStarts};
ghost use Rattle.check_events.specs.Ways.{KeysStay};
ghost use Rattle.ist_check.specs.Failing.{TellsCondition};
ghost use Rattle.ist_check.specs.Published as published;
ghost use Rattle.ist_check.specs.Published.{Any, IsWith};
ghost use Rattle.ist_check.specs.Conditions.{install_says};

use crate::conditions::Condition;
use crate::single::is_known;
use crate::tested::{first_failing, test_of};
use check_events::{
    Past, Replica, can_install, change_of_words, holds_rows, pair_key, slot_holds, was_linked,
};
use ist_core::{ChangeRow, Row};
use ist_layout::UNDECIDED;

/// Returns the first condition of an Install that fails, or `None`.
pub(crate) fn install_fails(
    replica: &Replica,
    past: &Past,
    caller: u64,
    base: u64,
    rows: &[Row],
) -> Option<Condition>
    ensures exact { (first : Snapshot) (log : Log) → Mirrors replica.now (state first log)
        → KnowsSlots past.now.slots first log → KnowsWays past.now.ways first log
        → KnowsRefusals past.now.refused (state first log)
        → KnowsStarts past.now.started (state first log) → KeysStay first log
        → TellsCondition (install_says first log caller base rows.now) result }
{
    let change = first_change(rows, base);
    first_failing(&[
        test_of(Condition::Known, is_known(replica, caller)),
        test_of(Condition::RowsAre, is_there(change)),
        test_of(Condition::Held, holds_rows(replica, caller, rows)),
        test_of(Condition::Owned, is_owned(change, caller)),
        test_of(Condition::Unset, is_unset(change)),
        test_of(Condition::InSlot, is_in_slot(replica, change)),
        test_of(Condition::Linked, is_linked(past, change)),
        test_of(Condition::Unrefused, is_free(past, change, caller)),
        test_of(
            Condition::Fits,
            can_install(replica, past, caller, base, rows),
        ),
    ])
}

/// Returns the change that the first of the rows is, if that row is at the base.
fn first_change(rows: &[Row], base: u64) -> Option<ChangeRow>
    ensures value { result ≡ published.first_change_at rows.now base }
{
    match rows {
        [] => None,
        [row, ..] => {
            if row.base != base {
                return None;
            }
            change_of_words(row.words.as_slice())
        }
    }
}

/// Returns whether there is a change.
fn is_there(change: Option<ChangeRow>) -> bool
    ensures exact { IsTrue result ↔ IsWith Any change }
{
    change.is_some()
}

/// Returns whether the change is the caller's.
fn is_owned(change: Option<ChangeRow>, caller: u64) -> bool
    ensures exact { IsTrue result ↔ IsWith (λ change. change.owner ≡ caller) change }
{
    match change {
        None => false,
        Some(row) => row.owner == caller,
    }
}

/// Returns whether the change is undecided.
fn is_unset(change: Option<ChangeRow>) -> bool
    ensures exact { IsTrue result ↔ IsWith (λ change. change.decision ≡ undecided) change }
{
    match change {
        None => false,
        Some(row) => row.decision == UNDECIDED,
    }
}

/// Returns whether the slot holds what the change takes out of it.
fn is_in_slot(replica: &Replica, change: Option<ChangeRow>) -> bool
    ensures exact { (t : Snapshot) → Mirrors replica.now t → (IsTrue result
        ↔ IsWith (λ change. SlotHolds t change.node change.index change.from) change) }
{
    match change {
        None => false,
        Some(row) => slot_holds(replica, row.node, row.index, u128::from(row.from)),
    }
}

/// Returns whether the change's node is linked or was.
fn is_linked(past: &Past, change: Option<ChangeRow>) -> bool
    ensures exact { (first : Snapshot) (log : Log) → KnowsSlots past.now.slots first log
        → (IsTrue result ↔ IsWith (λ change. WasLinked first log change.node) change) }
{
    match change {
        None => false,
        Some(row) => was_linked(past, row.node),
    }
}

/// Returns whether no change of the caller on the node was decided no.
fn is_free(past: &Past, change: Option<ChangeRow>, caller: u64) -> bool
    ensures exact { (t : Snapshot) → KnowsRefusals past.now.refused t
        → (IsTrue result ↔ IsWith (λ change. IsUnrefused t caller change.node) change) }
{
    match change {
        None => false,
        Some(row) => !past.refused.contains(&pair_key(caller, row.node)),
    }
}
