//! Which condition of an event at a node fails.
ghost use Rattle.ist_core.specs.Snapshots.{Snapshot};
ghost use Rattle.ist_core.specs.Logs.{Log};
ghost use Rattle.check_events.specs.Mirroring.{Mirrors};
ghost use Rattle.check_events.specs.Remembering.{KnowsCalls, KnowsPasses};
ghost use Rattle.ist_check.specs.Failing.{TellsCondition};
ghost use Rattle.ist_check.specs.Conditions.{mark_says, pass_says, finish_says};

use crate::conditions::Condition;
use crate::single::{has_in_slot, has_inner, has_status, is_known, names_no_change};
use crate::tested::{first_failing, test_of};
use check_events::{Past, Replica, can_finish, can_mark, can_pass};

/// The status of an open node.
const OPEN_WORD: u64 = 0;

/// The status of a marked node that isn't finished.
const MARKED_WORD: u64 = 1;

/// Returns the first condition of a Mark that fails, or `None`.
pub(crate) fn mark_fails(
    replica: &Replica,
    past: &Past,
    caller: u64,
    node: u64,
) -> Option<Condition>
    ensures exact { (t : Snapshot) (log : Log) → Mirrors replica.now t
        → KnowsCalls past.now.called t log → TellsCondition (mark_says t log caller node) result }
{
    first_failing(&[
        test_of(Condition::Known, is_known(replica, caller)),
        test_of(Condition::Published, has_inner(replica, node)),
        test_of(Condition::RowOpen, has_status(replica, node, OPEN_WORD)),
        test_of(Condition::Called, can_mark(replica, past, caller, node)),
    ])
}

/// Returns the first condition of a Pass that fails, or `None`.
pub(crate) fn pass_fails(
    replica: &Replica,
    caller: u64,
    node: u64,
    i: u64,
    word: u64,
) -> Option<Condition>
    ensures exact { (t : Snapshot) → Mirrors replica.now t
        → TellsCondition (pass_says t caller node i word) result }
{
    first_failing(&[
        test_of(Condition::Known, is_known(replica, caller)),
        test_of(Condition::Published, has_inner(replica, node)),
        test_of(Condition::Marked, has_status(replica, node, MARKED_WORD)),
        test_of(Condition::InSlot, has_in_slot(replica, node, i, word)),
        test_of(Condition::NoChange, names_no_change(word)),
        test_of(Condition::Set, can_pass(replica, caller, node, i, word)),
    ])
}

/// Returns the first condition of a Finish that fails, or `None`.
pub(crate) fn finish_fails(
    replica: &Replica,
    past: &Past,
    caller: u64,
    node: u64,
    keys: u64,
) -> Option<Condition>
    ensures exact { (t : Snapshot) (log : Log) → Mirrors replica.now t
        → KnowsPasses past.now.passed log → TellsCondition (finish_says t log caller node keys) result }
{
    first_failing(&[
        test_of(Condition::Known, is_known(replica, caller)),
        test_of(Condition::Published, has_inner(replica, node)),
        test_of(Condition::Marked, has_status(replica, node, MARKED_WORD)),
        test_of(
            Condition::Passed,
            can_finish(replica, past, caller, node, keys),
        ),
    ])
}
