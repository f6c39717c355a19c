//! Which condition of an event of a build fails.
ghost use Rattle.std.specs.Prelude.{IfOk};
ghost use Rattle.ist_core.specs.Snapshots.{Snapshot};
ghost use Rattle.ist_core.specs.Logs.{Log};
ghost use Rattle.check_events.specs.Mirroring.{Mirrors};
ghost use Rattle.check_events.specs.Remembering.{KnowsStarts, KnowsDraws, KnowsBuilds, KnowsLeaves};
ghost use Rattle.check_fairness.specs.Knowing.{KnowsLists};
ghost use Rattle.check_builds.specs.HeldRows.{HeldAreFree};
ghost use Rattle.ist_check.specs.Failing.{TellsCondition};
ghost use Rattle.ist_check.specs.Conditions.{root_says, draw_says, place_says, lose_says};

use crate::conditions::Condition;
use crate::single::{
    has_rebuild, has_top, is_finished, is_free_in_top, is_known, is_next_part, is_rooted,
    is_rootless, is_shared, is_started,
};
use crate::tested::{first_failing, test_of};
use check_builds::{can_draw, can_lose, can_place, can_root};
use check_events::{Past, Replica, holds_rows};
use ist_core::Row;
use std::alloc::{AllocError, Global};

/// Returns the first condition of a Root that fails, or `None`.
pub(crate) fn root_fails(
    alloc: Global,
    replica: &Replica,
    past: &Past,
    caller: u64,
    rebuild: u64,
    word: u64,
    rows: &[Row],
) -> Result<Option<Condition>, AllocError>
    ensures exact { IfOk result (λ fails. (t : Snapshot) → Mirrors replica.now t
        → KnowsStarts past.now.started t → HeldAreFree t
        → TellsCondition (root_says t caller rebuild word rows.now) fails) }
{
    let may = can_root(alloc, replica, past, caller, rebuild, word, rows)?;
    Ok(first_failing(&[
        test_of(Condition::Known, is_known(replica, caller)),
        test_of(Condition::Published, has_rebuild(replica, rebuild)),
        test_of(Condition::Started, is_started(past, rebuild)),
        test_of(Condition::Rootless, is_rootless(replica, rebuild)),
        test_of(Condition::Finished, is_finished(replica, rebuild)),
        test_of(Condition::Held, holds_rows(replica, caller, rows)),
        test_of(Condition::Root, may),
    ]))
}

/// Returns the first condition of a Draw that fails, or `None`.
pub(crate) fn draw_fails(
    replica: &Replica,
    past: &Past,
    caller: u64,
    rebuild: u64,
    part: u64,
) -> Option<Condition>
    ensures exact { (t : Snapshot) (log : Log) → Mirrors replica.now t
        → KnowsDraws past.now.drawn log → TellsCondition (draw_says t log caller rebuild part) result }
{
    first_failing(&[
        test_of(Condition::Known, is_known(replica, caller)),
        test_of(Condition::Published, has_rebuild(replica, rebuild)),
        test_of(Condition::Rooted, is_rooted(replica, rebuild)),
        test_of(Condition::Finished, is_finished(replica, rebuild)),
        test_of(Condition::Shared, is_shared(replica, rebuild)),
        test_of(Condition::PartIs, is_next_part(replica, rebuild, part)),
        test_of(
            Condition::NotPast,
            can_draw(replica, past, caller, rebuild, part),
        ),
    ])
}

/// Returns the first condition of a Place that fails, or `None`.
pub(crate) fn place_fails(
    alloc: Global,
    replica: &Replica,
    past: &Past,
    caller: u64,
    rebuild: u64,
    i: u64,
    word: u64,
    rows: &[Row],
) -> Result<Option<Condition>, AllocError>
    ensures exact { IfOk result (λ fails. (t : Snapshot) → Mirrors replica.now t
        → HeldAreFree t → KnowsLeaves past.now.leaves t
        → TellsCondition (place_says t caller rebuild i word rows.now) fails) }
{
    let may = can_place(alloc, replica, past, caller, rebuild, i, word, rows)?;
    Ok(first_failing(&[
        test_of(Condition::Known, is_known(replica, caller)),
        test_of(Condition::Published, has_rebuild(replica, rebuild)),
        test_of(Condition::Rooted, has_top(replica, rebuild)),
        test_of(Condition::Free, is_free_in_top(replica, rebuild, i)),
        test_of(Condition::Held, holds_rows(replica, caller, rows)),
        test_of(Condition::Ideal, may),
    ]))
}

/// Returns the first condition of a Lose that fails, or `None`.
pub(crate) fn lose_fails(
    alloc: Global,
    replica: &Replica,
    past: &Past,
    caller: u64,
    bases: &[u64],
) -> Result<Option<Condition>, AllocError>
    ensures exact { IfOk result (λ fails. (t : Snapshot) (log : Log) → Mirrors replica.now t
        → KnowsLists past.now.building t
        → KnowsBuilds past.now.builds log → TellsCondition (lose_says t log caller bases.now) fails) }
{
    let may = can_lose(alloc, replica, past, caller, bases)?;
    Ok(first_failing(&[
        test_of(Condition::Known, is_known(replica, caller)),
        test_of(Condition::Cause, may),
    ]))
}
