//! Two callers that mark one subtree, one after another and on threads.
ghost use Rattle.std.specs.Prelude.{◌≡◌};
ghost use Rattle.ist_core.specs.Rebuilding.{IsStarted};
ghost use Rattle.ist_rows.specs.Going.{IsReady};
ghost use Rattle.ist_rows.specs.Rows.{IsAtTable};
ghost use Rattle.ist_rule.specs.Learning.{now};

use crate::callers::{enter_call, mark, see_rebuild};
use crate::judging::same;
use crate::shares::begin_top;
use crate::tables::{Opened, open_numbered, word_at};
use ist_layout::Status;
use ist_rows::Caller;
use ist_rule::{TreeTable, TreeToken};
use ist_tree::OpenFault;
use std::alloc::Global;
use std::thread::{Threads, join};

// The status of the row over both pairs before, after the first and after the second caller marks it, and how many
// keys each counts.
type Turns = ([u64; 3], [u64; 2]);

// Each marks the target of the rebuild that it has seen.
fn mark_in_turn(
    table: &TreeTable,
    maker: &mut TreeToken,
    first: &mut Caller,
    second: &mut Caller,
    rebuilds: (u32, u32),
) -> Turns
    requires maker_table { maker.old.view.table ≡ table.now.table }
    requires first_ready { IsAtTable table.now IsReady first.old }
    requires first_started { IsStarted (now first.old.token.view) rebuilds.0 }
    requires second_ready { IsAtTable table.now IsReady second.old }
    requires second_started { IsStarted (now second.old.token.view) rebuilds.1 }
{
    let clear = word_at(table, maker, 4);
    let by_first = mark(table, first, rebuilds.0).keys;
    let status = word_at(table, maker, 4);
    let by_second = mark(table, second, rebuilds.1).keys;
    (
        [clear, status, word_at(table, maker, 4)],
        [by_first, by_second],
    )
}

// The same in a new table of two pairs, in which the first starts the rebuild.
fn mark_two(alloc: Global) -> Result<Option<Turns>, OpenFault> {
    let Opened {
        table,
        mut maker,
        ..
    } = open_numbered(alloc, 2, 59)?;
    let mut first = enter_call(&table, &mut maker);
    let mut second = enter_call(&table, &mut maker);
    let one = begin_top(&table, &mut first);
    let two = see_rebuild(&table, &mut second);
    Ok(match (one, two) {
        (Some(one), Some(two)) => {
            Some(mark_in_turn(&table, &mut maker, &mut first, &mut second, (one, two)))
        }
        _ => None,
    })
}

#[test]
fn two_callers_mark_one_subtree_in_turn(rt: HostRuntime) {
    let clear = Status::Clear.to_word();
    let finished = Status::Finished { keys: 2 }.to_word();
    let wanted = Some(([clear, finished, finished], [2, 2]));
    same(&rt, &mark_two(rt.alloc()), &Ok(wanted), "two callers");
}

// Returns what a caller counts that has no more to do.
fn mark_moved(table: &TreeTable, who: Caller, rebuild: u32) -> u64
    requires ready { IsAtTable table.now IsReady who }
    requires started { IsStarted (now who.token.view) rebuild }
{
    let mut who = who;
    mark(table, &mut who, rebuild).keys
}

// Returns what each of two callers counts, on a thread of its own.
fn mark_beside<R: Threads + Sync>(
    table: &TreeTable,
    rt: &R,
    first: Caller,
    second: Caller,
    rebuilds: (u32, u32),
) -> (u64, u64)
    requires first_ready { IsAtTable table.now IsReady first }
    requires first_started { IsStarted (now first.token.view) rebuilds.0 }
    requires second_ready { IsAtTable table.now IsReady second }
    requires second_started { IsStarted (now second.token.view) rebuilds.1 }
{
    let (one, two) = rebuilds;
    join(
        rt,
        ||
            requires ready { IsAtTable table.now IsReady first }
            requires started { IsStarted (now first.token.view) one }
        { mark_moved(table, first, one) },
        ||
            requires ready { IsAtTable table.now IsReady second }
            requires started { IsStarted (now second.token.view) two }
        { mark_moved(table, second, two) },
    )
}

// Returns what each counts in a new table of two pairs, and the status of the row over them afterwards.
fn mark_on_threads<R: Threads + Sync>(
    rt: &R,
    alloc: Global,
) -> Result<(Option<(u64, u64)>, u64), OpenFault> {
    let Opened {
        table,
        mut maker,
        ..
    } = open_numbered(alloc, 2, 59)?;
    let mut first = enter_call(&table, &mut maker);
    let mut second = enter_call(&table, &mut maker);
    let one = begin_top(&table, &mut first);
    let two = see_rebuild(&table, &mut second);
    let counted = match (one, two) {
        (Some(one), Some(two)) => Some(mark_beside(&table, rt, first, second, (one, two))),
        _ => None,
    };
    Ok((counted, word_at(&table, &mut maker, 4)))
}

#[test]
fn two_threads_mark_one_subtree(rt: HostRuntime) {
    let finished = Status::Finished { keys: 2 }.to_word();
    let seen = mark_on_threads(&rt, rt.alloc());
    same(&rt, &seen, &Ok((Some((2, 2)), finished)), "two threads");
}
