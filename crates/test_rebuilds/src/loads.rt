//! How many words are loaded on the way to a leaf of a large finished row.
ghost use Rattle.std.specs.Prelude.{◌<◌};
ghost use Rattle.test_rebuilds.specs.Steps.{HasMarkedTarget};
ghost use Rattle.ist_rows.specs.Going.{IsReady};
ghost use Rattle.ist_rows.specs.Rows.{IsAtTable};
ghost use Rattle.ist_rule.specs.Learning.{now};

use crate::callers::{Marked, enter_call, mark};
use crate::judging::same;
use crate::shares::begin_top;
use crate::tables::{Opened, open_numbered};
use ist_build::leaf_and_loads;
use ist_rows::Caller;
use ist_rule::{TreeTable, know};
use ist_tree::OpenFault;
use std::alloc::Global;

// How many words are loaded on the way to the leaf number `i` of the finished target.
fn loads_to(table: &TreeTable, who: &mut Caller, rebuild: u32, marked: Marked, i: u64) -> u64
    requires ready { IsAtTable table.now IsReady who.old }
    requires marked { HasMarkedTarget (now who.old.token.view) rebuild marked.target marked.keys }
    requires within { i < marked.keys }
    ensures ready { IsAtTable table.now IsReady who.new }
    ensures marked { HasMarkedTarget (now who.new.token.view) rebuild marked.target marked.keys }
{
    know(&who.token);
    leaf_and_loads(table, &mut who.token, marked.target, i).1
}

// Returns the first of these leaves for which a different number of words is loaded, or which isn't
// there.
fn first_other(
    table: &TreeTable,
    who: &mut Caller,
    rebuild: u32,
    marked: Marked,
    cases: &[(u64, u64)],
) -> Option<u64>
    requires ready { IsAtTable table.now IsReady who.old }
    requires marked { HasMarkedTarget (now who.old.token.view) rebuild marked.target marked.keys }
{
    for (i, loads) in cases {
        if *i >= marked.keys {
            return Some(*i);
        }
        if loads_to(table, who, rebuild, marked, *i) != *loads {
            return Some(*i);
        }
    }
    None
}

// Returns how many keys the finished target has, and the first of these leaves for which a
// different number of words is loaded, in a rebuild of all pairs.
fn see_in(table: &TreeTable, who: &mut Caller, cases: &[(u64, u64)]) -> Option<(u64, Option<u64>)>
    requires ready { IsAtTable table.now IsReady who.old }
{
    let rebuild = begin_top(table, who)?;
    let marked = mark(table, who, rebuild);
    Some((marked.keys, first_other(table, who, rebuild, marked, cases)))
}

// The same in a new table of 100,000 pairs.
fn see(alloc: Global, cases: &[(u64, u64)]) -> Result<Option<(u64, Option<u64>)>, OpenFault> {
    let Opened {
        table,
        mut maker,
        ..
    } = open_numbered(alloc, 100_000, 2_000_000)?;
    let mut who = enter_call(&table, &mut maker);
    Ok(see_in(&table, &mut who, cases))
}

#[test]
fn a_frozen_leaf_is_reached_by_one_child_a_row(rt: HostRuntime) {
    // the leaf's number, and the words: of each row on its way the degree, and of each slot up to
    // the leaf's slot its word, and the finished count of a row below it
    let cases = [
        (0, 17),
        (1, 18),
        (316, 55),
        (317, 19),
        (50_000, 357),
        (99_999, 685),
    ];
    let seen = see(rt.alloc(), &cases);
    same(&rt, &seen, &Ok(Some((100_000, None))), "100,000 pairs");
}
