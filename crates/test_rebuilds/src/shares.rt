//! Roots that are built whole or shared: set by one caller and filled by another, one after another
//! and on threads.
ghost use Rattle.std.specs.Prelude.{◌≡◌, IfSome};
ghost use Rattle.ist_core.specs.Rebuilding.{IsStarted};
ghost use Rattle.ist_rows.specs.Going.{IsReady};
ghost use Rattle.ist_rows.specs.Rows.{IsAtTable};
ghost use Rattle.ist_rule.specs.Learning.{now};

use crate::callers::{begin, enter_call, fill_all, help_on, mark, see_rebuild, see_row, set};
use crate::judging::same;
use crate::tables::{Opened, is_image, open_numbered, word_at};
use ist_layout::Ref;
use ist_rebuild::{Helped, Started};
use ist_rows::Caller;
use ist_rule::{TreeTable, TreeToken};
use ist_tree::OpenFault;
use std::alloc::Global;
use std::thread::{Threads, join};

/// Starts a rebuild of what is below the anchor.
pub(crate) fn begin_top(table: &TreeTable, who: &mut Caller) -> Option<u32>
    requires ready { IsAtTable table.now IsReady who.old }
    ensures ready { IsAtTable table.now IsReady who.new }
    ensures started { IfSome result (IsStarted (now who.new.token.view)) }
{
    let Some(target) = see_row(table, who) else {
        return None;
    };
    match begin(table, who, target) {
        Ok(Started::Yes { rebuild }) => Some(rebuild),
        _ => None,
    }
}

// How many slots the row at the base has, and how many of them are Unset.
fn unset_slots(table: &TreeTable, token: &mut TreeToken, base: u32) -> (u64, u64)
    requires same_table { token.old.view.table ≡ table.now.table }
    ensures same_table { token.new.view.table ≡ table.now.table }
{
    let base = u64::from(base);
    let degree = word_at(table, token, base + 2);
    if degree > 100_000 {
        return (degree, 0);
    }
    let mut unset: u64 = 0;
    for i in 0..degree {
        if word_at(table, token, base + degree + 3 + i) == Ref::Unset.to_word() {
            unset = unset.saturating_add(1);
        }
    }
    (degree, unset)
}

// What is seen of a rebuild of n pairs whose root one caller sets and another fills, and which the
// first ends: the slots of the root, how many are Unset after each of these steps, and the rest.
#[derive(Debug, PartialEq, Drop)]
struct Shared {
    set: (u64, u64),
    filled: (u64, u64),
    same_root: bool,
    replaced: bool,
    ideal: bool,
}

// Sets the root of the rebuild that the caller finds, and fills its parts. Returns the root.
fn fill_found(table: &TreeTable, who: &mut Caller) -> Option<Ref>
    requires ready { IsAtTable table.now IsReady who.old }
{
    let Some(seen) = see_rebuild(table, who) else {
        return None;
    };
    mark(table, who, seen);
    let Ok(root) = set(table, who, seen) else {
        return None;
    };
    if fill_all(table, who, seen).is_err() {
        return None;
    }
    Some(root)
}

// The same with a table whose words were the image, and of its callers the first two.
fn share_in(
    table: &TreeTable,
    alloc: Global,
    maker: &mut TreeToken,
    first: &mut Caller,
    second: &mut Caller,
    image: &[u64],
) -> Result<Option<Shared>, OpenFault>
    requires maker_table { maker.old.view.table ≡ table.now.table }
    requires first_ready { IsAtTable table.now IsReady first.old }
    requires second_ready { IsAtTable table.now IsReady second.old }
{
    let Some(rebuild) = begin_top(table, first) else {
        return Ok(None);
    };
    mark(table, first, rebuild);
    let Ok(Ref::Inner { base }) = set(table, first, rebuild) else {
        return Ok(None);
    };
    let set_by_first = unset_slots(table, maker, base);
    let root = fill_found(table, second);
    let filled = unset_slots(table, maker, base);
    let helped = help_on(table, first, rebuild);
    Ok(Some(Shared {
        set: set_by_first,
        filled,
        same_root: root == Some(Ref::Inner { base }),
        replaced: helped == Ok(Helped::Replaced),
        ideal: is_image(alloc, table, maker, image)?,
    }))
}

// The same with a new table of this many pairs.
fn share(alloc: Global, last: u64) -> Result<Option<Shared>, OpenFault> {
    if last > 1000 {
        return Ok(None);
    }
    let Opened {
        table,
        mut maker,
        image,
    } = open_numbered(alloc, last, 20_000)?;
    let mut first = enter_call(&table, &mut maker);
    let mut second = enter_call(&table, &mut maker);
    share_in(
        &table,
        alloc,
        &mut maker,
        &mut first,
        &mut second,
        image.as_slice(),
    )
}

#[test]
fn a_shared_root_that_one_sets_is_filled_by_another(rt: HostRuntime) {
    // the pairs, the slots of the root, those that are Unset after it is set
    let cases = [
        (2, 2, 0),
        (16, 4, 0),
        (255, 15, 0),
        (256, 16, 16),
        (300, 17, 17),
        (400, 20, 20),
    ];
    for (last, slots, unset) in cases {
        let wanted = Shared {
            set: (slots, unset),
            filled: (slots, 0),
            same_root: true,
            replaced: true,
            ideal: true,
        };
        same(&rt, &share(rt.alloc(), last), &Ok(Some(wanted)), last);
    }
}

// What is seen of a rebuild of 300 pairs that two threads help at once: whether both callers found the same
// one, whether each returned that it was replaced, and whether the tree is then the ideal one.
#[derive(Debug, PartialEq, Drop)]
struct Beside {
    same_rebuild: bool,
    replaced: (bool, bool),
    ideal: bool,
}

// Helps a rebuild by a caller that has no more to do. Returns whether it was replaced.
fn help_moved(table: &TreeTable, who: Caller, rebuild: u32) -> bool
    requires ready { IsAtTable table.now IsReady who }
    requires started { IsStarted (now who.token.view) rebuild }
{
    let mut who = who;
    help_on(table, &mut who, rebuild) == Ok(Helped::Replaced)
}

// Both callers help a rebuild, which each has seen, on a thread of its own.
fn help_beside<R: Threads + Sync>(
    table: &TreeTable,
    rt: &R,
    first: Caller,
    second: Caller,
    rebuilds: (u32, u32),
) -> (bool, bool)
    requires first_ready { IsAtTable table.now IsReady first }
    requires first_started { IsStarted (now first.token.view) rebuilds.0 }
    requires second_ready { IsAtTable table.now IsReady second }
    requires second_started { IsStarted (now second.token.view) rebuilds.1 }
{
    let (one, two) = rebuilds;
    join(
        rt,
        ||
            requires ready { IsAtTable table.now IsReady first }
            requires started { IsStarted (now first.token.view) one }
        { help_moved(table, first, one) },
        ||
            requires ready { IsAtTable table.now IsReady second }
            requires started { IsStarted (now second.token.view) two }
        { help_moved(table, second, two) },
    )
}

fn see_beside<R: Threads + Sync>(rt: &R, alloc: Global) -> Result<Beside, OpenFault> {
    let Opened {
        table,
        mut maker,
        image,
    } = open_numbered(alloc, 300, 20_000)?;
    let mut first = enter_call(&table, &mut maker);
    let mut second = enter_call(&table, &mut maker);
    let one = begin_top(&table, &mut first);
    let two = see_rebuild(&table, &mut second);
    let replaced = match (one, two) {
        (Some(one), Some(two)) => help_beside(&table, rt, first, second, (one, two)),
        _ => (false, false),
    };
    let ideal = is_image(alloc, &table, &mut maker, image.as_slice());
    Ok(Beside {
        same_rebuild: one == two,
        replaced,
        ideal: ideal == Ok(true),
    })
}

#[test]
fn two_threads_that_help_one_rebuild_leave_its_leaves_ideal(rt: HostRuntime) {
    let wanted = Beside {
        same_rebuild: true,
        replaced: (true, true),
        ideal: true,
    };
    same(&rt, &see_beside(&rt, rt.alloc()), &Ok(wanted), "300 pairs");
}
