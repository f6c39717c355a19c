//! Rebuilds that nobody helps while others put and remove, or while the row above is rebuilt.
ghost use Rattle.std.specs.Prelude.{◌≡◌};
ghost use Rattle.ist_core.specs.Rebuilding.{IsStarted};
ghost use Rattle.ist_rows.specs.Going.{IsReady};
ghost use Rattle.ist_rows.specs.Rows.{IsAtTable};
ghost use Rattle.ist_rule.specs.Learning.{now};
ghost use Rattle.ist_tree.specs.Insides.{IsPass};

use crate::callers::{enter_call, help_on, mark};
use crate::judging::same;
use crate::shares::begin_top;
use crate::tables::{Opened, is_image, numbered, open, open_numbered};
use crate::updates::{enter_idle, start_after, update_all};
use ist_core::{Full, Pair};
use ist_find::find_from_anchor;
use ist_rebuild::Helped;
use ist_rows::Caller;
use ist_rule::{TreeTable, TreeToken};
use ist_tree::OpenFault;
use std::alloc::Global;

const TEN: Pair = Pair { key: 10, value: 1 };

const TWENTY: Pair = Pair { key: 20, value: 2 };

// What is seen if one caller starts the rebuild of the row over both pairs and makes no step, and
// another puts 7 at the key 10 and removes 20: the rebuild, whether both were carried out, and what
// is found at the two keys.
#[derive(Debug, PartialEq, Drop)]
struct Still {
    rebuild: Option<u32>,
    updated: bool,
    found: (Option<u64>, Option<u64>),
}

fn still_in(
    table: &TreeTable,
    maker: &mut TreeToken,
    first: &mut Caller,
    second: &mut Caller,
) -> Still
    requires maker_table { maker.old.view.table ≡ table.now.table }
    requires first_ready { IsAtTable table.now IsReady first.old }
    requires second_pass { IsAtTable table.now IsPass second.old }
{
    let rebuild = begin_top(table, first);
    let updated = update_all(table, second, &[(10, Some(7)), (20, None)]);
    let ten = find_from_anchor(table, maker, 10).value;
    let twenty = find_from_anchor(table, maker, 20).value;
    Still {
        rebuild,
        updated,
        found: (ten, twenty),
    }
}

// The same in a new table.
fn see_still(alloc: Global) -> Result<Still, OpenFault> {
    let Opened {
        table,
        mut maker,
        ..
    } = open(alloc, &[TEN, TWENTY], 1000)?;
    let mut second = enter_idle(&table, &mut maker);
    let mut first = enter_call(&table, &mut maker);
    Ok(still_in(&table, &mut maker, &mut first, &mut second))
}

#[test]
fn a_put_is_answered_while_the_rebuild_in_its_way_stands_still(rt: HostRuntime) {
    let wanted = Still {
        rebuild: Some(15),
        updated: true,
        found: (Some(7), None),
    };
    same(&rt, &see_still(rt.alloc()), &Ok(wanted), "two pairs");
}

// The pairs of the table at first: the row over them has 14 children, the second of the keys from 16 to 30.
const LAST: u64 = 200;

// The first seven of eight puts at the key 16.
const SEVEN: [(u64, Option<u64>); 7] = [
    (16, Some(1)),
    (16, Some(2)),
    (16, Some(3)),
    (16, Some(4)),
    (16, Some(5)),
    (16, Some(6)),
    (16, Some(7)),
];

// Returns the words of a new table of these pairs, but with 8 at the key 16.
fn image_after(alloc: Global) -> Result<Vec<u64>, OpenFault> {
    let mut pairs = numbered(alloc, LAST)?;
    if let Some(pair) = pairs.get_mut(15) {
        *pair = Pair { key: 16, value: 8 };
    }
    Ok(open(alloc, pairs.as_slice(), 20_000)?.image)
}

// Helps the rebuild, if the test says so.
fn help_where(
    table: &TreeTable,
    who: &mut Caller,
    rebuild: u32,
    at_once: bool,
) -> Option<Result<Helped, Full>>
    requires ready { IsAtTable table.now IsReady who.old }
    requires started { IsStarted (now who.old.token.view) rebuild }
    ensures ready { IsAtTable table.now IsReady who.new }
    ensures started { IsStarted (now who.new.token.view) rebuild }
{
    if at_once {
        return Some(help_on(table, who, rebuild));
    }
    None
}

// The results of both rebuilds: the node above the lower one, what helping each returned, how many
// keys the upper one's target had, and whether the tree is then the ideal one.
#[derive(Debug, PartialEq, Drop)]
struct Both {
    parent: u32,
    lower: Option<Result<Helped, Full>>,
    keys: u64,
    upper: Result<Helped, Full>,
    ideal: bool,
}

// Helps the lower rebuild, before or after the row of the upper one is marked, and then the upper. Returns what helping each
// returned, and how many keys the upper one's target had.
fn help_both(
    table: &TreeTable,
    low: &mut Caller,
    high: &mut Caller,
    rebuilds: (u32, u32),
    early: bool,
) -> (Option<Result<Helped, Full>>, u64, Result<Helped, Full>)
    requires low_ready { IsAtTable table.now IsReady low.old }
    requires low_started { IsStarted (now low.old.token.view) rebuilds.0 }
    requires high_ready { IsAtTable table.now IsReady high.old }
    requires high_started { IsStarted (now high.old.token.view) rebuilds.1 }
{
    let (below, above) = rebuilds;
    let first = help_where(table, low, below, early);
    let keys = mark(table, high, above).keys;
    let second = help_where(table, low, below, !early);
    (first.or(second), keys, help_on(table, high, above))
}

// One caller puts at the key 16 until the row over it is due, and starts its rebuild; another
// starts the rebuild of the row above. Then both are helped.
fn rebuild_both(
    table: &TreeTable,
    alloc: Global,
    maker: &mut TreeToken,
    most: &mut Caller,
    low: &mut Caller,
    high: &mut Caller,
    early: bool,
) -> Result<Option<Both>, OpenFault>
    requires maker_table { maker.old.view.table ≡ table.now.table }
    requires most_pass { IsAtTable table.now IsPass most.old }
    requires low_pass { IsAtTable table.now IsPass low.old }
    requires high_ready { IsAtTable table.now IsReady high.old }
{
    let Some((due, below)) = start_after(table, most, low, &SEVEN, 16, Some(8)) else {
        return Ok(None);
    };
    let Some(above) = begin_top(table, high) else {
        return Ok(None);
    };
    let (lower, keys, upper) = help_both(table, low, high, (below, above), early);
    let image = image_after(alloc)?;
    Ok(Some(Both {
        parent: due.parent,
        lower,
        keys,
        upper,
        ideal: is_image(alloc, table, maker, image.as_slice())?,
    }))
}

// The same in a new table.
fn see_both(alloc: Global, early: bool) -> Result<Option<Both>, OpenFault> {
    let Opened {
        table,
        mut maker,
        ..
    } = open_numbered(alloc, LAST, 20_000)?;
    let mut most = enter_idle(&table, &mut maker);
    let mut low = enter_idle(&table, &mut maker);
    let mut high = enter_call(&table, &mut maker);
    rebuild_both(
        &table, alloc, &mut maker, &mut most, &mut low, &mut high, early,
    )
}

#[test]
fn a_lower_rebuild_is_done_unless_the_row_above_was_marked_before(rt: HostRuntime) {
    // whether the lower rebuild is helped before the row above is marked, and what its help then
    // returns
    let cases = [(false, Helped::ParentMarked), (true, Helped::Replaced)];
    for (early, lower) in cases {
        let both = Both {
            parent: 4,
            lower: Some(Ok(lower)),
            keys: LAST,
            upper: Ok(Helped::Replaced),
            ideal: true,
        };
        let came = see_both(rt.alloc(), early);
        same(&rt, &came, &Ok(Some(both)), early);
    }
}
