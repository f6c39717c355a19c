//! A put that read its node as open, and is installed once the node is marked.
ghost use Rattle.std.specs.Prelude.{◌≡◌};
ghost use Rattle.ist_core.specs.RowLayout.{anchor};
ghost use Rattle.ist_rebuild.specs.Starting.{MayStart};
ghost use Rattle.test_rebuilds.specs.Late.{IsFilled};
ghost use Rattle.test_rebuilds.specs.Steps.{HasDue};
ghost use Rattle.ist_tree.specs.Insides.{IsPass};
ghost use Rattle.ist_rows.specs.Going.{IsReady};
ghost use Rattle.ist_rows.specs.Rows.{IsAtTable};

use crate::callers::{begin, enter_call, help_on, mark, see_rebuild, see_row};
use crate::judging::same;
use crate::late::{LatePut, install_late, prepare};
use crate::tables::{Opened, open, word_at};
use crate::updates::{enter_idle, start_due, update_all, update_due};
use ist_core::{Full, Pair};
use ist_dcss::{Decision, Installed, help};
use ist_layout::{ANCHOR, DECIDED_NO, Ref};
use ist_rebuild::{Helped, Started};
use ist_rows::Caller;
use ist_rule::{TreeTable, TreeToken};
use ist_tree::OpenFault;
use ist_updates::Due;
use std::alloc::Global;

const TEN: Pair = Pair { key: 10, value: 1 };

const TWENTY: Pair = Pair { key: 20, value: 2 };

// The first seven of eight puts at the key 10.
const SEVEN: [(u64, Option<u64>); 7] = [
    (10, Some(1)),
    (10, Some(2)),
    (10, Some(3)),
    (10, Some(4)),
    (10, Some(5)),
    (10, Some(6)),
    (10, Some(7)),
];

// What is seen if the key 10 is put eight times, one caller then starts the rebuild of the row over
// both pairs, another tries to, a third marks the row, and a fourth installs its put after that and
// helps it. The row's status and count were read between the marking and the late put.
#[derive(Clone, Copy, Debug, PartialEq, Eq, Drop)]
struct MarkedStarts {
    due: Due,
    starts: (Result<Started, Full>, Result<Started, Full>),
    frozen: Frozen,
}

// What became of the late put: after the install its slot holds the change, and after the help the word
// that it held before.
#[derive(Clone, Copy, Debug, PartialEq, Eq, Drop)]
struct Late {
    installed: bool,
    stands: bool,
    decision: Option<Decision>,
    decided: u64,
    is_as_before: bool,
}

// Installs the put into the slot at the place, and helps it.
fn put_late(
    table: &TreeTable,
    maker: &mut TreeToken,
    who: &mut Caller,
    put: LatePut,
    place: u64,
) -> Late
    requires maker_table { maker.old.view.table ≡ table.now.table }
    requires filled { IsAtTable table.now (λ x. IsFilled x put.change put.leaf put.row) who.old }
    ensures maker_table { maker.new.view.table ≡ table.now.table }
{
    let before = word_at(table, maker, place);
    let installed = install_late(table, who, put);
    let between = word_at(table, maker, place);
    let decision = match installed {
        Installed::Yes => Some(help(table, &mut who.token, put.change)),
        Installed::Other(_) => None,
    };
    Late {
        installed: installed == Installed::Yes,
        // the word of a change is its base, eight times, and 3
        stands: between == u64::from(put.change) * 8 + 3,
        decision,
        decided: word_at(table, maker, u64::from(put.change)),
        is_as_before: word_at(table, maker, place) == before,
    }
}

// One caller starts the rebuild of the row that it made due, and another tries to.
fn start_both(
    table: &TreeTable,
    first: &mut Caller,
    second: &mut Caller,
    due: Due,
    target: u32,
) -> (Result<Started, Full>, Result<Started, Full>)
    requires due { IsAtTable table.now (λ x. HasDue x due) first.old }
    requires second_ready { IsAtTable table.now IsReady second.old }
    requires may_start { MayStart second.old.token.view anchor 0 target }
{
    (start_due(table, first, due), begin(table, second, target))
}

// How many keys the row has that one caller marks, its status and count, what becomes of the other's late put, and what helping
// the rebuild then returns.
type Frozen = (u64, (u64, u64), Late, Result<Helped, Full>);

fn freeze_and_put(
    table: &TreeTable,
    maker: &mut TreeToken,
    third: &mut Caller,
    fourth: &mut Caller,
    put: LatePut,
    place: u64,
) -> Option<Frozen>
    requires maker_table { maker.old.view.table ≡ table.now.table }
    requires third_ready { IsAtTable table.now IsReady third.old }
    requires filled { IsAtTable table.now (λ x. IsFilled x put.change put.leaf put.row) fourth.old }
{
    let Some(rebuild) = see_rebuild(table, third) else {
        return None;
    };
    let keys = mark(table, third, rebuild).keys;
    // the row over both pairs lies at 4
    let row = (word_at(table, maker, 4), word_at(table, maker, 5));
    let late = put_late(table, maker, fourth, put, place);
    Some((keys, row, late, help_on(table, third, rebuild)))
}

// The same in a table of both pairs, with the late put at a key whose slot lies at a place: both are given.
fn see_in(
    table: &TreeTable,
    maker: &mut TreeToken,
    first: &mut Caller,
    second: &mut Caller,
    third: &mut Caller,
    fourth: &mut Caller,
    at: (u64, u64),
) -> Option<MarkedStarts>
    requires maker_table { maker.old.view.table ≡ table.now.table }
    requires first_pass { IsAtTable table.now IsPass first.old }
    requires second_ready { IsAtTable table.now IsReady second.old }
    requires third_ready { IsAtTable table.now IsReady third.old }
    requires fourth_pass { IsAtTable table.now IsPass fourth.old }
{
    let target = see_row(table, second)?;
    if !update_all(table, first, &SEVEN) {
        return None;
    }
    let due = update_due(table, first, 10, Some(8))?;
    let put = prepare(table, fourth, at.0, 9)?;
    let starts = start_both(table, first, second, due, target);
    let frozen = freeze_and_put(table, maker, third, fourth, put, at.1)?;
    Some(MarkedStarts {
        due,
        starts,
        frozen,
    })
}

// The same from a new table on.
fn see(alloc: Global, key: u64, place: u64) -> Result<Option<MarkedStarts>, OpenFault> {
    let Opened {
        table,
        mut maker,
        ..
    } = open(alloc, &[TEN, TWENTY], 1000)?;
    let mut first = enter_idle(&table, &mut maker);
    let mut fourth = enter_idle(&table, &mut maker);
    let mut second = enter_call(&table, &mut maker);
    let mut third = enter_call(&table, &mut maker);
    let seen = see_in(
        &table,
        &mut maker,
        &mut first,
        &mut second,
        &mut third,
        &mut fourth,
        (key, place),
    );
    Ok(seen)
}

#[test]
fn a_put_that_is_installed_after_a_marking_is_decided_no(rt: HostRuntime) {
    let late = Late {
        installed: true,
        stands: true,
        decision: Some(Decision::No),
        decided: DECIDED_NO,
        is_as_before: true,
    };
    // Eight puts took 88 words after the 15 of the opening, and the late one 11.
    let wanted = MarkedStarts {
        due: Due {
            parent: ANCHOR,
            index: 0,
            target: 4,
        },
        starts: (
            Ok(Started::Yes { rebuild: 114 }),
            Ok(Started::Other(Ref::Rebuild { base: 114 }.to_word())),
        ),
        frozen: (2, (11, 8), late, Ok(Helped::Replaced)),
    };
    // the key of the late put, the place of its slot
    for (key, place) in [(10, 9), (20, 10)] {
        same(&rt, &see(rt.alloc(), key, place), &Ok(Some(wanted)), key);
    }
}
