//! Rebuilds of a row that holds two leaves, one, or none.
ghost use Rattle.std.specs.Prelude.{◌≡◌};
ghost use Rattle.ist_rows.specs.Going.{IsReady};
ghost use Rattle.ist_rows.specs.Rows.{IsAtTable};
ghost use Rattle.ist_tree.specs.Insides.{IsPass};

use crate::callers::{enter_call, help_on, mark};
use crate::judging::same;
use crate::shares::begin_top;
use crate::tables::{Opened, open_numbered, word_at};
use crate::updates::{enter_idle, update_all};
use ist_layout::Ref;
use ist_rebuild::Helped;
use ist_rows::Caller;
use ist_rule::{TreeTable, TreeToken};
use ist_tree::OpenFault;
use std::alloc::Global;

// What is seen of a rebuild: how many keys its finished target has, whether it was replaced, and
// what is below the anchor then.
#[derive(Debug, PartialEq, Drop)]
struct RebuiltRow {
    keys: u64,
    replaced: bool,
    below: Option<Ref>,
}

// Rebuilds the row below the anchor after these removes, which another caller makes first.
fn see_in(
    table: &TreeTable,
    maker: &mut TreeToken,
    most: &mut Caller,
    who: &mut Caller,
    removes: &[(u64, Option<u64>)],
) -> Option<RebuiltRow>
    requires maker_table { maker.old.view.table ≡ table.now.table }
    requires most_pass { IsAtTable table.now IsPass most.old }
    requires who_ready { IsAtTable table.now IsReady who.old }
{
    if !update_all(table, most, removes) {
        return None;
    }
    let rebuild = begin_top(table, who)?;
    let keys = mark(table, who, rebuild).keys;
    let replaced = help_on(table, who, rebuild) == Ok(Helped::Replaced);
    let below = Ref::from_word(word_at(table, maker, 3));
    Some(RebuiltRow {
        keys,
        replaced,
        below,
    })
}

// The same in a new table of the pairs (1, 1) and (2, 2).
fn see(alloc: Global, removes: &[(u64, Option<u64>)]) -> Result<Option<RebuiltRow>, OpenFault> {
    let Opened {
        table,
        mut maker,
        ..
    } = open_numbered(alloc, 2, 1_000)?;
    let mut most = enter_idle(&table, &mut maker);
    let mut who = enter_call(&table, &mut maker);
    Ok(see_in(&table, &mut maker, &mut most, &mut who, removes))
}

#[test]
fn a_row_of_one_leaf_is_replaced_by_it_and_one_of_none_by_nothing(rt: HostRuntime) {
    let none: &[(u64, Option<u64>)] = &[];
    // the removes; how many keys are left, and what holds them: the leaves lie at 11 and at 13
    let cases = [
        (none, 2, Ref::Inner { base: 29 }),
        (&[(2, None)], 1, Ref::Leaf { base: 11 }),
        (&[(1, None)], 1, Ref::Leaf { base: 13 }),
        (&[(1, None), (2, None)], 0, Ref::Empty),
        (&[(2, None), (1, None)], 0, Ref::Empty),
    ];
    for (removes, keys, below) in cases {
        let wanted = RebuiltRow {
            keys,
            replaced: true,
            below: Some(below),
        };
        let seen = see(rt.alloc(), removes);
        same(&rt, &seen, &Ok(Some(wanted)), keys);
    }
}
