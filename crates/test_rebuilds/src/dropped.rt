//! A caller that gives up its pair row, since another caller's put has published a higher one.
ghost use Rattle.ist_rows.specs.Rows.{IsCaller, IsAtTable};
ghost use Rattle.ist_tree.specs.Insides.{IsPass};

use crate::judging::same;
use crate::tables::{Opened, open};
use crate::updates::{enter_idle, update_all};
use ist_core::{Full, Pair};
use ist_layout::Ref;
use ist_rows::{Caller, Kind, drop_pair, enter, reserve};
use ist_rule::{TreeTable, begin_search, load_top};
use ist_tree::OpenFault;
use std::alloc::Global;

// The row at which the inner row in the anchor's slot lies, for which the caller gives up its pair row,
// if that lies lower.
fn give_up(table: &TreeTable, who: &mut Caller) -> Option<u32>
    requires caller { IsAtTable table.now IsCaller who.old }
    ensures caller { IsAtTable table.now IsCaller who.new }
{
    begin_search(table, &mut who.token);
    let word = load_top(table, &mut who.token);
    let base = match Ref::from_word(word) {
        Some(Ref::Inner { base }) => base,
        _ => return None,
    };
    match who.pair {
        Some(pair) if pair < base => drop_pair(table, who, base),
        _ => return None,
    }
    Some(base)
}

// What one caller sees that holds a pair row, and gives it up once another has put a key beside the
// only one: the row that it held, the row that the other published, and the next row that it reserves.
type DroppedRow = (Result<u32, Full>, Option<u32>, Result<u32, Full>);

fn reserve_again(table: &TreeTable, low: &mut Caller, other: &mut Caller) -> Option<DroppedRow>
    requires caller { IsAtTable table.now IsCaller low.old }
    requires other_pass { IsAtTable table.now IsPass other.old }
{
    let held = reserve(table, low, Kind::Pair);
    if !update_all(table, other, &[(9, Some(1))]) {
        return None;
    }
    let published = give_up(table, low);
    Some((held, published, reserve(table, low, Kind::Pair)))
}

// The same in a new table of one pair.
fn see_dropped(alloc: Global) -> Result<Option<DroppedRow>, OpenFault> {
    let Opened {
        table,
        mut maker,
        ..
    } = open(alloc, &[Pair { key: 5, value: 7 }], 60)?;
    let mut other = enter_idle(&table, &mut maker);
    let mut low = enter(&table, &mut maker);
    Ok(reserve_again(&table, &mut low, &mut other))
}

#[test]
fn a_pair_row_below_that_of_a_put_is_given_up(rt: HostRuntime) {
    // the leaf lies at 4, the rows of the put at 13, 15 and 22
    let seen = see_dropped(rt.alloc());
    let wanted = Some((Ok(6), Some(15), Ok(31)));
    same(&rt, &seen, &Ok(wanted), "the rows");
}
