//! Two callers that start one rebuild, of which the other ends it.
ghost use Rattle.std.specs.Prelude.{◌≡◌};
ghost use Rattle.ist_rows.specs.Going.{IsReady};
ghost use Rattle.ist_rows.specs.Rows.{IsAtTable};

use crate::callers::{begin, enter_call, help_on, mark, see_rebuild, see_row};
use crate::judging::same;
use crate::tables::{Opened, all_words, are_alike, open, word_at};
use ist_core::{Full, Pair};
use ist_layout::Ref;
use ist_rebuild::{Helped, Started};
use ist_rows::Caller;
use ist_rule::{TreeTable, TreeToken};
use ist_tree::OpenFault;
use std::alloc::{AllocError, Global};

const FIVE: Pair = Pair { key: 5, value: 7 };

const NINE: Pair = Pair { key: 9, value: 1 };

// What is seen if two callers start a rebuild of the row over both pairs, the second helps it to
// its end, and then the first helps it too: what each start returned, and the rebuild row and the
// change row that the second holds after its start; the rebuild that it finds, the row that it
// marks with its keys and its status, and its help; the words used after it, the anchor's slot, and
// whether the ideal tree is there; the help that came too late, with the change row that its caller
// still holds, and the words used then.
#[derive(Debug, PartialEq, Drop)]
struct TakenTurns {
    starts: (Result<Started, Full>, Result<Started, Full>),
    held: (Option<u32>, Option<u32>),
    marked: (u32, u32, u64, u64),
    helped: Result<Helped, Full>,
    words: (Option<u64>, Option<u64>, bool),
    late: (Option<Result<Helped, Full>>, Option<u32>, u64),
}

/// How many words of the table are used, the word of the anchor's slot, and whether the tree of the image is below it.
pub(crate) fn root_in(
    table: &TreeTable,
    alloc: Global,
    maker: &mut TreeToken,
    image: &[u64],
) -> Result<(Option<u64>, Option<u64>, bool), AllocError>
    requires same_table { maker.old.view.table ≡ table.now.table }
    ensures same_table { maker.new.view.table ≡ table.now.table }
{
    let words = all_words(alloc, table, maker)?;
    let (used, root) = (words.first().copied(), words.get(3).copied());
    let is_ideal = are_alike(alloc, image, &words, (34, root.unwrap_or(0)))?;
    Ok((used, root, is_ideal))
}

// The rebuild that the caller finds, the row that it marks with its keys and its status, and its help.
fn help_found(
    table: &TreeTable,
    maker: &mut TreeToken,
    who: &mut Caller,
) -> Option<((u32, u32, u64, u64), Result<Helped, Full>)>
    requires maker_table { maker.old.view.table ≡ table.now.table }
    requires ready { IsAtTable table.now IsReady who.old }
    ensures maker_table { maker.new.view.table ≡ table.now.table }
{
    let Some(seen) = see_rebuild(table, who) else {
        return None;
    };
    let marked = mark(table, who, seen);
    let status = word_at(table, maker, 4);
    let helped = help_on(table, who, seen);
    Some(((seen, marked.target, marked.keys, status), helped))
}

// The same in a table of both pairs, whose words were the image.
fn see_in(
    table: &TreeTable,
    alloc: Global,
    maker: &mut TreeToken,
    starter: &mut Caller,
    helper: &mut Caller,
    image: &[u64],
) -> Result<Option<TakenTurns>, OpenFault>
    requires maker_table { maker.old.view.table ≡ table.now.table }
    requires starter_ready { IsAtTable table.now IsReady starter.old }
    requires helper_ready { IsAtTable table.now IsReady helper.old }
{
    let (Some(one), Some(two)) = (see_row(table, starter), see_row(table, helper)) else {
        return Ok(None);
    };
    let (start, other) = (begin(table, starter, one), begin(table, helper, two));
    let held = (helper.rebuild, helper.change);
    let Some((marked, helped)) = help_found(table, maker, helper) else {
        return Ok(None);
    };
    let words = root_in(table, alloc, maker, image)?;
    let ended = match start {
        Ok(Started::Yes { rebuild }) => Some(help_on(table, starter, rebuild)),
        _ => None,
    };
    Ok(Some(TakenTurns {
        starts: (start, other),
        held,
        marked,
        helped,
        words,
        late: (ended, starter.change, word_at(table, maker, 0)),
    }))
}

// The same in a new table.
fn see(alloc: Global) -> Result<Option<TakenTurns>, OpenFault> {
    let Opened {
        table,
        mut maker,
        image,
    } = open(alloc, &[FIVE, NINE], 59)?;
    let mut starter = enter_call(&table, &mut maker);
    let mut helper = enter_call(&table, &mut maker);
    see_in(&table, alloc, &mut maker, &mut starter, &mut helper, &image)
}

#[test]
fn a_rebuild_is_ended_by_another_than_who_started_it(rt: HostRuntime) {
    let wanted = TakenTurns {
        // The other finds the rebuild of the first, and holds its own rows, which lie from 29 on.
        starts: (
            Ok(Started::Yes { rebuild: 15 }),
            Ok(Started::Other(Ref::Rebuild { base: 15 }.to_word())),
        ),
        held: (Some(29), Some(34)),
        marked: (15, 4, 2, 11),
        helped: Ok(Helped::Replaced),
        // The row that was built lies at 43, and the finish was put into the change row that was held.
        words: (Some(50), Some(346), true),
        // The caller that comes too late has reserved a change row, which it still holds.
        late: (Some(Ok(Helped::Replaced)), Some(50), 59),
    };
    same(&rt, &see(rt.alloc()), &Ok(Some(wanted)), "two pairs");
}
