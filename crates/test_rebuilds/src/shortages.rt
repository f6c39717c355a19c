//! Starts and rebuilds that are refused, at each number of words.
ghost use Rattle.std.specs.Prelude.{◌≡◌};
ghost use Rattle.ist_rows.specs.Going.{IsReady};
ghost use Rattle.ist_rows.specs.Rows.{IsAtTable};

use crate::callers::{begin, enter_call, help_on, see_row};
use crate::judging::same;
use crate::tables::{Opened, open_numbered, word_at};
use ist_core::Full;
use ist_rebuild::{Helped, Started};
use ist_rows::Caller;
use ist_rule::{TreeTable, TreeToken};
use ist_tree::OpenFault;
use std::alloc::Global;
use std::process::Abort;

// The results of starting a rebuild of all pairs, and of helping it.
#[derive(Debug, PartialEq, Drop)]
struct Came {
    // Why the start, or the help, was refused, if it was.
    refused: Option<Full>,
    // The rebuild row that is still the caller's.
    held: Option<u32>,
    // The word of the rebuild's root, if the rebuild was started.
    root: u64,
}

// Rebuilds the whole table. Returns why that was refused, if it was, and the word of the rebuild's root.
fn rebuild_in(table: &TreeTable, maker: &mut TreeToken, who: &mut Caller) -> (Option<Full>, u64)
    requires maker_table { maker.old.view.table ≡ table.now.table }
    requires ready { IsAtTable table.now IsReady who.old }
{
    let Some(target) = see_row(table, who) else {
        return (None, 0);
    };
    match begin(table, who, target) {
        Ok(Started::Yes { rebuild }) => {
            let refused = help_on(table, who, rebuild).err();
            (refused, word_at(table, maker, u64::from(rebuild) + 3))
        }
        Ok(_) => (None, 0),
        Err(full) => (Some(full), 0),
    }
}

// The same in a new table of this many pairs in this many words.
fn see(alloc: Global, last: u64, words: u64) -> Result<Came, OpenFault> {
    if last > 1000 || words > 1000 {
        return Err(OpenFault::Memory);
    }
    let Opened {
        table,
        mut maker,
        ..
    } = open_numbered(alloc, last, words)?;
    let mut who = enter_call(&table, &mut maker);
    let (refused, root) = rebuild_in(&table, &mut maker, &mut who);
    Ok(Came {
        refused,
        held: who.rebuild,
        root,
    })
}

// The rows that a rebuild of two (and below, of sixteen) pairs reserves, in their order: the rows
// of the start, of the ideal subtree, and of the finish. Of each the first free word before it, its
// words, and the rebuild's own row if the caller still holds it.
const OF_TWO: [(u64, u64, Option<u32>); 4] = [
    (15, 5, None),
    (20, 9, Some(15)),
    (29, 7, None),
    (36, 9, None),
];

const OF_SIXTEEN: [(u64, u64, Option<u32>); 16] = [
    (131, 5, None),
    (136, 9, Some(131)),
    (145, 11, None),
    (156, 7, None),
    (163, 7, None),
    (170, 7, None),
    (177, 7, None),
    (184, 7, None),
    (191, 7, None),
    (198, 7, None),
    (205, 7, None),
    (212, 7, None),
    (219, 7, None),
    (226, 7, None),
    (233, 7, None),
    (240, 9, None),
];

// Why a rebuild of this many pairs in this many words is refused, and the rebuild row that is still the caller's.
fn refused_in(
    alloc: Global,
    last: u64,
    words: u64,
) -> Result<(Option<Full>, Option<u32>), OpenFault> {
    let came = see(alloc, last, words)?;
    Ok((came.refused, came.held))
}

// Fails unless a rebuild of this many pairs is refused this row, where too few words are left for it: none, or all but one.
fn is_refused(rt: &impl Abort, alloc: Global, last: u64, row: &(u64, u64, Option<u32>)) {
    let (next, asked, held) = *row;
    for words in [next, next.saturating_add(asked).saturating_sub(1)] {
        let full = Full { next, asked, words };
        let found = refused_in(alloc, last, words);
        same(rt, &found, &Ok((Some(full), held)), (last, words));
    }
}

// Fails unless a rebuild of this many pairs is refused each of these rows.
fn is_refused_each(rt: &impl Abort, alloc: Global, last: u64, rows: &[(u64, u64, Option<u32>)]) {
    for row in rows {
        is_refused(rt, alloc, last, row);
    }
}

// Returns why a rebuild of this many pairs in this many words is refused, if it is.
fn refusal_in(alloc: Global, last: u64, words: u64) -> Result<Option<Full>, OpenFault> {
    let came = see(alloc, last, words)?;
    Ok(came.refused)
}

#[test]
fn a_rebuild_is_refused_by_the_first_row_that_finds_no_room(rt: HostRuntime) {
    let alloc = rt.alloc();
    is_refused_each(&rt, alloc, 2, &OF_TWO);
    is_refused_each(&rt, alloc, 16, &OF_SIXTEEN);
    // the pairs, the words that suffice
    same(&rt, &refusal_in(alloc, 2, 45), &Ok(None), 2);
    same(&rt, &refusal_in(alloc, 16, 249), &Ok(None), 16);
}

// Returns the word of the rebuild's root after a rebuild of two pairs in this many words.
fn root_in(alloc: Global, words: u64) -> Result<u64, OpenFault> {
    let came = see(alloc, 2, words)?;
    Ok(came.root)
}

#[test]
fn a_refused_build_leaves_no_root_and_a_refused_finish_leaves_it(rt: HostRuntime) {
    // the words of a table of two pairs, the root word after a rebuild there
    let cases = [(28, 0), (29, 7), (35, 7), (36, 234), (44, 234), (45, 234)];
    for (words, root) in cases {
        same(&rt, &root_in(rt.alloc(), words), &Ok(root), words);
    }
}
