//! Loads that are events: of a status that shows a node open, of a slot of a marked node, and one
//! that gives up a pair row.
ghost use Rattle.std.specs.Prelude.{◌≡◌, ◌<◌};
ghost use Rattle.ist_rule.specs.Faces.{word_count_of};
ghost use Rattle.ist_rule.specs.Learning.{LoadedAs, Naming};
ghost use Rattle.ist_rule.specs.Conditions.{CanLoadAs};
ghost use Rattle.ist_rule.specs.Watching.{CanLoadOkay, LoadedOkay, CanLoadPass, LoadedPass};
ghost use Rattle.ist_rule.specs.Watching.{CanLoadPast, LoadedPast};

use crate::opening::know;
use crate::table::{TreeTable, TreeToken};
use ist_layout::INNER_STATUS_OFFSET;
use std::marker::Brand;

// The row and the index are parameters only to name the event.
fn load_as(table: &TreeTable, token: &mut TreeToken, place: u64, row: u32, index: u64) -> u64
    ghost event: { Naming }
    requires same_table { token.old.view.table ≡ table.now.table }
    requires within { place < word_count_of table.now }
    requires event { CanLoadAs token.old.view place event }
    ensures loaded { LoadedAs token.old.view event place result token.new.view }
{
    let _ = (row, index);
    // Okay, Pass or Lose, as `event` says for the log before and the word; it may be no event.
    table
        .table
        .shared
        .load::<Brand>(&mut token.seat, place as usize)
}

/// Loads the status at `place`, of the node of an installed change.
///
/// If it is 0 and the change is undecided at this step, the step is the Okay of the change: the
/// caller has seen the node open after the installing. Meets the mark of the node.
pub fn load_okay(table: &TreeTable, token: &mut TreeToken, change: u32, place: u64) -> u64
    requires same_table { token.old.view.table ≡ table.now.table }
    requires may_load { CanLoadOkay token.old.view change place }
    ensures seen { LoadedOkay token.old.view change place result token.new.view }
{
    know(token);
    load_as(table, token, place, change, 0)
}

/// Loads slot `index`, at `place`, of a published node.
///
/// If the node is marked at this step and not finished, and the word is neither a change nor Unset,
/// the step is the Pass of the slot: it is frozen from then on. Meets an installing in it.
pub fn load_pass(table: &TreeTable, token: &mut TreeToken, node: u32, index: u64, place: u64) -> u64
    requires same_table { token.old.view.table ≡ table.now.table }
    requires may_load { CanLoadPass token.old.view node index place }
    ensures seen { LoadedPass token.old.view node index place result token.new.view }
{
    know(token);
    load_as(table, token, place, node, index)
}

/// Loads the status of an inner row above the held pair row `pair`, which this step loses: a Lose.
/// Meets no other's step.
pub fn load_past(table: &TreeTable, token: &mut TreeToken, pair: u32, node: u32) -> u64
    requires same_table { token.old.view.table ≡ table.now.table }
    requires may_load { CanLoadPast token.old.view pair node }
    ensures seen { LoadedPast token.old.view pair node result token.new.view }
{
    know(token);
    load_as(table, token, u64::from(node) + INNER_STATUS_OFFSET, pair, 0)
}
