//! Counting an update at the rows on its way.
ghost use Rattle.std.specs.Prelude.{◌≡◌, ℕ, List, [], ◌∷◌, ◌++◌};
ghost use Rattle.ist_core.specs.declared.commands.Command.{Command};
ghost use Rattle.ist_core.specs.Deciding.{CanCount};
ghost use Rattle.ist_core.specs.Logs.{Log};
ghost use Rattle.ist_core.specs.StartLayout.{start};
ghost use Rattle.ist_rule.specs.Going.{WentOn};
ghost use Rattle.ist_rule.specs.Watching.{number_of};
ghost use Rattle.ist_rows.specs.Building.{HasRefused};
ghost use Rattle.ist_rows.specs.Rows.{IsCaller, IsAtTable};
ghost use Rattle.ist_rows.specs.Going.{IsQuiet, StaysReady};
ghost use Rattle.ist_updates.specs.Asking.{Updates};
ghost use Rattle.ist_updates.specs.Walking.{MayCount, IsCountAt, HasCountedAt, HasStood, HasCounted};

use crate::updates::{Applied, Due};
use ist_layout::{INNER_COUNT_OFFSET, INNER_SIZE_OFFSET};
use ist_math::limit;
use ist_rows::Caller;
use ist_rule::{TreeTable, TreeToken, add, know, load};

// Counts the caller's update at the row, and returns whether the count reached the row's limit by it.
fn count_at(table: &TreeTable, token: &mut TreeToken, row: u32) -> bool
    requires same_table { token.old.view.table ≡ table.now.table }
    requires may_count { MayCount token.old.view row }
    ensures went { WentOn (IsCountAt (number_of token.old.view.who) row) token.old.view
        token.new.view }
    ensures counted { let v = token.old.view in HasCountedAt v.start v.words v.log
        (number_of v.who) row result token.new.view.log }
{
    know(token);
    let place = u64::from(row) + INNER_COUNT_OFFSET;
    // Count. Meets the Counts of other callers at the row.
    let found = add(table, token, place);
    let size = load(table, token, u64::from(row) + INNER_SIZE_OFFSET);
    found + 1 >= limit(size)
}

/// Counts at a row an update that was counted at each row below it. Returns the topmost row that is
/// due by this: this row, with its parent's slot that held it, or else the row that was due before.
pub(crate) fn count_update(
    table: &TreeTable,
    who: &mut Caller,
    parent: u32,
    index: u64,
    row: u32,
    below: Applied,
) -> Applied
    requires caller { IsAtTable table.now IsCaller who.old }
    requires refused { HasRefused who.old }
    requires quiet { IsQuiet who.old }
    requires can { let v = who.old.token.view in
        CanCount (start v.start v.words) v.log who.old.number row }
    requires stood { let v = who.old.token.view in
        HasStood v.start v.words v.log parent index row }
    ensures on { StaysReady Updates who.old who.new }
    ensures counted { let v = who.old.token.view in
        (earlier : Log) (command : Command) (rows : List ℕ)
        → HasCounted v.start v.words earlier v.log who.old.number command (rows ++ row ∷ []) below
        → HasCounted v.start v.words earlier who.new.token.view.log who.old.number command rows
        result }
    ensures reply { result.reply ≡ below.reply }
{
    if count_at(table, &mut who.token, row) {
        return Applied {
            reply: below.reply,
            due: Some(Due {
                parent,
                index,
                target: row,
            }),
        };
    }
    below
}
