//! Beginning and ending calls and searches. Each is a load of word 0 that changes the view of its
//! token.
ghost use Rattle.std.specs.Prelude.{◌≡◌, Option};
ghost use Rattle.ist_core.specs.declared.calls.Call.{Call as CallOf};
ghost use Rattle.ist_core.specs.declared.commands.Command.{Command as CommandOf};
ghost use Rattle.ist_rule.specs.Learning.{Turned, TurnedAt, beginning, searching, beginning_read, ending, giving_up};
ghost use Rattle.ist_rule.specs.Conditions.{CanBegin, CanEnd, CanGiveUp, MayWalk};
ghost use Rattle.ist_rule.specs.Glancing.{Glanced};
ghost use Rattle.ist_core.specs.RowLayout.{next_place};

use crate::plays::{GivesUp, Glances, Reads, Searches};
use crate::table::{TreeTable, TreeToken};
use ist_core::{Command, Reply};
use std::marker::Brand;

/// Begins a call of the token's caller, with this command or with none.
pub fn begin_call(table: &TreeTable, token: &mut TreeToken, command: Option<Command>)
    ghost asked: { Option CommandOf }
    requires same_table { token.old.view.table ≡ table.now.table }
    requires may_begin { CanBegin token.old.view }
    requires asked { command ≡ asked }
    ensures begun { TurnedAt token.old.view (beginning token.old.view command) token.new.view }
{
    let _ = command;
    // No event: a load of word 0, to begin a call. It sees what others did up to here.
    table.table.shared.load::<Brand>(&mut token.seat, 0);
}

/// Begins a search: clears the view's loads, notes the log's length and adds 1 to its `searches`. A
/// walk may begin then, by `load_top`.
pub fn begin_search(table: &TreeTable, token: &mut TreeToken)
    requires same_table { token.old.view.table ≡ table.now.table }
    ensures begun { Turned token.old.view (searching token.old.view) token.new.view }
    ensures may_walk { MayWalk token.new.view }
{
    // No event: a load of word 0, to begin a search. It sees what others did up to here.
    table.table.shared.load::<Searches>(&mut token.seat, 0);
}

/// Begins a read of the token's caller, which is in no call: a search whose beginning has its place among
/// the moments of all calls.
pub fn begin_read(table: &TreeTable, token: &mut TreeToken)
    requires same_table { token.old.view.table ≡ table.now.table }
    requires may_begin { CanBegin token.old.view }
    ensures begun { TurnedAt token.old.view (beginning_read token.old.view) token.new.view }
    ensures may_walk { MayWalk token.new.view }
{
    // No event: a load of word 0, to begin a read. It sees what others did up to here.
    table.table.shared.load::<Reads>(&mut token.seat, 0);
}

/// Returns the first free word at this step, which has its place among the moments of all calls. The
/// token's caller is in no call.
pub fn glance(table: &TreeTable, token: &mut TreeToken) -> u64
    requires same_table { token.old.view.table ≡ table.now.table }
    requires may_begin { CanBegin token.old.view }
    ensures glanced { Glanced token.old.view next_place result token.new.view }
{
    // No event: a load of word 0, which is a read of its own. Meets whoever reserves a row.
    table.table.shared.load::<Glances>(&mut token.seat, 0)
}

/// Ends the token's call with this reply. The call is then the last of the token's calls, with the
/// next stamp, at the position that is shown for it.
pub fn end_call(table: &TreeTable, token: &mut TreeToken, reply: Reply)
    ghost call: { CallOf }
    requires same_table { token.old.view.table ≡ table.now.table }
    requires may_end { CanEnd token.old.view call }
    requires reply { reply ≡ call.reply }
    ensures ended { TurnedAt token.old.view (ending token.old.view call) token.new.view }
{
    let _ = reply;
    // No event: a load of word 0, to end a call. It sees what others did up to here.
    table.table.shared.load::<Brand>(&mut token.seat, 0);
}

/// Ends the token's call without a reply. The token's calls stay as they were.
pub fn give_up(table: &TreeTable, token: &mut TreeToken)
    requires same_table { token.old.view.table ≡ table.now.table }
    requires may_give_up { CanGiveUp token.old.view }
    ensures given_up { TurnedAt token.old.view (giving_up token.old.view) token.new.view }
{
    // No event: a load of word 0, to give up a call. It sees what others did up to here.
    table.table.shared.load::<GivesUp>(&mut token.seat, 0);
}
