//! The first half of a find: its call begins, and its key is searched for.
ghost use Rattle.std.specs.Prelude.{◌≡◌};
ghost use Rattle.ist_rule.specs.Conditions.{CanBegin};
ghost use Rattle.ist_tree.specs.Finding.{FindsInCall};

use ist_core::Command;
use ist_find::{Found, find_from_anchor};
use ist_rule::{TreeTable, TreeToken, begin_call, know};

/// Begins a call that gets the key, and searches for the key.
pub(crate) fn begin_find(table: &TreeTable, token: &mut TreeToken, key: u64) -> Found
    requires same_table { token.old.view.table ≡ table.now.table }
    requires may_begin { CanBegin token.old.view }
    ensures found { FindsInCall token.old.view token.new.view key result }
{
    know(token);
    begin_call(table, token, Some(Command::Get { key }));
    find_from_anchor(table, token, key)
}
