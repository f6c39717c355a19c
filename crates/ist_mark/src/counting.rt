//! Marking a subtree, and counting its keys.
ghost use Rattle.std.specs.Prelude.{◌≡◌, ◌<◌};
ghost use Rattle.ist_core.specs.Rebuilding.{IsFinishedWith};
ghost use Rattle.ist_rule.specs.Learning.{now};
ghost use Rattle.ist_rule.specs.Going.{WentOn, KeepsSearch};
ghost use Rattle.ist_mark.specs.Marking.{MayMark, Marks};
ghost use Rattle.ist_rule.specs.Faces.{IsViewAt};
ghost use Rattle.ist_mark.specs.Passing.{MayPass, HasMarked, IsSlotCounted};

use crate::below::PassedChild;
use crate::passing::pass_slot;
use crate::statuses::{degree_of, finish, mark};
use ist_rule::{TreeTable, TreeToken, know};

// Passes a slot of the node, marks what hangs below it, and returns how many keys that has.
#[cycle(marking)]
fn count_slot(table: &TreeTable, token: &mut TreeToken, node: u32, degree: u64, index: u64) -> u64
    requires may_pass { IsViewAt table.now (λ v. MayPass v node degree) token.old.view }
    requires within { index < degree }
    ensures marked { HasMarked node token.old token.new }
    ensures counted { IsSlotCounted token.new.view node index result }
{
    match pass_slot(table, token, node, degree, index) {
        PassedChild::Keys(keys) => keys,
        PassedChild::Node(child) => mark_and_count(table, token, child),
    }
}

/// Marks the node and each inner row below it, until all are finished, and returns the number of
/// keys.
///
/// No later update of a slot of the subtree takes effect. Each change found in a slot is helped first,
/// and what it leaves is counted. Several callers may mark one subtree at the same time, and all
/// return the same number. Helps what others install there, and always returns.
#[cycle(marking)]
pub fn mark_and_count(table: &TreeTable, token: &mut TreeToken, node: u32) -> u64
    requires same_table { token.old.view.table ≡ table.now.table }
    requires may_mark { MayMark token.old.view node }
    ensures went { WentOn (Marks token.new.view node) token.old.view token.new.view }
    ensures search { KeepsSearch token.old.view token.new.view }
    ensures finished { IsFinishedWith (now token.new.view) node result }
{
    if let Some(keys) = mark(table, token, node) {
        return keys;
    }
    let degree = degree_of(table, token, node);
    know(token);
    let mut keys = 0;
    for index in 0..degree {
        keys += count_slot(table, token, node, degree, index);
    }
    finish(table, token, node, keys);
    keys
}
