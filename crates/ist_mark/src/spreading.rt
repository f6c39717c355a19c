//! Marking a subtree while other callers mark it, each from a place of its own.
ghost use Rattle.std.specs.Prelude.{◌≡◌, ◌<◌, ◌^◌, IfSome};
ghost use Rattle.ist_core.specs.Rebuilding.{IsFinishedWith};
ghost use Rattle.ist_rule.specs.Learning.{now};
ghost use Rattle.ist_rule.specs.Going.{WentOn, KeepsSearch};
ghost use Rattle.ist_mark.specs.Marking.{MayMark, Marks};
ghost use Rattle.ist_rule.specs.Faces.{IsViewAt};
ghost use Rattle.ist_mark.specs.Passing.{MayPass, MayGoOn, HasMarked};

use crate::below::PassedChild;
use crate::counting::mark_and_count;
use crate::passing::pass_slot;
use crate::statuses::{degree_of, mark, own_word};
use ist_layout::{INNER_DEGREE_OFFSET, INNER_STATUS_OFFSET, Status};
use ist_rule::{TreeTable, TreeToken, know};

// A node with fewer slots is marked only in the order of its slots.
const WIDE: u64 = 8;

// Returns where a caller begins among the slots of a node: callers of neighbouring numbers begin
// far apart.
//
// Source: multiplicative hashing, Donald E. Knuth, "The Art of Computer Programming", volume 3, 6.4.
fn first_slot(turn: u32, degree: u64) -> u64
    ensures small { result < 2 ^ 32 }
{
    let part = u64::from(turn).wrapping_mul(2_654_435_769) % 4_294_967_296;
    degree.wrapping_mul(part) / 4_294_967_296
}

// Returns one of the node's slots: the slot number `k` after the first, around the end.
fn nth_slot(first: u64, k: u64, degree: u64) -> u64
    requires small { first < 2 ^ 32 }
    requires few { degree < 2 ^ 32 }
    requires within { k < degree }
    ensures within { result < degree }
{
    (first + k) % degree
}

// Passes a slot of the node, and returns the inner row below it if that is still open.
fn open_below(
    table: &TreeTable,
    token: &mut TreeToken,
    node: u32,
    degree: u64,
    index: u64,
) -> Option<u32>
    requires may_pass { IsViewAt table.now (λ v. MayPass v node degree) token.old.view }
    requires within { index < degree }
    ensures marked { HasMarked node token.old token.new }
    ensures below { IfSome result (λ child. MayGoOn token.new.view node child) }
{
    match pass_slot(table, token, node, degree, index) {
        PassedChild::Keys(_) => None,
        PassedChild::Node(child) => {
            let status = own_word(table, token, child, INNER_STATUS_OFFSET);
            if status == Status::Clear.to_word() {
                return Some(child);
            }
            None
        }
    }
}

// Marks the node if it has many slots, and returns their number, unless the node is finished.
fn begin_wide(table: &TreeTable, token: &mut TreeToken, node: u32) -> Option<u64>
    requires may_mark { IsViewAt table.now (λ v. MayMark v node) token.old.view }
    ensures marked { HasMarked node token.old token.new }
    ensures slots { IfSome result (λ degree. MayPass token.new.view node degree) }
    ensures few { IfSome result (λ degree. degree < 2 ^ 32) }
{
    if own_word(table, token, node, INNER_DEGREE_OFFSET) < WIDE {
        return None;
    }
    if mark(table, token, node).is_some() {
        return None;
    }
    let degree = degree_of(table, token, node);
    know(token);
    Some(degree)
}

// Passes a slot of the node. An inner row below it that is still open is marked and counted.
#[cycle(spreading)]
fn mark_slot(
    table: &TreeTable,
    token: &mut TreeToken,
    node: u32,
    degree: u64,
    index: u64,
    turn: u32,
)
    requires may_pass { IsViewAt table.now (λ v. MayPass v node degree) token.old.view }
    requires within { index < degree }
    ensures marked { HasMarked node token.old token.new }
{
    if let Some(child) = open_below(table, token, node, degree, index) {
        mark_and_count_from(table, token, child, turn);
    }
}

// Marks a node of many slots, and goes once through them, starting from the slot that `turn` chooses.
#[cycle(spreading)]
fn mark_ahead(table: &TreeTable, token: &mut TreeToken, node: u32, turn: u32)
    requires may_mark { IsViewAt table.now (λ v. MayMark v node) token.old.view }
    ensures marked { HasMarked node token.old token.new }
{
    let Some(degree) = begin_wide(table, token, node) else {
        return;
    };
    know(token);
    let first = first_slot(turn, degree);
    for k in 0..degree {
        mark_slot(table, token, node, degree, nth_slot(first, k, degree), turn);
    }
}

/// Does what `mark_and_count` does, for callers that may mark the same subtree at the same time.
///
/// At a node of many slots it first goes through all of them from a place that depends on `turn`, and marks
/// and counts the rows below that it finds open. So callers with different turns begin with different
/// rows, and find the other callers' rows finished. Never allocates, always returns.
#[cycle(spreading)]
pub fn mark_and_count_from(table: &TreeTable, token: &mut TreeToken, node: u32, turn: u32) -> u64
    requires same_table { token.old.view.table ≡ table.now.table }
    requires may_mark { MayMark token.old.view node }
    ensures went { WentOn (Marks token.new.view node) token.old.view token.new.view }
    ensures search { KeepsSearch token.old.view token.new.view }
    ensures finished { IsFinishedWith (now token.new.view) node result }
{
    mark_ahead(table, token, node, turn);
    mark_and_count(table, token, node)
}
