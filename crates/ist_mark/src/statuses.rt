//! The status of a node, from open to marked to finished.
ghost use Rattle.std.specs.Prelude.{◌≡◌, ◌+◌, ◌<◌, ℕ, Some};
ghost use Rattle.ist_core.specs.Statuses.{status_of, Finished};
ghost use Rattle.ist_core.specs.Rebuilding.{IsFinishedWith};
ghost use Rattle.ist_rule.specs.Learning.{now, GoesOnTo, Looked};
ghost use Rattle.ist_mark.specs.Marking.{MayMark};
ghost use Rattle.ist_rule.specs.Faces.{IsViewAt};
ghost use Rattle.ist_mark.specs.Passing.{HasMarked, IsClosed, MayPass, MayFinish};

use ist_layout::{INNER_DEGREE_OFFSET, INNER_STATUS_OFFSET, Status};
use ist_rule::{TreeTable, TreeToken, exchange, know, load};

// Returns the number of keys of a node with this status, if it is finished.
fn keys_of(status: u64) -> Option<u64>
    ensures finished { (k : ℕ) → result ≡ Some k → status_of status ≡ Some (Finished k) }
{
    match Status::from_word(status) {
        Some(Status::Finished { keys }) => Some(u64::from(keys)),
        _ => None,
    }
}

// Loads one of the first three words of a row that may be marked: its status, its count or its degree.
pub(crate) fn own_word(table: &TreeTable, token: &mut TreeToken, node: u32, offset: u64) -> u64
    requires may_mark { IsViewAt table.now (λ v. MayMark v node) token.old.view }
    requires first { offset < 3 }
    ensures looked { Looked token.old.view (node + offset) result token.new.view }
{
    know(token);
    // No event.
    load(table, token, u64::from(node) + offset)
}

// Returns the number of keys of the node, if it is finished.
fn finished_keys(table: &TreeTable, token: &mut TreeToken, node: u32) -> Option<u64>
    requires may_mark { IsViewAt table.now (λ v. MayMark v node) token.old.view }
    ensures seen { GoesOnTo token.old.view token.new.view }
    ensures finished { (k : ℕ) → result ≡ Some k → IsFinishedWith (now token.new.view) node k }
{
    know(token);
    let status = own_word(table, token, node, INNER_STATUS_OFFSET);
    keys_of(status)
}

// Marks the node if it is open, and returns its number of keys if it is finished.
fn mark_open(table: &TreeTable, token: &mut TreeToken, node: u32) -> Option<u64>
    requires may_mark { IsViewAt table.now (λ v. MayMark v node) token.old.view }
    ensures marked { HasMarked node token.old token.new }
    ensures closed { IsClosed (now token.new.view) node }
    ensures finished { (k : ℕ) → result ≡ Some k → IsFinishedWith (now token.new.view) node k }
{
    know(token);
    // Mark. Meets the Okay of a change in a slot of the node, and another's mark.
    let stood = exchange(
        table,
        token,
        u64::from(node) + INNER_STATUS_OFFSET,
        Status::Clear.to_word(),
        Status::Marked.to_word(),
    );
    keys_of(stood)
}

// Marks the node if it is open, and returns its number of keys if it is finished. A caller that comes late
// finds it finished by a load, and so takes the cache line of its status from nobody.
pub(crate) fn mark(table: &TreeTable, token: &mut TreeToken, node: u32) -> Option<u64>
    requires may_mark { IsViewAt table.now (λ v. MayMark v node) token.old.view }
    ensures marked { HasMarked node token.old token.new }
    ensures may_mark { MayMark token.new.view node }
    ensures closed { IsClosed (now token.new.view) node }
    ensures finished { (k : ℕ) → result ≡ Some k → IsFinishedWith (now token.new.view) node k }
{
    match finished_keys(table, token, node) {
        Some(keys) => Some(keys),
        None => mark_open(table, token, node),
    }
}

// Returns the number of slots of the node.
pub(crate) fn degree_of(table: &TreeTable, token: &mut TreeToken, node: u32) -> u64
    requires may_mark { IsViewAt table.now (λ v. MayMark v node) token.old.view }
    requires closed { IsClosed (now token.old.view) node }
    ensures seen { GoesOnTo token.old.view token.new.view }
    ensures degree { MayPass token.new.view node result }
{
    own_word(table, token, node, INNER_DEGREE_OFFSET)
}

// Finishes the node, all of whose slots were passed, with this number of keys.
pub(crate) fn finish(table: &TreeTable, token: &mut TreeToken, node: u32, keys: u64)
    requires may_finish { IsViewAt table.now (λ v. MayFinish v node keys) token.old.view }
    ensures marked { HasMarked node token.old token.new }
    ensures finished { IsFinishedWith (now token.new.view) node keys }
{
    know(token);
    let keys = keys as u32;
    // Finish. Meets another's, which has the same number.
    exchange(
        table,
        token,
        u64::from(node) + INNER_STATUS_OFFSET,
        Status::Marked.to_word(),
        Status::Finished { keys }.to_word(),
    );
}
