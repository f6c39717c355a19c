//! What a replica says of one node or slot.
ghost use Rattle.std.specs.Prelude.{◌≡◌, ◌↔◌, IsTrue, Some, slice_get};
ghost use Rattle.ist_core.specs.RowLayout.{anchor};
ghost use Rattle.ist_core.specs.Statuses.{finished_word};
ghost use Rattle.ist_core.specs.Snapshots.{Snapshot};
ghost use Rattle.ist_core.specs.Slots.{IsOpen, SlotHolds};
ghost use Rattle.ist_core.specs.Rebuilding.{IsFinishedWith};
ghost use Rattle.check_fairness.specs.Answers.{FindsOne};
ghost use Rattle.check_events.specs.Mirroring.{Mirrors, RowHolds};

use crate::replicas::Replica;
use ist_layout::ANCHOR;

/// Returns whether the node is open.
pub fn is_open(replica: &Replica, node: u64) -> bool
    ensures exact { (t : Snapshot) → Mirrors replica.now t → (IsTrue result ↔ IsOpen t node) }
{
    if node == u64::from(ANCHOR) {
        return true;
    }
    match replica.inners.get(&node) {
        None => false,
        Some(row) => row.status == 0,
    }
}

/// Returns whether slot `i` of the node holds the word.
pub fn slot_holds(replica: &Replica, node: u64, i: u64, word: u128) -> bool
    ensures exact { (t : Snapshot) → Mirrors replica.now t
        → (IsTrue result ↔ SlotHolds t node i word) }
{
    if anchor_holds(replica, node, i, word) {
        return true;
    }
    row_holds(replica, node, i, word)
}

/// Returns whether this is the anchor's slot and it holds the word.
fn anchor_holds(replica: &Replica, node: u64, i: u64, word: u128) -> bool
    ensures exact { (t : Snapshot) → Mirrors replica.now t
        → (IsTrue result ↔ ((node ≡ anchor) × (i ≡ 0) × (t.anchor ≡ word))) }
{
    node == u64::from(ANCHOR) && i == 0 && u128::from(replica.anchor) == word
}

/// Returns whether the node is an inner row and its slot `i` holds the word.
fn row_holds(replica: &Replica, node: u64, i: u64, word: u128) -> bool
    ensures exact { (t : Snapshot) → Mirrors replica.now t
        → (IsTrue result ↔ RowHolds t node i word) }
{
    match replica.inners.get(&node) {
        None => false,
        Some(row) => holds_at(row.slots.as_slice(), i, word),
    }
}

/// Returns whether the word is at place `i` of the slots.
pub fn holds_at(slots: &[u64], i: u64, word: u128) -> bool
    ensures exact { IsTrue result ↔ (slice_get slots.now i ≡ Some word) }
{
    if i >= slots.len() as u64 {
        return false;
    }
    u128::from(slots[i as usize]) == word
}

/// Returns the number of keys with which the node is finished, if it is.
pub fn finished_keys(replica: &Replica, node: u64) -> Option<u64>
    ensures exact { (t : Snapshot) → Mirrors replica.now t
        → FindsOne (λ k. IsFinishedWith t node k) result }
{
    match replica.inners.get(&node) {
        None => None,
        Some(row) => keys_of_status(row.status),
    }
}

/// Returns the number of keys of a status that is finished.
fn keys_of_status(status: u64) -> Option<u64>
    ensures exact { FindsOne (λ k. status ≡ finished_word k) result }
{
    if status % 4 == 3 {
        Some(status / 4)
    } else {
        None
    }
}
