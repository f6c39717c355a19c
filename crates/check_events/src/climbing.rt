//! Which nodes were linked, and by which way from the anchor.
ghost use Rattle.std.specs.Prelude.{◌≡◌, ◌↔◌, ◌<◌, IsTrue, IfSome};
ghost use Rattle.ist_core.specs.Arithmetic.{child_count};
ghost use Rattle.ist_core.specs.Snapshots.{Snapshot};
ghost use Rattle.ist_core.specs.Logs.{Log, state};
ghost use Rattle.ist_core.specs.Slots.{IsChildFor};
ghost use Rattle.ist_core.specs.Links.{WasLinked, WasOnChain, WasLedTo};
ghost use Rattle.check_events.specs.Mirroring.{Mirrors, HasChildFor};
ghost use Rattle.check_events.specs.Remembering.{SlotsRise, KnowsSlots, KnowsWays};
ghost use Rattle.check_events.specs.Ways.{Climbs, LeadsUp, IsJump, KeysStay};

use crate::pasts::Past;
use crate::replicas::Replica;
use ist_layout::ANCHOR;

/// Returns whether the node is linked or was: the anchor always, and each other node whose slot is
/// remembered.
pub fn was_linked(past: &Past, node: u64) -> bool
    ensures exact { (first : Snapshot) (log : Log) → KnowsSlots past.now.slots first log
        → (IsTrue result ↔ WasLinked first log node) }
{
    if node == u64::from(ANCHOR) {
        return true;
    }
    past.slots.contains_key(&node)
}

/// Returns whether the row was on the chain of the node when the node was linked.
pub fn was_on_chain(past: &Past, node: u64, row: u64) -> bool
    ensures exact { (first : Snapshot) (log : Log) → KnowsSlots past.now.slots first log
        → KnowsWays past.now.ways first log
        → (IsTrue result ↔ WasOnChain first log node row) }
{
    let mut at = node;
    while at > row {
        match next_up(past, at, row) {
            None => return false,
            Some(next) => at = next,
        }
    }
    if at != row {
        return false;
    }
    past.slots.contains_key(&row)
}

/// Returns a place further up the way from the node, but not past the row if the row is on that
/// way: where the node's way jumps to if that isn't too far, and otherwise its slot's node.
fn next_up(past: &Past, node: u64, row: u64) -> Option<u64>
    ensures less { IfSome result (λ next. next < node) }
    ensures exact { (first : Snapshot) (log : Log) → KnowsSlots past.now.slots first log
        → KnowsWays past.now.ways first log → row < node
        → LeadsUp past.now.slots node row result }
{
    match past.slots.get(&node) {
        None => None,
        Some(slot) => {
            let jump = jump_of(past, node);
            if row <= jump && jump < node {
                return Some(jump);
            }
            if slot.node >= node {
                return None;
            }
            Some(slot.node)
        }
    }
}

/// Returns where the node's way jumps to, or 0 if its way isn't known.
fn jump_of(past: &Past, node: u64) -> u64
    ensures exact { (first : Snapshot) (log : Log) → KnowsWays past.now.ways first log
        → IsJump first log node result }
{
    match past.ways.get(&node) {
        None => 0,
        Some(way) => way.jump,
    }
}

/// Returns whether each row on the node's chain led on by the child for the key when the node was
/// linked.
pub fn was_led_to(replica: &Replica, past: &Past, key: u64, node: u64) -> bool
    ensures exact { (first : Snapshot) (log : Log) → Mirrors replica.now (state first log)
        → KnowsSlots past.now.slots first log → KnowsWays past.now.ways first log
        → KeysStay first log → (IsTrue result ↔ WasLedTo first log key node) }
{
    match past.ways.get(&node) {
        None => climbs(replica, past, key, node),
        Some(way) => way.low <= key && key <= way.high,
    }
}

/// Returns whether the way up from the node reaches the anchor by slots of the children for the
/// key.
fn climbs(replica: &Replica, past: &Past, key: u64, node: u64) -> bool
    ensures exact { (t : Snapshot) → Mirrors replica.now t → SlotsRise past.now.slots
        → (IsTrue result ↔ Climbs past.now.slots t key node) }
{
    let mut at = node;
    while at != u64::from(ANCHOR) {
        match past.slots.get(&at) {
            None => return false,
            Some(slot) => {
                if slot.node >= at {
                    return false;
                }
                if !is_child_for(replica, slot.node, key, slot.index) {
                    return false;
                }
                at = slot.node;
            }
        }
    }
    true
}

/// Returns whether slot `i` of the node is the slot of the child for the key.
pub fn is_child_for(replica: &Replica, node: u64, key: u64, i: u64) -> bool
    ensures exact { (t : Snapshot) → Mirrors replica.now t
        → (IsTrue result ↔ IsChildFor t node key i) }
{
    if node == u64::from(ANCHOR) && i == 0 {
        return true;
    }
    row_has_child_for(replica, node, key, i)
}

/// Returns whether the node is an inner row and its child `i` is the one for the key.
fn row_has_child_for(replica: &Replica, node: u64, key: u64, i: u64) -> bool
    ensures exact { (t : Snapshot) → Mirrors replica.now t
        → (IsTrue result ↔ HasChildFor t node key i) }
{
    match replica.inners.get(&node) {
        None => false,
        Some(row) => keys_up_to(row.keys.as_slice(), key) == i,
    }
}

/// Returns how many of the keys are at most `x`.
fn keys_up_to(keys: &[u64], x: u64) -> u64
    ensures value { result ≡ child_count keys.now x }
{
    keys.iter().filter(|key| **key <= x).count() as u64
}
