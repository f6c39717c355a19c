//! What a change of each kind may replace, and by what.
ghost use Rattle.std.specs.Prelude.{◌↔◌, IsTrue};
ghost use Rattle.ist_core.specs.Snapshots.{Snapshot};
ghost use Rattle.ist_core.specs.Logs.{Log, state};
ghost use Rattle.ist_core.specs.Rebuilding.{IsBuilt};
ghost use Rattle.ist_core.specs.Installing.{HasRoomFor, IsLeafOf, ComesByKey, PutsLeaf, PutsPair, Removes, Starts, Finishes};
ghost use Rattle.check_fairness.specs.Answers.{FindsOne};
ghost use Rattle.check_events.specs.Mirroring.{Mirrors};
ghost use Rattle.check_events.specs.Remembering.{KnowsSlots, KnowsWays, KnowsStarts};
ghost use Rattle.check_events.specs.Kinds.{NamesLeafOf, MayBeRebuilt, IsFinishOf, PairsWith};
ghost use Rattle.check_events.specs.Ways.{KeysStay};

use crate::climbing::{is_child_for, was_led_to};
use crate::naming::{inner_of_word, leaf_of_word, names_nothing, rebuild_of_word};
use crate::pairs::is_pair_and_leaf;
use crate::pasts::Past;
use crate::replicas::Replica;
use crate::rows::is_one_row;
use ist_core::{ChangeRow, Row};
use ist_layout::{ANCHOR, FINISH_KIND, PUT_KIND, REMOVE_KIND, START_KIND};
use ist_math::limit;

/// The word of a part of a shared root that isn't built yet.
const UNSET_WORD: u64 = 7;

/// Returns whether the change's key leads to its slot.
pub fn comes_by_key(replica: &Replica, past: &Past, change: &ChangeRow) -> bool
    ensures exact { (first : Snapshot) (log : Log) → Mirrors replica.now (state first log)
        → KnowsSlots past.now.slots first log → KnowsWays past.now.ways first log
        → KeysStay first log → (IsTrue result ↔ ComesByKey first log change.now) }
{
    if !was_led_to(replica, past, change.key, change.node) {
        return false;
    }
    is_child_for(replica, change.node, change.key, change.index)
}

/// Returns the key of the leaf at the base.
fn leaf_key(replica: &Replica, base: u64) -> Option<u64>
    ensures exact { (t : Snapshot) → Mirrors replica.now t
        → FindsOne (λ key. IsLeafOf t base key) result }
{
    match replica.leaves.get(&base) {
        None => None,
        Some(row) => Some(row.key),
    }
}

/// Returns whether the word names a leaf of the key.
fn names_leaf_of(replica: &Replica, word: u64, key: u64) -> bool
    ensures exact { (t : Snapshot) → Mirrors replica.now t
        → (IsTrue result ↔ NamesLeafOf t word key) }
{
    match leaf_of_word(word) {
        None => false,
        Some(leaf) => match leaf_key(replica, leaf) {
            None => false,
            Some(found) => found == key,
        },
    }
}

/// Returns whether the word leaves room for a leaf of the key.
fn has_room_for(replica: &Replica, key: u64, word: u64) -> bool
    ensures exact { (t : Snapshot) → Mirrors replica.now t
        → (IsTrue result ↔ HasRoomFor t key word) }
{
    if names_nothing(word) {
        return true;
    }
    names_leaf_of(replica, word, key)
}

/// Returns whether the change is a remove of the leaf of its key.
pub fn removes(replica: &Replica, change: &ChangeRow, fresh: &[Row]) -> bool
    ensures exact { (first : Snapshot) (log : Log) → Mirrors replica.now (state first log)
        → ComesByKey first log change.now
        → (IsTrue result ↔ Removes first log change.now fresh.now) }
{
    if change.kind != REMOVE_KIND {
        return false;
    }
    if change.value != 0 {
        return false;
    }
    if fresh.len() != 0 {
        return false;
    }
    if !names_nothing(change.to) {
        return false;
    }
    names_leaf_of(replica, change.from, change.key)
}

/// Returns whether the change is a put of a fresh leaf that replaces nothing or a leaf of its key.
pub fn puts_leaf(replica: &Replica, change: &ChangeRow, fresh: &[Row]) -> bool
    ensures exact { (first : Snapshot) (log : Log) → Mirrors replica.now (state first log)
        → ComesByKey first log change.now
        → (IsTrue result ↔ PutsLeaf first log change.now fresh.now) }
{
    if change.kind != PUT_KIND {
        return false;
    }
    if !has_room_for(replica, change.key, change.from) {
        return false;
    }
    match leaf_of_word(change.to) {
        None => false,
        Some(leaf) => is_one_row(fresh, leaf, &[change.key, change.value]),
    }
}

/// Returns whether the change is a put of a fresh pair row, over the leaf of another key and a
/// fresh leaf.
pub fn puts_pair(replica: &Replica, change: &ChangeRow, fresh: &[Row]) -> bool
    ensures exact { (first : Snapshot) (log : Log) → Mirrors replica.now (state first log)
        → ComesByKey first log change.now
        → (IsTrue result ↔ PutsPair first log change.now fresh.now) }
{
    if change.kind != PUT_KIND {
        return false;
    }
    match leaf_of_word(change.from) {
        None => false,
        Some(other) => match leaf_key(replica, other) {
            None => false,
            Some(key) => {
                if key == change.key {
                    return false;
                }
                pairs_with(change, fresh, other, key)
            }
        },
    }
}

/// Returns whether the change puts in a fresh pair row with a higher base than its node, over the
/// leaf at `other` with this key and a fresh leaf.
fn pairs_with(change: &ChangeRow, fresh: &[Row], other: u64, key: u64) -> bool
    ensures exact { IsTrue result ↔ PairsWith change.now fresh.now other key }
{
    match inner_of_word(change.to) {
        None => false,
        Some(pair) => {
            if pair <= change.node {
                return false;
            }
            is_pair_and_leaf(fresh, pair, change, other, key)
        }
    }
}

/// Returns whether the change is the start of a rebuild.
pub fn starts(replica: &Replica, change: &ChangeRow, fresh: &[Row]) -> bool
    ensures exact { (t : Snapshot) → Mirrors replica.now t
        → (IsTrue result ↔ Starts t change.now fresh.now) }
{
    if change.kind != START_KIND {
        return false;
    }
    if change.key != 0 {
        return false;
    }
    if change.value != 0 {
        return false;
    }
    match inner_of_word(change.from) {
        None => false,
        Some(target) => {
            if !may_be_rebuilt(replica, change.node, target) {
                return false;
            }
            match rebuild_of_word(change.to) {
                None => false,
                Some(rebuild) => is_one_row(
                    fresh,
                    rebuild,
                    &[target, change.node, change.index, UNSET_WORD, 0],
                ),
            }
        }
    }
}

/// Returns whether the inner row at the target may be rebuilt below the node.
fn may_be_rebuilt(replica: &Replica, node: u64, target: u64) -> bool
    ensures exact { (t : Snapshot) → Mirrors replica.now t
        → (IsTrue result ↔ MayBeRebuilt t node target) }
{
    match replica.inners.get(&target) {
        None => false,
        Some(row) => {
            if node == u64::from(ANCHOR) {
                return true;
            }
            row.count >= limit(row.size)
        }
    }
}

/// Returns whether the change is the finish of a rebuild.
pub fn finishes(replica: &Replica, past: &Past, change: &ChangeRow, fresh: &[Row]) -> bool
    ensures exact { (t : Snapshot) → Mirrors replica.now t → KnowsStarts past.now.started t
        → (IsTrue result ↔ Finishes t change.now fresh.now) }
{
    if change.kind != FINISH_KIND {
        return false;
    }
    if change.key != 0 {
        return false;
    }
    if change.value != 0 {
        return false;
    }
    if fresh.len() != 0 {
        return false;
    }
    match rebuild_of_word(change.from) {
        None => false,
        Some(rebuild) => is_finish_of(replica, past, change, rebuild),
    }
}

/// Returns whether the change puts the built root of the started rebuild into its slot.
fn is_finish_of(replica: &Replica, past: &Past, change: &ChangeRow, rebuild: u64) -> bool
    ensures exact { (t : Snapshot) → Mirrors replica.now t → KnowsStarts past.now.started t
        → (IsTrue result ↔ IsFinishOf t change.now rebuild) }
{
    if !past.started.contains(&rebuild) {
        return false;
    }
    match replica.rebuilds.get(&rebuild) {
        None => false,
        Some(row) => {
            if row.parent != change.node {
                return false;
            }
            if row.index != change.index {
                return false;
            }
            if row.root != change.to {
                return false;
            }
            is_built(replica, row.root)
        }
    }
}

/// Returns whether the root is set and no slot of its row is still to be set.
fn is_built(replica: &Replica, root: u64) -> bool
    ensures exact { (t : Snapshot) → Mirrors replica.now t → (IsTrue result ↔ IsBuilt t root) }
{
    if root == UNSET_WORD {
        return false;
    }
    match inner_of_word(root) {
        None => true,
        Some(base) => match replica.inners.get(&base) {
            None => true,
            Some(row) => !row.slots.as_slice().contains(&UNSET_WORD),
        },
    }
}
