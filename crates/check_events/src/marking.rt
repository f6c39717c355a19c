//! Whether a node may be marked, whether a slot of it may be passed, and whether it may be
//! finished.
ghost use Rattle.std.specs.Prelude.{◌≡◌, ◌↔◌, ◌+◌, ◌<◌, ◌^◌, ℕ, IsTrue, Some, length};
ghost use Rattle.ist_core.specs.References.{ChangeAt, ref_of};
ghost use Rattle.ist_core.specs.Snapshots.{Snapshot};
ghost use Rattle.ist_core.specs.Logs.{Log};
ghost use Rattle.ist_core.specs.Marking.{CanMark, CanPass, CanFinish, CountsFor, ArePassed};
ghost use Rattle.check_fairness.specs.Answers.{FindsOne};
ghost use Rattle.check_events.specs.Mirroring.{Mirrors};
ghost use Rattle.check_events.specs.Passing.{PassCounts, TargetFinishedWith};
ghost use Rattle.check_events.specs.Remembering.{KnowsCalls, KnowsPasses};

use crate::nodes::{finished_keys, holds_at};
use crate::pasts::{Past, pair_key};
use crate::replicas::Replica;
use ist_layout::Ref;

/// The word of a part of a shared root that isn't built yet.
const UNSET_WORD: u64 = 7;

/// The word of an open node.
const OPEN_WORD: u64 = 0;

/// The word of a marked node that isn't finished.
const MARKED_WORD: u64 = 1;

/// Returns whether the node may be marked.
pub fn can_mark(replica: &Replica, past: &Past, caller: u64, node: u64) -> bool
    ensures exact { (t : Snapshot) (log : Log) → Mirrors replica.now t
        → KnowsCalls past.now.called t log
        → (IsTrue result ↔ CanMark t log caller node) }
{
    if caller >= replica.callers {
        return false;
    }
    match replica.inners.get(&node) {
        None => false,
        Some(row) => {
            if row.status != OPEN_WORD {
                return false;
            }
            past.called.contains(&node)
        }
    }
}

/// Returns whether slot `i` of the node may be passed with the word.
pub fn can_pass(replica: &Replica, caller: u64, node: u64, i: u64, word: u64) -> bool
    ensures exact { (t : Snapshot) → Mirrors replica.now t
        → (IsTrue result ↔ CanPass t caller node i word) }
{
    if caller >= replica.callers {
        return false;
    }
    if word == UNSET_WORD {
        return false;
    }
    if names_change(word) {
        return false;
    }
    match replica.inners.get(&node) {
        None => false,
        Some(row) => {
            if row.status != MARKED_WORD {
                return false;
            }
            holds_at(row.slots.as_slice(), i, u128::from(word))
        }
    }
}

/// Returns whether the word names a change.
fn names_change(word: u64) -> bool
    ensures exact { IsTrue result ↔ ((base : ℕ) × (ref_of word ≡ Some (ChangeAt base))) }
{
    match Ref::from_word(word) {
        Some(Ref::Change { .. }) => true,
        _ => false,
    }
}

/// Returns whether the node may be finished with `k` keys.
pub fn can_finish(replica: &Replica, past: &Past, caller: u64, node: u64, k: u64) -> bool
    ensures exact { (t : Snapshot) (log : Log) → Mirrors replica.now t
        → KnowsPasses past.now.passed log
        → (IsTrue result ↔ CanFinish t log caller node k) }
{
    if caller >= replica.callers {
        return false;
    }
    match replica.inners.get(&node) {
        None => false,
        Some(row) => {
            if row.status != MARKED_WORD {
                return false;
            }
            are_passed(replica, past, node, 0, row.slots.as_slice(), k)
        }
    }
}

/// Returns whether each of these slots of the node was passed, from slot `i` on, and the passed
/// words count for `k` keys.
fn are_passed(replica: &Replica, past: &Past, node: u64, i: u64, slots: &[u64], k: u64) -> bool
    requires places { i + length slots.now < 2 ^ 64 }
    ensures exact { (t : Snapshot) (log : Log) → Mirrors replica.now t
        → KnowsPasses past.now.passed log
        → (IsTrue result ↔ ArePassed t log node i slots.now k) }
{
    match slots {
        [] => k == 0,
        [_, more @ ..] => match passed_keys(replica, past, node, i) {
            None => false,
            Some(here) => {
                if here > k {
                    return false;
                }
                are_passed(replica, past, node, i + 1, more, k - here)
            }
        },
    }
}

/// Returns how many keys the word counts for with which slot `i` of the node was passed.
fn passed_keys(replica: &Replica, past: &Past, node: u64, i: u64) -> Option<u64>
    ensures exact { (t : Snapshot) (log : Log) → Mirrors replica.now t
        → KnowsPasses past.now.passed log
        → FindsOne (λ k. PassCounts t log node i k) result }
{
    match past.passed.get(&pair_key(node, i)) {
        None => None,
        Some(word) => keys_of_word(replica, *word),
    }
}

/// Returns how many keys a passed word counts for.
fn keys_of_word(replica: &Replica, word: u64) -> Option<u64>
    ensures exact { (t : Snapshot) → Mirrors replica.now t
        → FindsOne (λ k. CountsFor t (ref_of word) k) result }
{
    match Ref::from_word(word) {
        Some(Ref::Empty) => Some(0),
        Some(Ref::Leaf { .. }) => Some(1),
        Some(Ref::Inner { base }) => finished_keys(replica, u64::from(base)),
        Some(Ref::Rebuild { base }) => target_keys(replica, u64::from(base)),
        _ => None,
    }
}

/// Returns the number of keys with which the target of the rebuild is finished, if it is.
pub fn target_keys(replica: &Replica, rebuild: u64) -> Option<u64>
    ensures exact { (t : Snapshot) → Mirrors replica.now t
        → FindsOne (λ k. TargetFinishedWith t rebuild k) result }
{
    match replica.rebuilds.get(&rebuild) {
        None => None,
        Some(row) => finished_keys(replica, row.target),
    }
}
