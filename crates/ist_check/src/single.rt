//! Tests of single conditions.
ghost use Rattle.std.specs.Prelude.{◌≡◌, ◌≢◌, ◌↔◌, ◌+◌, ◌<◌, ◌≤◌, ℕ, IsTrue, Some, slice_get};
ghost use Rattle.ist_core.specs.Snapshots.{Snapshot};
ghost use Rattle.ist_core.specs.Logs.{Log};
ghost use Rattle.ist_core.specs.References.{ChangeAt, InnerAt, ref_of, unset_word};
ghost use Rattle.ist_core.specs.Rebuilding.{IsStarted};
ghost use Rattle.ist_core.specs.Shapes.{share_from};
ghost use Rattle.ist_core.specs.Statuses.{undecided};
ghost use Rattle.check_events.specs.Mirroring.{Mirrors, RowHolds};
ghost use Rattle.check_events.specs.Remembering.{KnowsStarts, KnowsUpdates, IsUncounted};
ghost use Rattle.ist_check.specs.Published.{HasChangeRow, HasInner, HasRebuild, Any, IsFinishedSo};

use check_events::{Past, Replica, finished_keys, holds_at, inner_of_word};
use ist_layout::{Ref, UNDECIDED};
use ist_math::SHARE_FROM;

/// The word of a part of a shared root that isn't built yet.
const UNSET_WORD: u64 = 7;

/// Returns whether the caller has entered.
pub(crate) fn is_known(replica: &Replica, caller: u64) -> bool
    ensures exact { (t : Snapshot) → Mirrors replica.now t
        → (IsTrue result ↔ (caller < t.callers)) }
{
    caller < replica.callers
}

/// Returns whether the number is the number of callers before it.
pub(crate) fn is_next_caller(replica: &Replica, caller: u64) -> bool
    ensures exact { (t : Snapshot) → Mirrors replica.now t
        → (IsTrue result ↔ (caller ≡ t.callers)) }
{
    caller == replica.callers
}

/// Returns whether the base is the first free word.
pub(crate) fn is_next(replica: &Replica, base: u64) -> bool
    ensures exact { (t : Snapshot) → Mirrors replica.now t → (IsTrue result ↔ (base ≡ t.next)) }
{
    base == replica.next
}

/// Returns whether there is room for a row of this size.
pub(crate) fn has_room(replica: &Replica, size: u64) -> bool
    ensures exact { (t : Snapshot) → Mirrors replica.now t
        → (IsTrue result ↔ (t.next + size ≤ t.words)) }
{
    replica.next <= replica.words && size <= replica.words - replica.next
}

/// Returns whether a change is published at the base.
pub(crate) fn has_change(replica: &Replica, base: u64) -> bool
    ensures exact { (t : Snapshot) → Mirrors replica.now t
        → (IsTrue result ↔ HasChangeRow t base Any) }
{
    match replica.changes.get(&base) {
        None => false,
        Some(_) => true,
    }
}

/// Returns whether a change at the base is undecided.
pub(crate) fn is_undecided(replica: &Replica, base: u64) -> bool
    ensures exact { (t : Snapshot) → Mirrors replica.now t
        → (IsTrue result ↔ HasChangeRow t base (λ change. change.decision ≡ undecided)) }
{
    match replica.changes.get(&base) {
        None => false,
        Some(row) => row.decision == UNDECIDED,
    }
}

/// Returns whether a change at the base is decided.
pub(crate) fn is_decided(replica: &Replica, base: u64) -> bool
    ensures exact { (t : Snapshot) → Mirrors replica.now t
        → (IsTrue result ↔ HasChangeRow t base (λ change. change.decision ≢ undecided)) }
{
    match replica.changes.get(&base) {
        None => false,
        Some(row) => row.decision != UNDECIDED,
    }
}

/// Returns whether an inner row is published at the base.
pub(crate) fn has_inner(replica: &Replica, base: u64) -> bool
    ensures exact { (t : Snapshot) → Mirrors replica.now t
        → (IsTrue result ↔ HasInner t base Any) }
{
    match replica.inners.get(&base) {
        None => false,
        Some(_) => true,
    }
}

/// Returns whether an inner row at the base has this status.
pub(crate) fn has_status(replica: &Replica, base: u64, status: u64) -> bool
    ensures exact { (t : Snapshot) → Mirrors replica.now t
        → (IsTrue result ↔ HasInner t base (λ row. row.status ≡ status)) }
{
    match replica.inners.get(&base) {
        None => false,
        Some(row) => row.status == status,
    }
}

/// Returns whether slot `i` of an inner row at the base holds the word.
pub(crate) fn has_in_slot(replica: &Replica, base: u64, i: u64, word: u64) -> bool
    ensures exact { (t : Snapshot) → Mirrors replica.now t
        → (IsTrue result ↔ HasInner t base (λ row. slice_get row.slots i ≡ Some word)) }
{
    match replica.inners.get(&base) {
        None => false,
        Some(row) => holds_at(row.slots.as_slice(), i, u128::from(word)),
    }
}

/// Returns whether the word doesn't name a change.
pub(crate) fn names_no_change(word: u64) -> bool
    ensures exact { IsTrue result ↔ ((base : ℕ) → ref_of word ≢ Some (ChangeAt base)) }
{
    match Ref::from_word(word) {
        Some(Ref::Change { .. }) => false,
        _ => true,
    }
}

/// Returns whether a put or remove of the caller was decided yes last, and not counted at the node
/// since.
pub(crate) fn is_uncounted(past: &Past, caller: u64, node: u64) -> bool
    ensures exact { (t : Snapshot) (log : Log) → KnowsUpdates past.now.updates t log
        → (IsTrue result ↔ ((base : ℕ) × IsUncounted t log caller node base)) }
{
    match past.updates.get(&caller) {
        None => false,
        Some(last) => !last.counted.contains(&node),
    }
}

/// Returns whether a rebuild is published at the base.
pub(crate) fn has_rebuild(replica: &Replica, base: u64) -> bool
    ensures exact { (t : Snapshot) → Mirrors replica.now t
        → (IsTrue result ↔ HasRebuild t base Any) }
{
    match replica.rebuilds.get(&base) {
        None => false,
        Some(_) => true,
    }
}

/// Returns whether the rebuild is started.
pub(crate) fn is_started(past: &Past, rebuild: u64) -> bool
    ensures exact { (t : Snapshot) → KnowsStarts past.now.started t
        → (IsTrue result ↔ IsStarted t rebuild) }
{
    past.started.contains(&rebuild)
}

/// Returns whether a rebuild at the base has no root.
pub(crate) fn is_rootless(replica: &Replica, base: u64) -> bool
    ensures exact { (t : Snapshot) → Mirrors replica.now t
        → (IsTrue result ↔ HasRebuild t base (λ row. row.root ≡ unset_word)) }
{
    match replica.rebuilds.get(&base) {
        None => false,
        Some(row) => row.root == UNSET_WORD,
    }
}

/// Returns whether a rebuild at the base has a root.
pub(crate) fn is_rooted(replica: &Replica, base: u64) -> bool
    ensures exact { (t : Snapshot) → Mirrors replica.now t
        → (IsTrue result ↔ HasRebuild t base (λ row. row.root ≢ unset_word)) }
{
    match replica.rebuilds.get(&base) {
        None => false,
        Some(row) => row.root != UNSET_WORD,
    }
}

/// Returns whether the target of a rebuild at the base is finished.
pub(crate) fn is_finished(replica: &Replica, base: u64) -> bool
    ensures exact { (t : Snapshot) → Mirrors replica.now t
        → (IsTrue result ↔ HasRebuild t base (λ row. IsFinishedSo t row Any)) }
{
    match replica.rebuilds.get(&base) {
        None => false,
        Some(row) => match finished_keys(replica, row.target) {
            None => false,
            Some(_) => true,
        },
    }
}

/// Returns whether the target of a rebuild at the base is finished with enough keys that its root
/// is shared.
pub(crate) fn is_shared(replica: &Replica, base: u64) -> bool
    ensures exact { (t : Snapshot) → Mirrors replica.now t
        → (IsTrue result ↔ HasRebuild t base (λ row. IsFinishedSo t row (λ k. share_from ≤ k))) }
{
    match replica.rebuilds.get(&base) {
        None => false,
        Some(row) => match finished_keys(replica, row.target) {
            None => false,
            Some(keys) => keys >= SHARE_FROM,
        },
    }
}

/// Returns whether the part is the draw word of a rebuild at the base.
pub(crate) fn is_next_part(replica: &Replica, base: u64, part: u64) -> bool
    ensures exact { (t : Snapshot) → Mirrors replica.now t
        → (IsTrue result ↔ HasRebuild t base (λ row. part ≡ row.draw)) }
{
    match replica.rebuilds.get(&base) {
        None => false,
        Some(row) => part == row.draw,
    }
}

/// Returns whether the root of a rebuild at the base is an inner row's word.
pub(crate) fn has_top(replica: &Replica, base: u64) -> bool
    ensures exact { (t : Snapshot) → Mirrors replica.now t
        → (IsTrue result ↔ HasRebuild t base
        (λ row. (root : ℕ) × (ref_of row.root ≡ Some (InnerAt root)))) }
{
    match replica.rebuilds.get(&base) {
        None => false,
        Some(row) => match inner_of_word(row.root) {
            None => false,
            Some(_) => true,
        },
    }
}

/// Returns whether slot `i` of the root's row of a rebuild at the base is Unset.
pub(crate) fn is_free_in_top(replica: &Replica, base: u64, i: u64) -> bool
    ensures exact { (t : Snapshot) → Mirrors replica.now t
        → (IsTrue result ↔ HasRebuild t base (λ row. (root : ℕ)
        × (ref_of row.root ≡ Some (InnerAt root)) × RowHolds t root i unset_word)) }
{
    match replica.rebuilds.get(&base) {
        None => false,
        Some(row) => match inner_of_word(row.root) {
            None => false,
            Some(root) => row_holds(replica, root, i, UNSET_WORD),
        },
    }
}

/// Returns whether there is an inner row at the base whose slot `i` holds the word.
fn row_holds(replica: &Replica, base: u64, i: u64, word: u64) -> bool
    ensures exact { (t : Snapshot) → Mirrors replica.now t
        → (IsTrue result ↔ RowHolds t base i word) }
{
    match replica.inners.get(&base) {
        None => false,
        Some(row) => holds_at(row.slots.as_slice(), i, u128::from(word)),
    }
}
