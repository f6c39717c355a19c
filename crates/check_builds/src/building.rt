//! Whether a rebuild may get its root, and whether a part of a shared root may be placed.
ghost use Rattle.std.specs.Prelude.{◌↔◌, IsTrue, IfOk};
ghost use Rattle.ist_core.specs.References.{unset_word};
ghost use Rattle.ist_core.specs.Elements.{Among, Distinct};
ghost use Rattle.ist_core.specs.Snapshots.{Snapshot, bases_of};
ghost use Rattle.ist_core.specs.Building.{CanRoot, CanPlace};
ghost use Rattle.check_events.specs.Mirroring.{Mirrors, RowHolds};
ghost use Rattle.check_events.specs.Remembering.{KnowsStarts, KnowsLeaves};
ghost use Rattle.check_builds.specs.HeldRows.{HeldAreFree};
ghost use Rattle.check_builds.specs.Publishing.{MayPublish, HasRootOf, HasPart, IsPartOf};

use crate::ideals::nth_part;
use crate::leaves::add_leaves;
use crate::roots::{is_ideal, is_root};
use check_events::{FoundLeaf, Past, Replica, finished_keys, holds_at, holds_rows, inner_of_word};
use check_fairness::degree_of;
use ist_core::Row;
use std::alloc::{AllocError, Global};

/// The word of a part of a shared root that isn't built yet.
const UNSET_WORD: u64 = 7;

/// Returns whether the rebuild may get this root, with these rows.
pub fn can_root(
    alloc: Global,
    replica: &Replica,
    past: &Past,
    caller: u64,
    rebuild: u64,
    word: u64,
    rows: &[Row],
) -> Result<bool, AllocError>
    ensures exact { IfOk result (λ may. (t : Snapshot) → Mirrors replica.now t
        → KnowsStarts past.now.started t → HeldAreFree t
        → (IsTrue may ↔ CanRoot t caller rebuild word rows.now)) }
{
    if caller >= replica.callers {
        return Ok(false);
    }
    if !may_publish(replica, caller, rows) {
        return Ok(false);
    }
    match replica.rebuilds.get(&rebuild) {
        None => Ok(false),
        Some(row) => {
            if row.root != UNSET_WORD {
                return Ok(false);
            }
            if !past.started.contains(&rebuild) {
                return Ok(false);
            }
            match finished_keys(replica, row.target) {
                None => Ok(false),
                Some(k) => has_root(alloc, replica, word, k, row.target, rows),
            }
        }
    }
}

/// Returns whether the caller holds these rows, each once.
fn may_publish(replica: &Replica, caller: u64, rows: &[Row]) -> bool
    ensures exact { (t : Snapshot) → Mirrors replica.now t
        → (IsTrue result ↔ MayPublish t caller rows.now) }
{
    if !holds_rows(replica, caller, rows) {
        return false;
    }
    are_apart(rows)
}

/// Returns whether no two of the rows have the same base.
fn are_apart(rows: &[Row]) -> bool
    ensures exact { IsTrue result ↔ Distinct (bases_of rows.now) }
{
    match rows {
        [] => true,
        [row, more @ ..] => {
            if lies_at(more, row.base) {
                return false;
            }
            are_apart(more)
        }
    }
}

/// Returns whether one of the rows has this base.
fn lies_at(rows: &[Row], base: u64) -> bool
    ensures exact { IsTrue result ↔ Among base (bases_of rows.now) }
{
    match rows {
        [] => false,
        [row, more @ ..] => {
            if base == row.base {
                return true;
            }
            lies_at(more, base)
        }
    }
}

/// Returns whether the word and the rows are the root over the leaves of a target with `k` keys.
fn has_root(
    alloc: Global,
    replica: &Replica,
    word: u64,
    k: u64,
    target: u64,
    rows: &[Row],
) -> Result<bool, AllocError>
    ensures exact { IfOk result (λ may. (t : Snapshot) → Mirrors replica.now t
        → (IsTrue may ↔ HasRootOf t word k target rows.now)) }
{
    let mut leaves = Vec::new(alloc);
    if !add_leaves(alloc, replica, target, &mut leaves)? {
        return Ok(false);
    }
    Ok(is_root(word, k, leaves.as_slice(), target, rows))
}

/// Returns whether the slot of the rebuild's root may get this word, with these rows.
pub fn can_place(
    alloc: Global,
    replica: &Replica,
    past: &Past,
    caller: u64,
    rebuild: u64,
    i: u64,
    word: u64,
    rows: &[Row],
) -> Result<bool, AllocError>
    ensures exact { IfOk result (λ may. (t : Snapshot) → Mirrors replica.now t
        → HeldAreFree t → KnowsLeaves past.now.leaves t
        → (IsTrue may ↔ CanPlace t caller rebuild i word rows.now)) }
{
    if caller >= replica.callers {
        return Ok(false);
    }
    if !may_publish(replica, caller, rows) {
        return Ok(false);
    }
    match replica.rebuilds.get(&rebuild) {
        None => Ok(false),
        Some(row) => match inner_of_word(row.root) {
            None => Ok(false),
            Some(root) => {
                if !is_free(replica, root, i) {
                    return Ok(false);
                }
                has_part(alloc, replica, past, word, i, row.target, root, rows)
            }
        },
    }
}

/// Returns whether slot `i` of an inner row at the base is Unset.
fn is_free(replica: &Replica, base: u64, i: u64) -> bool
    ensures exact { (t : Snapshot) → Mirrors replica.now t
        → (IsTrue result ↔ RowHolds t base i unset_word) }
{
    match replica.inners.get(&base) {
        None => false,
        Some(row) => holds_at(row.slots.as_slice(), i, u128::from(UNSET_WORD)),
    }
}

/// Returns whether the word and the rows are the ideal subtree over part `i` of the leaves of the
/// target, with bases above this one.
fn has_part(
    alloc: Global,
    replica: &Replica,
    past: &Past,
    word: u64,
    i: u64,
    target: u64,
    above: u64,
    rows: &[Row],
) -> Result<bool, AllocError>
    ensures exact { IfOk result (λ may. (t : Snapshot) → Mirrors replica.now t
        → KnowsLeaves past.now.leaves t
        → (IsTrue may ↔ HasPart t word i target above rows.now)) }
{
    match past.leaves.get(&target) {
        Some(leaves) => Ok(is_part(word, i, leaves.as_slice(), above, rows)),
        None => {
            let mut leaves = Vec::new(alloc);
            if !add_leaves(alloc, replica, target, &mut leaves)? {
                return Ok(false);
            }
            Ok(is_part(word, i, leaves.as_slice(), above, rows))
        }
    }
}

/// Returns whether the word and the rows are the ideal subtree over part `i` of these leaves, with
/// bases above this one.
fn is_part(word: u64, i: u64, leaves: &[FoundLeaf], above: u64, rows: &[Row]) -> bool
    ensures exact { IsTrue result ↔ IsPartOf word i leaves.now above rows.now }
{
    let n = leaves.len() as u64;
    match nth_part(n, 0, degree_of(n), leaves, i) {
        None => false,
        Some(part) => is_ideal(word, part, above, rows),
    }
}
