//! Whether held rows may be given up.
ghost use Rattle.std.specs.Prelude.{◌≡◌, ◌↔◌, ℕ, List, IsTrue, IfOk, Some};
ghost use Rattle.std.specs.Option.{option_map};
ghost use Rattle.std.specs.Ordering.{nat_cmp};
ghost use Rattle.std.specs.BTreeMap as tree;
ghost use Rattle.ist_core.specs.Elements.{Distinct};
ghost use Rattle.ist_core.specs.Snapshots.{Snapshot};
ghost use Rattle.ist_core.specs.Logs.{Log};
ghost use Rattle.ist_core.specs.Building.{CanLose, LosesPair, LosesBuild, HoldsSizes, IsBeaten};
ghost use Rattle.check_builds.specs.Losing.{HasRowAbove, IsTooLate};
ghost use Rattle.check_events.specs.Mirroring.{Mirrors};
ghost use Rattle.check_events.specs.Remembering.{KnowsBuilds, seen_builds};
ghost use Rattle.check_fairness.specs.Knowing.{KnowsLists};

use check_events::{BuildTable, Past, Replica, holds_row, size_at};
use check_fairness::is_listed;
use ist_layout::PAIR_WORDS;
use std::alloc::{AllocError, Global};

/// Returns whether the caller may give up the rows at these bases.
pub fn can_lose(
    alloc: Global,
    replica: &Replica,
    past: &Past,
    caller: u64,
    bases: &[u64],
) -> Result<bool, AllocError>
    ensures exact { IfOk result (λ may. (t : Snapshot) (log : Log) → Mirrors replica.now t
        → KnowsLists past.now.building t
        → KnowsBuilds past.now.builds log
        → (IsTrue may ↔ CanLose t log caller bases.now)) }
{
    if caller >= replica.callers {
        return Ok(false);
    }
    if loses_pair(replica, caller, bases) {
        return Ok(true);
    }
    loses_build(alloc, replica, past, caller, bases)
}

/// Returns whether the caller holds the rows of a build at these bases, and another caller has put
/// such a build in place meanwhile.
fn loses_build(
    alloc: Global,
    replica: &Replica,
    past: &Past,
    caller: u64,
    bases: &[u64],
) -> Result<bool, AllocError>
    ensures exact { IfOk result (λ may. (t : Snapshot) (log : Log) → Mirrors replica.now t
        → KnowsLists past.now.building t
        → KnowsBuilds past.now.builds log
        → (IsTrue may ↔ LosesBuild t log caller bases.now)) }
{
    match sizes_at(alloc, replica, caller, bases)? {
        None => Ok(false),
        Some(sizes) => {
            if !is_too_late(past, caller, sizes.as_slice()) {
                return Ok(false);
            }
            Ok(are_distinct(bases))
        }
    }
}

/// Returns the sizes of the rows at these bases, if the caller holds each of them.
fn sizes_at(
    alloc: Global,
    replica: &Replica,
    caller: u64,
    bases: &[u64],
) -> Result<Option<Vec<u64>>, AllocError>
    ensures exact { IfOk result (λ found. (t : Snapshot) → Mirrors replica.now t
        → (sizes : List ℕ) → (option_map (λ v. v.items) found ≡ Some sizes
        ↔ HoldsSizes t caller bases.now sizes)) }
{
    let mut sizes = Vec::new(alloc);
    for base in bases {
        match size_at(replica, caller, *base) {
            None => return Ok(None),
            Some(size) => sizes.push(size)?,
        }
    }
    Ok(Some(sizes))
}

/// Returns whether this is a building list, and another caller put such a build in place after the
/// caller's last one.
fn is_too_late(past: &Past, caller: u64, sizes: &[u64]) -> bool
    ensures exact { (t : Snapshot) (log : Log)
        → KnowsLists past.now.building t
        → KnowsBuilds past.now.builds log
        → (IsTrue result ↔ IsTooLate t log caller sizes.now) }
{
    if !is_beaten(&past.builds, caller, sizes) {
        return false;
    }
    is_listed(past.building.lists.as_slice(), sizes)
}

/// Returns whether this is one held pair row, below a published inner row.
fn loses_pair(replica: &Replica, caller: u64, bases: &[u64]) -> bool
    ensures exact { (t : Snapshot) → Mirrors replica.now t
        → (IsTrue result ↔ LosesPair t caller bases.now) }
{
    match bases {
        [pair] => {
            if !holds_row(replica, caller, *pair, PAIR_WORDS) {
                return false;
            }
            has_row_above(replica, *pair)
        }
        _ => false,
    }
}

/// Returns whether an inner row with a base above this one is published.
fn has_row_above(replica: &Replica, base: u64) -> bool
    ensures exact { (t : Snapshot) → Mirrors replica.now t
        → (IsTrue result ↔ HasRowAbove t base) }
{
    match replica.inners.last_key_value() {
        None => false,
        Some((node, _)) => *node > base,
    }
}

/// Returns whether another caller put a build of these sizes in place after the caller's last one.
fn is_beaten(builds: &BuildTable, caller: u64, sizes: &[u64]) -> bool
    ensures exact { (log : Log) → KnowsBuilds builds.now log
        → (IsTrue result ↔ IsBeaten caller sizes.now log) }
{
    match builds.last.get(sizes) {
        None => false,
        Some(at) => seen_of(builds, caller) < *at,
    }
}

/// Returns how many builds there were up to the caller's last Root, Place or Lose.
fn seen_of(builds: &BuildTable, caller: u64) -> u64
    ensures value { result ≡ seen_builds (tree.get nat_cmp builds.now.since caller) }
{
    match builds.since.get(&caller) {
        None => 0,
        Some(seen) => *seen,
    }
}

/// Returns whether no base occurs twice in the list.
fn are_distinct(bases: &[u64]) -> bool
    ensures exact { IsTrue result ↔ Distinct bases.now }
{
    match bases {
        [] => true,
        [base, more @ ..] => {
            if more.contains(base) {
                return false;
            }
            are_distinct(more)
        }
    }
}
