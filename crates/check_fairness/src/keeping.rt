//! What is kept of the readings of the sizes that callers hold, so that they aren't read again for
//! one more row, or after the last rows were given up.
//!
//! The readings are made with room for every row, so that no list is ever left for another, and
//! with the building lists that existed when they were begun. Such a reading is also one with less
//! room and with more lists. If none goes on, all sizes must be read again.
ghost use Rattle.std.specs.Prelude.{◌≡◌, ◌↔◌, ◌++◌, ◌∷◌, ◌-◌, ◌<◌, ◌≤◌, ◌^◌, ℕ, IsTrue, IfOk, OnOk, List, [], map, take, length, get_or, slice_index_or};
ghost use Rattle.ist_core.specs.Snapshots.{Snapshot};
ghost use Rattle.check_fairness.specs.Keeping.{IsKept, KnowsReadings, GoOnFrom, AreKeptIn, AreKept};
ghost use Rattle.check_fairness.specs.Knowing.{KnowsLists, KeepsSizes};

use crate::lists::BuildingLists;
use crate::readings::{SizeReading, first_readings, read_further, read_on};
use crate::spares::are_all_spare;
use std::alloc::{AllocError, Global};
use std::collections::BTreeMap;

/// What the readings of some sizes leave.
#[derive(Drop)]
pub struct KeptReadings {
    /// How many building lists there were.
    pub lists: usize,
    /// The sizes.
    pub sizes: Vec<u64>,
    /// What is left before each of them, and after the last.
    pub left: Vec<Vec<SizeReading>>,
}

/// Returns how many sizes at the front both lists share.
fn common_len(xs: &[u64], ys: &[u64]) -> usize
    ensures within { (result ≤ length xs.now) × (result ≤ length ys.now) }
    ensures same { take result xs.now ≡ take result ys.now }
    ensures most { result < length xs.now → result < length ys.now
        → ¬ (get_or xs.now result 0 ≡ get_or ys.now result 0) }
{
    let len = xs.len().min(ys.len());
    for n in 0..len {
        if xs[n] != ys[n] {
            return n;
        }
    }
    len
}

/// Returns what is left after the first `n` sizes, or nothing if fewer are kept.
fn left_at(left: &[Vec<SizeReading>], n: usize) -> &[SizeReading]
    ensures value { result.now ≡ slice_index_or (map (λ v. v.items) left.now) n [] }
{
    match left.get(n) {
        None => &[],
        Some(readings) => readings.as_slice(),
    }
}

/// Returns the first `n` of the lists.
fn first_lists(lists: &[Vec<u64>], n: usize) -> &[Vec<u64>]
    ensures value { n ≤ length lists.now → result.now ≡ take n lists.now }
{
    if n > lists.len() {
        return lists;
    }
    &lists[..n]
}

/// Returns whether readings are kept for the caller, and the sizes can be read with the lists that
/// existed then, if there is room for every row.
pub(crate) fn goes_on(
    alloc: Global,
    building: &BuildingLists,
    caller: u64,
    sizes: &[u64],
) -> Result<bool, AllocError>
    ensures exact { let lists = map (λ v. v.items) building.now.lists.items in
        IfOk result (λ goes. KnowsReadings building.now.kept lists
        → (IsTrue goes ↔ GoOnFrom building.now.kept lists caller sizes.now)) }
{
    match building.kept.get(&caller) {
        None => Ok(false),
        Some(kept) => {
            let n = common_len(kept.sizes.as_slice(), sizes);
            let lists = first_lists(building.lists.as_slice(), kept.lists);
            let left = left_at(kept.left.as_slice(), n);
            let readings = read_further(alloc, lists, u64::MAX, left, &sizes[n..])?;
            Ok(!readings.is_empty())
        }
    }
}

/// Keeps the readings of the sizes that a caller now holds, unless there is only one, or all are
/// sizes of spare rows.
pub fn keep_readings(
    alloc: Global,
    building: &mut BuildingLists,
    caller: u64,
    sizes: &[u64],
) -> Result<(), AllocError>
    ensures exact { OnOk result ((t : Snapshot) → KnowsLists building.old t
        → KnowsLists building.new t) }
    ensures kept { let lists = map (λ v. v.items) building.old.lists.items in
        OnOk result (KnowsReadings building.old.kept lists → KeepsSizes building.new caller sizes.now) }
{
    if sizes.len() < 2 || are_all_spare(sizes) {
        return Ok(());
    }
    keep(
        alloc,
        building.lists.as_slice(),
        &mut building.kept,
        caller,
        sizes,
    )
}

/// Keeps the readings of the sizes for the caller.
fn keep(
    alloc: Global,
    lists: &[Vec<u64>],
    all: &mut BTreeMap<u64, KeptReadings>,
    caller: u64,
    sizes: &[u64],
) -> Result<(), AllocError>
    ensures right { OnOk result (KnowsReadings all.old (map (λ v. v.items) lists.now)
        → KnowsReadings all.new (map (λ v. v.items) lists.now)) }
    ensures kept { let known = map (λ v. v.items) lists.now in
        OnOk result (KnowsReadings all.old known → AreKept all.new known caller sizes.now) }
{
    match all.get_mut(&caller) {
        None => {
            all.insert(caller, read_anew(alloc, lists, sizes)?)?;
            Ok(())
        }
        Some(kept) => change_to(alloc, lists, kept, sizes),
    }
}

/// Reads the sizes from the first on, and returns what is kept of this.
fn read_anew(alloc: Global, lists: &[Vec<u64>], sizes: &[u64]) -> Result<KeptReadings, AllocError>
    ensures kept { IfOk result (λ kept. IsKept (map (λ v. v.items) lists.now) kept) }
    ensures sizes { IfOk result (λ kept. AreKeptIn (map (λ v. v.items) lists.now) sizes.now kept) }
{
    let mut kept = none_read(alloc, lists)?;
    go_on(alloc, lists, &mut kept, sizes)?;
    Ok(kept)
}

/// Returns what is kept before any size is read.
fn none_read(alloc: Global, lists: &[Vec<u64>]) -> Result<KeptReadings, AllocError>
    ensures kept { IfOk result (λ kept. IsKept (map (λ v. v.items) lists.now) kept) }
    ensures none { IfOk result (λ kept. kept.sizes.items ≡ []) }
    ensures lists { IfOk result (λ kept. kept.lists ≡ length lists.now) }
{
    let mut left = Vec::new(alloc);
    left.push(first_readings(alloc, lists)?)?;
    Ok(KeptReadings {
        lists: lists.len(),
        sizes: Vec::new(alloc),
        left,
    })
}

/// Replaces what is kept by the readings of these sizes. The common first sizes are kept; if no
/// reading goes on, all sizes are read again.
fn change_to(
    alloc: Global,
    lists: &[Vec<u64>],
    kept: &mut KeptReadings,
    sizes: &[u64],
) -> Result<(), AllocError>
    ensures kept { OnOk result (IsKept (map (λ v. v.items) lists.now) kept.old
        → IsKept (map (λ v. v.items) lists.now) kept.new) }
    ensures sizes { let known = map (λ v. v.items) lists.now in
        OnOk result (IsKept known kept.old → AreKeptIn known sizes.now kept.new) }
{
    let n = common_len(kept.sizes.as_slice(), sizes);
    cut(kept, n);
    go_on(alloc, lists, kept, &sizes[n..])?;
    if left_at(kept.left.as_slice(), sizes.len()).is_empty() {
        *kept = read_anew(alloc, lists, sizes)?;
    }
    Ok(())
}

/// Keeps only the first `n` sizes.
fn cut(kept: &mut KeptReadings, n: usize)
    requires within { n ≤ length kept.old.sizes.items }
    requires fits { n < 2 ^ 64 - 1 }
    ensures kept { (lists : List (List ℕ)) → IsKept lists kept.old → IsKept lists kept.new }
    ensures sizes { kept.new.sizes.items ≡ take n kept.old.sizes.items }
{
    kept.sizes.truncate(n);
    kept.left.truncate(n + 1);
}

/// Continues with more sizes.
fn go_on(
    alloc: Global,
    lists: &[Vec<u64>],
    kept: &mut KeptReadings,
    sizes: &[u64],
) -> Result<(), AllocError>
    ensures kept { OnOk result (IsKept (map (λ v. v.items) lists.now) kept.old
        → IsKept (map (λ v. v.items) lists.now) kept.new) }
    ensures sizes { OnOk result (kept.new.sizes.items ≡ kept.old.sizes.items ++ sizes.now) }
    ensures lists { OnOk result (kept.new.lists ≡ kept.old.lists) }
{
    for size in sizes {
        add_size(alloc, lists, kept, *size)?;
    }
    Ok(())
}

/// Continues with one more size.
fn add_size(
    alloc: Global,
    lists: &[Vec<u64>],
    kept: &mut KeptReadings,
    size: u64,
) -> Result<(), AllocError>
    ensures kept { OnOk result (IsKept (map (λ v. v.items) lists.now) kept.old
        → IsKept (map (λ v. v.items) lists.now) kept.new) }
    ensures sizes { OnOk result (kept.new.sizes.items ≡ kept.old.sizes.items ++ size ∷ []) }
    ensures lists { OnOk result (kept.new.lists ≡ kept.old.lists) }
{
    let known = first_lists(lists, kept.lists);
    let left = left_at(kept.left.as_slice(), kept.sizes.len());
    let next = read_on(alloc, known, u64::MAX, left, size)?;
    kept.left.push(next)?;
    kept.sizes.push(size)?;
    Ok(())
}
