//! The rows that callers hold, in tables with a look-up.
ghost use Rattle.std.specs.Prelude.{◌≡◌, ◌≢◌, ◌↔◌, ◌++◌, ◌∷◌, [], ℕ, IsTrue, IfOk, OnOk, List, map, None, Some};
ghost use Rattle.std.specs.Ordering.{nat_cmp};
ghost use Rattle.std.specs.BTreeMap as tree;
ghost use Rattle.ist_core.specs.declared.lists.HeldRow.{HeldRow as AHeldRow};
ghost use Rattle.ist_core.specs.Elements.{Among};
ghost use Rattle.ist_core.specs.Snapshots.{without};
ghost use Rattle.check_events.specs.Holding.{TableHolds, LiesBelow, listed_rows};

use ist_core::HeldRow;
use std::alloc::{AllocError, Global};
use std::collections::BTreeMap;

/// The rows that callers hold: each by its base, and those of each caller in the order of reserving.
#[derive(Drop)]
pub struct HeldTable {
    pub rows: BTreeMap<u64, HeldRow>,
    pub of: BTreeMap<u64, Vec<HeldRow>>,
}

/// Makes the table of no rows.
pub fn no_rows(alloc: Global) -> HeldTable
    ensures none { TableHolds result [] }
{
    HeldTable {
        rows: BTreeMap::new(alloc),
        of: BTreeMap::new(alloc),
    }
}

/// Returns whether the row is held.
pub fn has_row(table: &HeldTable, row: HeldRow) -> bool
    ensures exact { (held : List AHeldRow) → TableHolds table.now held
        → (IsTrue result ↔ Among row held) }
{
    match table.rows.get(&row.base) {
        None => false,
        Some(found) => is_same(found, row),
    }
}

/// Returns the length of the row that the caller holds at the base, if it holds one.
pub fn size_held(table: &HeldTable, caller: u64, base: u64) -> Option<u64>
    ensures exact { (held : List AHeldRow) → TableHolds table.now held → (size : ℕ)
        → (result ≡ Some size ↔ Among record { caller = caller; base = base; size = size } held) }
{
    match table.rows.get(&base) {
        None => None,
        Some(found) => size_of(found, caller),
    }
}

/// Returns the size of the row, if the row is the caller's.
fn size_of(row: &HeldRow, caller: u64) -> Option<u64>
    ensures exact { (size : ℕ) → (result ≡ Some size
        ↔ (record { caller = caller; base = row.now.base; size = size } ≡ row.now)) }
{
    if row.caller != caller {
        return None;
    }
    Some(row.size)
}

/// Returns whether two rows are the same.
fn is_same(one: &HeldRow, other: HeldRow) -> bool
    ensures exact { IsTrue result ↔ (other ≡ one.now) }
{
    one.caller == other.caller && one.base == other.base && one.size == other.size
}

/// Returns the sizes of the rows that the caller holds, in the order of reserving.
pub fn sizes_held(alloc: Global, table: &HeldTable, caller: u64) -> Result<Vec<u64>, AllocError>
    ensures value { IfOk result (λ sizes.
        sizes.items ≡ map (λ h. h.size) (listed_rows table.now.of caller)) }
{
    match table.of.get(&caller) {
        None => Ok(Vec::new(alloc)),
        Some(rows) => rows.iter().map(|row| row.size).collect(alloc),
    }
}

/// Adds a row whose base is above all others.
pub fn hold(alloc: Global, table: &mut HeldTable, row: HeldRow) -> Result<(), AllocError>
    requires above { LiesBelow table.old row.base }
    ensures exact { OnOk result ((held : List AHeldRow) → TableHolds table.old held
        → TableHolds table.new (held ++ row ∷ [])) }
{
    list(alloc, &mut table.of, row)?;
    table.rows.insert(row.base, row)?;
    Ok(())
}

/// Lists the row after the others of its caller.
fn list(alloc: Global, of: &mut BTreeMap<u64, Vec<HeldRow>>, row: HeldRow) -> Result<(), AllocError>
    ensures here { OnOk result
        (listed_rows of.new row.caller ≡ listed_rows of.old row.caller ++ row ∷ []) }
    ensures others { OnOk result ((caller : ℕ) → caller ≢ row.caller
        → listed_rows of.new caller ≡ listed_rows of.old caller) }
{
    match of.get_mut(&row.caller) {
        None => list_first(alloc, of, row),
        Some(rows) => {
            rows.push(row)?;
            Ok(())
        }
    }
}

/// Lists the row of a caller that has no other listed.
fn list_first(
    alloc: Global,
    of: &mut BTreeMap<u64, Vec<HeldRow>>,
    row: HeldRow,
) -> Result<(), AllocError>
    requires first { tree.get nat_cmp of.old row.caller ≡ None }
    ensures here { OnOk result
        (listed_rows of.new row.caller ≡ listed_rows of.old row.caller ++ row ∷ []) }
    ensures others { OnOk result ((caller : ℕ) → caller ≢ row.caller
        → listed_rows of.new caller ≡ listed_rows of.old caller) }
{
    let mut rows = Vec::new(alloc);
    rows.push(row)?;
    of.insert(row.caller, rows)?;
    Ok(())
}

/// Removes the rows at these bases.
pub fn let_go(table: &mut HeldTable, bases: &[u64])
    ensures exact { (held : List AHeldRow) → TableHolds table.old held
        → TableHolds table.new (without bases.now held) }
{
    for base in bases {
        let_go_one(table, *base);
    }
}

/// Removes the row at the base, if there is one.
fn let_go_one(table: &mut HeldTable, base: u64)
    ensures exact { (held : List AHeldRow) → TableHolds table.old held
        → TableHolds table.new (without (base ∷ []) held) }
{
    if let Some(row) = table.rows.remove(&base) {
        unlist(&mut table.of, row.caller, base);
    }
}

/// Removes the caller's row at the base from its list.
fn unlist(of: &mut BTreeMap<u64, Vec<HeldRow>>, caller: u64, base: u64)
    ensures here { listed_rows of.new caller ≡ without (base ∷ []) (listed_rows of.old caller) }
    ensures others { (c : ℕ) → c ≢ caller → listed_rows of.new c ≡ listed_rows of.old c }
{
    match of.get_mut(&caller) {
        None => {}
        Some(rows) => rows.retain(|row| base != row.base),
    }
}

/// Returns the rows, in the order of reserving.
pub fn rows_held(alloc: Global, table: HeldTable) -> Result<Vec<HeldRow>, AllocError>
    ensures value { IfOk result (λ rows. (held : List AHeldRow)
        → TableHolds table held → rows.items ≡ held) }
{
    rows_in_order(alloc, table.rows)
}

/// Returns the rows of the map, in increasing order of bases.
fn rows_in_order(alloc: Global, rows: BTreeMap<u64, HeldRow>) -> Result<Vec<HeldRow>, AllocError>
    ensures value { IfOk result (λ all. all.items ≡ map (λ e. e.1) rows.entries) }
{
    rows.into_iter().map(|entry| entry.1).collect(alloc)
}
