//! Trees whose top row has pair rows, another rebuild and plain leaves in its slots, and the map of what they hold.
ghost use Rattle.std.specs.Prelude.{◌≡◌, true, Ok};
ghost use Rattle.test_rebuilds.specs.Steps.{IsMakerAt};
ghost use Rattle.ist_rows.specs.Rows.{IsAtTable};
ghost use Rattle.ist_tree.specs.Insides.{IsPass};

use crate::callers::help_on;
use crate::updates::{enter_idle, start_after, update_all};
use ist_core::Command;
use ist_rebuild::Helped;
use ist_rows::Caller;
use ist_rule::{TreeTable, TreeToken};
use ist_tree::OpenFault;
use plain_map::Plain;
use std::alloc::{AllocError, Global};

/// The pairs of the table at first: the row over them has 14 children, the first three of 15 keys each.
pub(crate) const LAST: u64 = 200;

/// What the slots of the row over all pairs will hold: how many pair rows one below another its
/// first slot holds; whether its second slot holds a started rebuild; whether its third slot, which
/// otherwise holds a leaf, holds a change that came too late.
#[derive(Clone, Copy, Debug, PartialEq, Eq, Drop)]
pub(crate) struct Shape {
    pub(crate) chain: u64,
    pub(crate) rebuilt: bool,
    pub(crate) late: bool,
}

// The removes of the keys from the first to the last one.
fn removes(alloc: Global, first: u64, last: u64) -> Result<Vec<(u64, Option<u64>)>, AllocError> {
    let mut updates = Vec::new(alloc);
    for key in first..last.saturating_add(1) {
        updates.push((key, None))?;
    }
    Ok(updates)
}

// This many puts of 1000, 1001, .. at the key.
fn puts(alloc: Global, key: u64, count: u64) -> Result<Vec<(u64, Option<u64>)>, AllocError> {
    let mut updates = Vec::new(alloc);
    for i in 0..count {
        updates.push((key, Some(i.saturating_add(1000))))?;
    }
    Ok(updates)
}

// This many puts at the keys 2, 3, ..: each but the first is put into a pair row, next to a leaf.
fn chained(alloc: Global, count: u64) -> Result<Vec<(u64, Option<u64>)>, AllocError> {
    let mut updates = Vec::new(alloc);
    for i in 0..count {
        updates.push((i.saturating_add(2), Some(7)))?;
    }
    Ok(updates)
}

// Carries out the same updates on a map of one thread.
fn follow(
    map: &mut Plain,
    updates: Result<Vec<(u64, Option<u64>)>, AllocError>,
) -> Result<(), AllocError> {
    for (key, value) in updates?.as_slice() {
        let key = *key;
        match *value {
            Some(value) => map.apply(Command::Put { key, value })?,
            None => map.apply(Command::Remove { key })?,
        };
    }
    Ok(())
}

// Removes each key of a child but the first, and has the child rebuilt by the last of these removes: the
// first key's leaf then replaces it.
fn shrink(
    table: &TreeTable,
    alloc: Global,
    most: &mut Caller,
    rest: &mut Caller,
    first: u64,
) -> Result<bool, AllocError>
    requires pass { IsAtTable table.now IsPass most.old }
    requires its_pass { IsAtTable table.now IsPass rest.old }
    ensures pass { result ≡ Ok true → IsAtTable table.now IsPass most.new }
{
    let last = first.saturating_add(14);
    let updates = removes(alloc, first.saturating_add(1), last.saturating_sub(1))?;
    match start_after(table, most, rest, updates.as_slice(), last, None) {
        Some((_, rebuild)) => Ok(help_on(table, rest, rebuild) == Ok(Helped::Replaced)),
        None => Ok(false),
    }
}

// Puts at a key of the second child until the child is due, and starts its rebuild, which stays
// unfinished.
fn start_second(
    table: &TreeTable,
    alloc: Global,
    most: &mut Caller,
    starter: &mut Caller,
) -> Result<bool, AllocError>
    requires pass { IsAtTable table.now IsPass most.old }
    requires its_pass { IsAtTable table.now IsPass starter.old }
    ensures pass { result ≡ Ok true → IsAtTable table.now IsPass most.new }
{
    let updates = puts(alloc, 16, 7)?;
    match start_after(table, most, starter, updates.as_slice(), 16, Some(1007)) {
        Some(_) => Ok(true),
        None => Ok(false),
    }
}

// Puts the pairs that the table has at first.
fn fill(map: &mut Plain) -> Result<(), AllocError> {
    for key in 1..LAST + 1 {
        map.apply(Command::Put { key, value: key })?;
    }
    Ok(())
}

// Carries out the updates that bring a tree of these pairs into this shape.
fn follow_all(alloc: Global, map: &mut Plain, shape: Shape) -> Result<(), AllocError> {
    follow(map, removes(alloc, 2, 15))?;
    follow(map, removes(alloc, 32, 45))?;
    if shape.rebuilt {
        follow(map, puts(alloc, 16, 8))?;
    }
    follow(map, chained(alloc, shape.chain))
}

/// Returns what the map holds after the updates that bring a tree of all pairs into this shape.
pub(crate) fn map_of(alloc: Global, shape: Shape) -> Result<Plain, AllocError> {
    let mut map = Plain::new(alloc);
    fill(&mut map)?;
    follow_all(alloc, &mut map, shape)?;
    Ok(map)
}

// Brings a tree of all pairs into this shape, but for the change.
fn bring(
    table: &TreeTable,
    alloc: Global,
    most: &mut Caller,
    first: &mut Caller,
    second: &mut Caller,
    third: &mut Caller,
    shape: Shape,
) -> Result<bool, OpenFault>
    requires pass { IsAtTable table.now IsPass most.old }
    requires first_pass { IsAtTable table.now IsPass first.old }
    requires second_pass { IsAtTable table.now IsPass second.old }
    requires third_pass { IsAtTable table.now IsPass third.old }
{
    if !shrink(table, alloc, most, first, 1)? || !shrink(table, alloc, most, third, 31)? {
        return Ok(false);
    }
    if shape.rebuilt && !start_second(table, alloc, most, second)? {
        return Ok(false);
    }
    let updates = chained(alloc, shape.chain)?;
    Ok(update_all(table, most, updates.as_slice()))
}

/// The same by the first four callers of the tree.
pub(crate) fn bring_in(
    table: &TreeTable,
    alloc: Global,
    maker: &mut TreeToken,
    shape: Shape,
) -> Result<bool, OpenFault>
    requires maker { IsMakerAt table.now 0 maker.old }
    ensures maker { IsMakerAt table.now 4 maker.new }
{
    let mut most = enter_idle(table, maker);
    let mut first = enter_idle(table, maker);
    let mut second = enter_idle(table, maker);
    let mut third = enter_idle(table, maker);
    bring(
        table,
        alloc,
        &mut most,
        &mut first,
        &mut second,
        &mut third,
        shape,
    )
}
