//! What the readings of some sizes leave. A reading is a way to read the sizes as sizes of builds,
//! with a few spare rows among them.
//!
//! Sizes are read one at a time. After each size only what a reading leaves is kept, and each once.
//! So there are few readings at a time, however many ways lead to one.
ghost use Rattle.std.specs.Prelude.{◌≡◌, ◌↔◌, ◌+◌, ◌∷◌, ◌++◌, ◌<◌, ◌^◌, [], ℕ, IsTrue, IfOk, OnOk, List, map, length};
ghost use Rattle.ist_core.specs.Elements.{Among};
ghost use Rattle.check_fairness.specs.Searching as searching;
ghost use Rattle.check_fairness.specs.Searching.{TakesNext, BeginsOne, LeavesOut};
ghost use Rattle.check_fairness.specs.Readings.{GoesFrom, SomeGoes, AddsReadings, LeavesSame, IsLeftBefore, AreReadings, rest_at};

use crate::spares::{ALL_SPARE, Spare, are_equal, is_spare, without};
use std::alloc::{AllocError, Global};

/// What a reading of some sizes leaves: which rows may still be held in addition to the builds; the
/// list that was begun, with the place of its first size still to come; and whether another list
/// may be begun.
#[derive(Clone, Copy, Drop)]
pub struct SizeReading {
    pub may: Spare,
    pub list: usize,
    pub at: usize,
    pub free: bool,
}

/// Returns what is left before any size is read.
pub(crate) fn first_readings(
    alloc: Global,
    lists: &[Vec<u64>],
) -> Result<Vec<SizeReading>, AllocError>
    ensures first { IfOk result (λ readings. (room : ℕ)
        → AreReadings (map (λ v. v.items) lists.now) room [] readings.items) }
{
    let mut readings = Vec::new(alloc);
    readings.push(SizeReading {
        may: ALL_SPARE,
        list: lists.len(),
        at: 0,
        free: true,
    })?;
    Ok(readings)
}

/// Returns what the readings leave after these sizes, if there is room for `room` words.
pub(crate) fn read_further(
    alloc: Global,
    lists: &[Vec<u64>],
    room: u64,
    before: &[SizeReading],
    sizes: &[u64],
) -> Result<Vec<SizeReading>, AllocError>
    ensures exact { let all = map (λ v. v.items) lists.now in
        IfOk result (λ readings. (more : List ℕ)
        → (SomeGoes all room readings.items more ↔ SomeGoes all room before.now (sizes.now ++ more))) }
{
    let mut readings = before.to_vec(alloc)?;
    for size in sizes {
        readings = read_on(alloc, lists, room, readings.as_slice(), *size)?;
    }
    Ok(readings)
}

/// Returns what the readings leave after one more size.
pub(crate) fn read_on(
    alloc: Global,
    lists: &[Vec<u64>],
    room: u64,
    readings: &[SizeReading],
    size: u64,
) -> Result<Vec<SizeReading>, AllocError>
    ensures exact { let all = map (λ v. v.items) lists.now in
        IfOk result (λ next. (sizes : List ℕ)
        → (SomeGoes all room next.items sizes ↔ SomeGoes all room readings.now (size ∷ sizes))) }
{
    let mut next = Vec::new(alloc);
    for reading in readings {
        add_after(lists, room, *reading, size, &mut next)?;
    }
    Ok(next)
}

/// Adds what a reading leaves after one more size.
fn add_after(
    lists: &[Vec<u64>],
    room: u64,
    reading: SizeReading,
    size: u64,
    next: &mut Vec<SizeReading>,
) -> Result<(), AllocError>
    ensures added { let all = map (λ v. v.items) lists.now in
        OnOk result (AddsReadings all room next.old.items next.new.items
        (λ sizes. GoesFrom all room reading (size ∷ sizes))) }
{
    add_left_out(lists, room, reading, size, next)?;
    add_on(
        lists,
        room,
        reading.may,
        reading.list,
        reading.at,
        size,
        next,
    )?;
    if !reading.free {
        return Ok(());
    }
    add_begun(lists, room, reading.may, size, next)
}

/// Adds what is left if the size is a spare row's.
fn add_left_out(
    lists: &[Vec<u64>],
    room: u64,
    reading: SizeReading,
    size: u64,
    next: &mut Vec<SizeReading>,
) -> Result<(), AllocError>
    ensures added { let all = map (λ v. v.items) lists.now in
        OnOk result (AddsReadings all room next.old.items next.new.items
        (LeavesOut (λ l. Among l all) room reading.may (rest_at all reading.list reading.at)
        reading.free size)) }
{
    if !is_spare(reading.may, size) {
        return Ok(());
    }
    let left = SizeReading {
        may: without(reading.may, size),
        list: reading.list,
        at: reading.at,
        free: reading.free,
    };
    add_reading(lists, room, left, next)
}

/// Adds what is left if the list continues with the size at the place.
fn add_on(
    lists: &[Vec<u64>],
    room: u64,
    may: Spare,
    list: usize,
    at: usize,
    size: u64,
    next: &mut Vec<SizeReading>,
) -> Result<(), AllocError>
    ensures added { let all = map (λ v. v.items) lists.now in
        OnOk result (AddsReadings all room next.old.items next.new.items
        (TakesNext (λ l. Among l all) room may (rest_at all list at) size)) }
{
    let left = rest_of(lists, list, at);
    match left {
        [] => Ok(()),
        [first, rest @ ..] => {
            if *first != size {
                return Ok(());
            }
            let reading = SizeReading {
                may,
                list,
                at: at + 1,
                free: is_full(room, rest),
            };
            add_reading(lists, room, reading, next)
        }
    }
}

/// Adds what is left of each list that begins with the size.
fn add_begun(
    lists: &[Vec<u64>],
    room: u64,
    may: Spare,
    size: u64,
    next: &mut Vec<SizeReading>,
) -> Result<(), AllocError>
    ensures added { let all = map (λ v. v.items) lists.now in
        OnOk result (AddsReadings all room next.old.items next.new.items
        (BeginsOne (λ l. Among l all) room may size)) }
{
    for list in 0..lists.len() {
        add_on(lists, room, may, list, 0, size, next)?;
    }
    Ok(())
}

/// Adds the reading, unless one of the readings leaves the same.
fn add_reading(
    lists: &[Vec<u64>],
    room: u64,
    reading: SizeReading,
    readings: &mut Vec<SizeReading>,
) -> Result<(), AllocError>
    ensures added { let all = map (λ v. v.items) lists.now in
        OnOk result (AddsReadings all room readings.old.items readings.new.items (GoesFrom all room reading)) }
{
    if is_reached(lists, readings.as_slice(), reading) {
        return Ok(());
    }
    readings.push(reading)?;
    Ok(())
}

/// Returns whether one of the readings leaves the same as this one.
fn is_reached(lists: &[Vec<u64>], readings: &[SizeReading], reading: SizeReading) -> bool
    ensures exact { IsTrue result
        ↔ IsLeftBefore (map (λ v. v.items) lists.now) readings.now reading }
{
    for other in readings {
        if leave_same(lists, *other, reading) {
            return true;
        }
    }
    false
}

/// Returns whether two readings leave the same.
fn leave_same(lists: &[Vec<u64>], a: SizeReading, b: SizeReading) -> bool
    ensures exact { IsTrue result ↔ LeavesSame (map (λ v. v.items) lists.now) a b }
{
    if a.free != b.free || !are_equal(a.may, b.may) {
        return false;
    }
    // what is left of a list may be long, and readings mostly meet at one place of one list
    if a.list == b.list && a.at == b.at {
        return true;
    }
    are_same(rest_of(lists, a.list, a.at), rest_of(lists, b.list, b.at))
}

/// Returns whether the numbers are the same.
pub(crate) fn are_same(xs: &[u64], ys: &[u64]) -> bool
    ensures exact { IsTrue result ↔ (xs.now ≡ ys.now) }
{
    xs == ys
}

/// Returns what is left of a list from a place on, or nothing if there is no such list.
fn rest_of(lists: &[Vec<u64>], list: usize, at: usize) -> &[u64]
    ensures value { result.now ≡ rest_at (map (λ v. v.items) lists.now) list at }
    ensures within { 0 < length result.now → at + 1 < 2 ^ 64 }
{
    if list >= lists.len() {
        return &[];
    }
    let sizes = lists[list].as_slice();
    if at >= sizes.len() {
        return &[];
    }
    &sizes[at..]
}

/// Returns whether the rest of a building list continues with a size for which there is no room.
fn is_full(room: u64, rest: &[u64]) -> bool
    ensures value { result ≡ searching.is_full room rest.now }
{
    match rest {
        [] => false,
        [next, ..] => room < *next,
    }
}
