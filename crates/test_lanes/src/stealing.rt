//! What no clause says of stolen lanes: small runs whole.
ghost use Rattle.std.specs.Prelude.{◌≡◌, [], ◌≤◌, All, None, length, map, IfOk};
ghost use Rattle.std.specs.List.Sorted.{IsStrictlyIncreasing};

use crate::judging::same;
use crate::recorders::{Counter, FULL, Recorder, idle_lane};
use ist_core::Command;
use std::alloc::{AllocError, Global};
use std::process::Abort;
use std::sync::Wait;
use std::sync::atomic::{AtomicU64, Ordering};
use std::thread::Threads;
use tele_lanes::{Gate, Lane, NoGate, Task, Tasks};
use tele_steal::{Yard, run_stolen};

// makes for each i a lane i with `counts[i]` gets of the key i and room for `calls` calls
fn lanes_of(alloc: Global, counts: &[u32], calls: usize) -> Result<Vec<Lane<Recorder>>, AllocError>
    requires few { length counts.now ≤ 64 }
    ensures len { IfOk result (λ v. length v.items ≡ length counts.now) }
    ensures numbers { IfOk result (λ v. IsStrictlyIncreasing (map (λ l. l.number) v.items)) }
    ensures empty { IfOk result (λ v. All (λ l. l.answers.list ≡ []) v.items) }
    ensures room { IfOk result (λ v. All (λ l. length l.tasks ≤ l.answers.room) v.items) }
    ensures no_calls { IfOk result (λ v. All (λ l. l.port.told.items ≡ []) v.items) }
    ensures unrefused { IfOk result (λ v. All (λ l. l.port.refused ≡ None) v.items) }
{
    let mut lanes = Vec::new(alloc);
    for count in counts {
        let number = lanes.len() as u32;
        lanes.push(one_lane(alloc, number, *count, calls)?)?;
    }
    Ok(lanes)
}

// makes the lane of this number, with `count` gets of it
fn one_lane(
    alloc: Global,
    number: u32,
    count: u32,
    calls: usize,
) -> Result<Lane<Recorder>, AllocError>
    ensures number { IfOk result (λ l. l.number ≡ number) }
    ensures empty { IfOk result (λ l. l.answers.list ≡ []) }
    ensures room { IfOk result (λ l. length l.tasks ≤ l.answers.room) }
    ensures no_calls { IfOk result (λ l. l.port.told.items ≡ []) }
    ensures unrefused { IfOk result (λ l. l.port.refused ≡ None) }
{
    let mut tasks = Tasks::new(alloc);
    for line in 0..count {
        let command = Command::Get { key: number as u64 };
        tasks.push(Task {
            line: line as u64,
            command,
        })?;
    }
    idle_lane(alloc, number, tasks, calls)
}

// are the lines that a lane answered the first of its own, each with its number?
fn answers_first(lane: &Lane<Recorder>, number: u32, count: usize) -> bool {
    let answers = lane.answers.as_slice();
    let mut line = 0u64;
    for answer in answers {
        if answer.line != line || answer.reply != Some(number as u64) {
            return false;
        }
        line = line.wrapping_add(1);
    }
    lane.number == number && answers.len() == count
}

// is it the lane of this number, which answered the first of its own tasks: all if the port answers
// as many calls, and otherwise up to where it stopped?
fn is_back(lane: &Lane<Recorder>, number: u32, count: usize, calls: usize) -> bool {
    let stopped = if calls < count { Some(FULL) } else { None };
    answers_first(lane, number, count.min(calls)) && lane.stopped == stopped
}

// is there one lane per count, in order, each back?
fn are_back(lanes: &[Lane<Recorder>], counts: &[u32], calls: usize) -> bool {
    let mut number = 0u32;
    for lane in lanes {
        let Some(count) = counts.get(number as usize) else {
            return false;
        };
        if !is_back(lane, number, *count as usize, calls) {
            return false;
        }
        number = number.wrapping_add(1);
    }
    lanes.len() == counts.len()
}

// runs lanes with `counts[i]` gets in the yard, and returns whether they come back in order
fn run_back<R: Threads + Wait + Sync, G: Gate + Sync>(
    rt: &R,
    alloc: Global,
    gate: &G,
    yard: &mut Yard<Recorder>,
    counts: &[u32],
    calls: usize,
) -> Result<bool, AllocError>
    requires few { length counts.now ≤ 64 }
    requires fits { length counts.now ≤ yard.old.lanes }
    ensures same_room { yard.new.lanes ≡ yard.old.lanes }
{
    let lanes = lanes_of(alloc, counts, calls)?;
    let lanes = run_stolen(rt, gate, yard, lanes);
    Ok(are_back(&lanes, counts, calls))
}

// does the same in a new yard
fn run_in_yard<R: Threads + Wait + Sync, G: Gate + Sync>(
    rt: &R,
    alloc: Global,
    gate: &G,
    workers: u32,
    room: u32,
    counts: &[u32],
    calls: usize,
) -> Result<bool, AllocError>
    requires some_workers { 1 ≤ workers }
    requires workers_at_most { workers ≤ 64 }
    requires some_lanes { 1 ≤ room }
    requires lanes_at_most { room ≤ 64 }
    requires fits { length counts.now ≤ room }
{
    let mut yard = Yard::with_room(alloc, workers, room)?;
    run_back(rt, alloc, gate, &mut yard, counts, calls)
}

// runs three lanes, three times in one yard, with ports that answer eight calls
fn run_thrice<R: Threads + Wait + Sync>(
    rt: &R,
    alloc: Global,
    yard: &mut Yard<Recorder>,
) -> Result<[bool; 3], AllocError>
    requires fits { 3 ≤ yard.old.lanes }
{
    let counts = [10, 0, 3];
    Ok([
        run_back(rt, alloc, &NoGate, yard, &counts, 8)?,
        run_back(rt, alloc, &NoGate, yard, &counts, 8)?,
        run_back(rt, alloc, &NoGate, yard, &counts, 8)?,
    ])
}

// does the same in a new yard
fn run_three<R: Threads + Wait + Sync>(rt: &R, alloc: Global) -> Result<[bool; 3], AllocError> {
    let mut yard = Yard::with_room(alloc, 2, 3)?;
    run_thrice(rt, alloc, &mut yard)
}

#[test]
fn three_lanes_come_back_in_order(rt: HostRuntime) {
    let back = run_three(&rt, rt.alloc());
    same(&rt, &back, &Ok([true; 3]), "three runs");
}

// Fails unless so many workers bring back the lanes, with the numbers of their calls added up at the gate.
fn come_back<R: Threads + Wait + Sync + Abort>(
    rt: &R,
    alloc: Global,
    workers: u32,
    counts: &[u32],
    calls: u64,
)
    requires some_workers { 1 ≤ workers }
    requires workers_at_most { workers ≤ 64 }
    requires few { length counts.now ≤ 64 }
{
    let gate = Counter {
        told: AtomicU64::new(0),
    };
    let back = run_in_yard(rt, alloc, &gate, workers, 64, counts, 1000);
    same(rt, &back, &Ok(true), workers);
    let told = gate.told.load(Ordering::SeqCst);
    same(rt, &told, &calls, workers);
}

#[test]
fn lanes_of_unequal_length_come_back_in_order(rt: HostRuntime) {
    let mut counts = [10u32; 64];
    counts[5] = 1000;
    counts[63] = 0;
    // 62 lanes of ten calls, whose numbers add up to 55, and one of a thousand, to 500,500
    let calls = 504_413_910;
    come_back(&rt, rt.alloc(), 1, &counts, calls);
    come_back(&rt, rt.alloc(), 2, &counts, calls);
    come_back(&rt, rt.alloc(), 4, &counts, calls);
    come_back(&rt, rt.alloc(), 64, &counts, calls);
}
