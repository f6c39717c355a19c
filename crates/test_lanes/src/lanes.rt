//! What no clause says of lanes: small rounds whole, and a lane that stops at a refused task.
ghost use Rattle.std.specs.Prelude.{◌≡◌, [], All, None, ◌≤◌, length, map, IfOk};
ghost use Rattle.tele_lanes.specs.Lanes.{all_lane_tasks};

use crate::judging::same;
use crate::recorders::{Counter, FULL, Recorder, idle_lane};
use ist_core::{Command, Full, Reply};
use std::alloc::{AllocError, Global};
use std::process::Abort;
use std::sync::Wait;
use std::sync::atomic::{AtomicU64, Ordering};
use std::thread::Threads;
use tele_lanes::{
    Answer, Answers, Lane, NoGate, Task, Tasks, first_refusal, gather, lane_of, open_tasks,
    run_lanes, split,
};

// makes lanes of these tasks, each with a recorder with room for `calls` calls
fn idle_lanes(
    alloc: Global,
    tasks: &[Task],
    workers: u32,
    calls: usize,
) -> Result<Vec<Lane<Recorder>>, AllocError>
    requires some { 1 ≤ workers }
    requires at_most { workers ≤ 64 }
    ensures tasks { IfOk result (λ v.
        map (λ l. l.tasks) v.items ≡ all_lane_tasks workers tasks.now) }
    ensures empty { IfOk result (λ v. All (λ l. l.answers.list ≡ []) v.items) }
    ensures room { IfOk result (λ v. All (λ l. length l.tasks ≤ l.answers.room) v.items) }
    ensures no_calls { IfOk result (λ v. All (λ l. l.port.told.items ≡ []) v.items) }
    ensures unrefused { IfOk result (λ v. All (λ l. l.port.refused ≡ None) v.items) }
{
    let mut lanes = Vec::new(alloc);
    let mut number = 0u32;
    for mine in split(alloc, tasks, workers)? {
        lanes.push(idle_lane(alloc, number, mine, calls)?)?;
        number = number.wrapping_add(1);
    }
    Ok(lanes)
}

// does a round of these tasks give these answers, in line order?
fn round_gives<R: Threads + Wait + Sync>(
    rt: &R,
    alloc: Global,
    tasks: &[Task],
    workers: u32,
    answers: &[Answer],
) -> Result<bool, AllocError>
    requires some { 1 ≤ workers }
    requires at_most { workers ≤ 64 }
{
    let mut lanes = idle_lanes(alloc, tasks, workers, tasks.len())?;
    run_lanes(rt, &NoGate, &mut lanes);
    has_answered(alloc, &lanes, answers)
}

// the task of this line
fn task(line: u64, command: Command) -> Task {
    Task { line, command }
}

// the answer to this line
fn answer(line: u64, reply: Reply) -> Answer {
    Answer { line, reply }
}

// Do two workers have two lanes, one of these first tasks and one of these second ones?
fn are_split(
    alloc: Global,
    tasks: &[Task],
    first: &[Task],
    second: &[Task],
) -> Result<bool, AllocError> {
    let lanes = split(alloc, tasks, 2)?;
    Ok(match lanes.as_slice() {
        [one, two] => one.as_slice() == first && two.as_slice() == second,
        _ => false,
    })
}

#[test]
fn equal_timestamps_go_to_one_lane(rt: HostRuntime) {
    let tasks = [
        task(1, Command::Put { key: 2, value: 1 }),
        task(2, Command::Put { key: 3, value: 1 }),
        task(3, Command::Put { key: 2, value: 5 }),
        task(4, Command::Get { key: 2 }),
    ];
    let first = [tasks[0], tasks[2], tasks[3]];
    let split = are_split(rt.alloc(), &tasks, &first, &[tasks[1]]);
    same(&rt, &split, &Ok(true), "two lanes");
}

// The first of these timestamps and workers that gives another lane than expected.
fn first_other_lane(cases: &[(u64, u32, u32)]) -> Option<usize> {
    for (i, (timestamp, workers, lane)) in cases.iter().enumerate() {
        if *workers == 0 || lane_of(*timestamp, *workers) != *lane {
            return Some(i);
        }
    }
    None
}

#[test]
fn lanes_are_remainders(rt: HostRuntime) {
    // the timestamp, the workers, the lane
    let cases = [
        (0, 1, 0),
        (7, 1, 0),
        (63, 64, 63),
        (64, 64, 0),
        (u64::MAX, 64, 63),
        (u64::MAX - 63, 64, 0),
        (u64::MAX, 2, 1),
        (u64::MAX - 1, 2, 0),
        (u64::MAX, 3, 0),
        (u64::MAX, 7, 1),
        (u64::MAX, u32::MAX, 0),
    ];
    same(&rt, &first_other_lane(&cases), &None, "the lanes");
}

// Are these the tasks that the lanes left?
fn has_left(alloc: Global, lanes: &[Lane<Recorder>], tasks: &[Task]) -> Result<bool, AllocError> {
    let open = open_tasks(alloc, lanes)?;
    Ok(open.as_slice() == tasks)
}

// Are these the answers of the lanes?
fn has_answered(
    alloc: Global,
    lanes: &[Lane<Recorder>],
    answers: &[Answer],
) -> Result<bool, AllocError> {
    let all = gather(alloc, lanes)?;
    Ok(all.as_slice() == answers)
}

// Is the lane stopped at a get of 5, with these answers?
fn are_stopped(lanes: &[Lane<Recorder>], answers: &[Answer]) -> bool {
    for lane in lanes {
        if lane.answers.as_slice() != answers
            || lane.stopped != Some(FULL)
            || lane.port.refused != Some(Command::Get { key: 5 })
        {
            return false;
        }
    }
    true
}

// Runs one lane of these tasks, whose port answers two calls. Returns whether it is stopped at a
// get of 5 with these answers, whether these are the tasks that it left, and its refusal.
fn run_stopped<R: Threads + Wait + Sync>(
    rt: &R,
    alloc: Global,
    gate: &Counter,
    tasks: &[Task],
    answers: &[Answer],
    left: &[Task],
) -> Result<(bool, bool, Option<Full>), AllocError> {
    let mut lanes = idle_lanes(alloc, tasks, 1, 2)?;
    run_lanes(rt, gate, &mut lanes);
    let has_left = has_left(alloc, &lanes, left)?;
    Ok((
        are_stopped(&lanes, answers),
        has_left,
        first_refusal(&lanes),
    ))
}

#[test]
fn a_lane_stops_at_the_refused_task(rt: HostRuntime) {
    let tasks = [
        task(1, Command::Get { key: 5 }),
        task(2, Command::Put { key: 5, value: 9 }),
        task(3, Command::Get { key: 5 }),
        task(4, Command::Get { key: 5 }),
    ];
    let gate = Counter {
        told: AtomicU64::new(0),
    };
    let answers = [answer(1, Some(5)), answer(2, None)];
    let left = [tasks[2], tasks[3]];
    let stopped = run_stopped(&rt, rt.alloc(), &gate, &tasks, &answers, &left);
    same(&rt, &stopped, &Ok((true, true, Some(FULL))), "the lane");
    // two answered calls and the refused one: 1 + 2 + 3
    same(&rt, &gate.told.load(Ordering::SeqCst), &6006, "the calls");
}

// the get of this key, in this line
fn get(line: u64, key: u64) -> Task {
    task(line, Command::Get { key })
}

// Runs three lanes of these tasks, each with a port that answers two calls. Returns whether these
// are the answers, and whether these are the tasks that were left.
fn run_rising<R: Threads + Wait + Sync>(
    rt: &R,
    alloc: Global,
    tasks: &[Task],
    answers: &[Answer],
    left: &[Task],
) -> Result<(bool, bool), AllocError> {
    let mut lanes = idle_lanes(alloc, tasks, 3, 2)?;
    run_lanes(rt, &NoGate, &mut lanes);
    has_both(alloc, &lanes, answers, left)
}

// Are these the answers of the lanes, and these the tasks that they left?
fn has_both(
    alloc: Global,
    lanes: &[Lane<Recorder>],
    answers: &[Answer],
    left: &[Task],
) -> Result<(bool, bool), AllocError> {
    Ok((
        has_answered(alloc, lanes, answers)?,
        has_left(alloc, lanes, left)?,
    ))
}

#[test]
fn lines_rise_whatever_the_order_of_the_tasks(rt: HostRuntime) {
    let tasks = [
        get(9, 0),
        get(2, 1),
        get(7, 2),
        get(3, 0),
        get(8, 1),
        get(1, 2),
        get(6, 0),
        get(5, 1),
        get(4, 2),
    ];
    // three lanes, each of which answers two of its three tasks
    let answers = [
        answer(1, Some(2)),
        answer(2, Some(1)),
        answer(3, Some(0)),
        answer(7, Some(2)),
        answer(8, Some(1)),
        answer(9, Some(0)),
    ];
    let left = [get(4, 2), get(5, 1), get(6, 0)];
    let has = run_rising(&rt, rt.alloc(), &tasks, &answers, &left);
    same(&rt, &has, &Ok((true, true)), "the answers");
}

// Did each lane answer nothing without stopping?
fn are_idle(lanes: &[Lane<Recorder>]) -> bool {
    for lane in lanes {
        if !lane.answers.as_slice().is_empty() || lane.stopped.is_some() {
            return false;
        }
    }
    true
}

// Runs three lanes without tasks. Returns how many there are, whether they answered nothing and
// didn't stop, whether they left nothing, and the first refusal.
fn run_idle<R: Threads + Wait + Sync>(
    rt: &R,
    alloc: Global,
) -> Result<(usize, bool, bool, Option<Full>), AllocError> {
    let mut lanes = idle_lanes(alloc, &[], 3, 0)?;
    run_lanes(rt, &NoGate, &mut lanes);
    let none = has_left(alloc, &lanes, &[])?;
    Ok((lanes.len(), are_idle(&lanes), none, first_refusal(&lanes)))
}

#[test]
fn no_tasks_give_no_answers(rt: HostRuntime) {
    let idle = run_idle(&rt, rt.alloc());
    same(&rt, &idle, &Ok((3, true, true, None)), "three lanes");
    let none = has_answered(rt.alloc(), &[], &[]);
    same(&rt, &none, &Ok(true), "no lanes");
    let mut none: [Lane<Recorder>; 0] = [];
    run_lanes(&rt, &NoGate, &mut none);
}

// Fails unless so many workers give these answers to these tasks.
fn gives<R: Threads + Wait + Sync + Abort>(
    rt: &R,
    alloc: Global,
    tasks: &[Task],
    workers: u32,
    answers: &[Answer],
)
    requires some { 1 ≤ workers }
    requires at_most { workers ≤ 64 }
{
    let given = round_gives(rt, alloc, tasks, workers, answers);
    same(rt, &given, &Ok(true), workers);
}

#[test]
fn answers_come_back_in_line_order(rt: HostRuntime) {
    let tasks = [
        task(1, Command::Get { key: 200 }),
        task(2, Command::Get { key: 7 }),
        task(4, Command::Remove { key: 64 }),
        task(5, Command::Get { key: u64::MAX }),
        task(9, Command::Get { key: 0 }),
        task(10, Command::Put { key: 7, value: 1 }),
        task(12, Command::Get { key: 1 }),
    ];
    let answers = [
        answer(1, Some(200)),
        answer(2, Some(7)),
        answer(4, None),
        answer(5, Some(u64::MAX)),
        answer(9, Some(0)),
        answer(10, None),
        answer(12, Some(1)),
    ];
    gives(&rt, rt.alloc(), &tasks, 1, &answers);
    gives(&rt, rt.alloc(), &tasks, 2, &answers);
    gives(&rt, rt.alloc(), &tasks, 3, &answers);
    gives(&rt, rt.alloc(), &tasks, 7, &answers);
    gives(&rt, rt.alloc(), &tasks, 64, &answers);
}

// Does a list of this task come back as it went in?
fn task_comes_back(alloc: Global, task: Task) -> Result<bool, AllocError> {
    let tasks = Tasks::from_vec(vec![in alloc; task]?).into_vec();
    Ok(tasks.as_slice() == [task].as_slice())
}

// Does a list of this answer come back as it went in?
fn answer_comes_back(alloc: Global, answer: Answer) -> Result<bool, AllocError> {
    let answers = Answers::from_vec(vec![in alloc; answer]?).into_vec();
    Ok(answers.as_slice() == [answer].as_slice())
}

#[test]
fn lists_come_back_as_they_went_in(rt: HostRuntime) {
    let tasks = task_comes_back(rt.alloc(), task(3, Command::Remove { key: 8 }));
    same(&rt, &tasks, &Ok(true), "the tasks");
    let answers = answer_comes_back(rt.alloc(), answer(3, Some(6)));
    same(&rt, &answers, &Ok(true), "the answers");
}
