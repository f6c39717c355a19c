//! The rounds of a run: calls at the same time, notes after them, and the judgement of the replies.
ghost use Rattle.std.specs.Prelude.{◌≡◌, ◌≤◌, ◌+◌, length, All, IfOk};

use crate::faults::Fault;
use crate::plans::Plan;
use crate::workers::Worker;
use ist_core::{Pair, Reply};
use ist_tree::{Maker, Pass, Tree};
use std::alloc::{AllocError, Global};
use std::thread;
use std::thread::Threads;
use test_tools::{Clock, Misfit, Order, Timed, Told};

/// A worker for each thread, each with a pass of its own.
pub(crate) fn make_workers(
    alloc: Global,
    tree: &Tree,
    maker: &mut Maker,
    plan: Plan,
) -> Result<Vec<Worker>, AllocError>
    requires same_tree { maker.old.tree ≡ tree.now }
    requires few { maker.old.made + plan.passes ≤ 100 }
    requires some { 1 ≤ plan.span }
    ensures trees { IfOk result (λ v. All (λ w. w.pass.tree ≡ tree.now) v.items) }
    ensures spans { IfOk result (λ v. All (λ w. 1 ≤ w.plan.span) v.items) }
    ensures made { IfOk result (λ v. maker.new.made ≡ maker.old.made + length v.items) }
    ensures same_tree { maker.new.tree ≡ tree.now }
    ensures taken { maker.new.taken ≡ maker.old.taken }
{
    let mut workers = Vec::new(alloc);
    for number in 0..plan.passes {
        let pass = tree.pass(maker);
        workers.push(Worker::new(alloc, pass, plan, number))?;
    }
    Ok(workers)
}

// Lets each worker make the calls of a round, on its own thread if one can be started.
fn call_all<R: Threads + Sync>(rt: &R, alloc: Global, tree: &Tree, workers: &mut [Worker])
    requires trees { All (λ w. w.pass.tree ≡ tree.now) workers.old }
    requires spans { All (λ w. 1 ≤ w.plan.span) workers.old }
    ensures trees { All (λ w. w.pass.tree ≡ tree.now) workers.new }
    ensures spans { All (λ w. 1 ≤ w.plan.span) workers.new }
    ensures same { length workers.new ≡ length workers.old }
{
    if !workers.is_empty() {
        let count = workers.len();
        let clock = Clock::new();
        thread::for_each_mut(
            rt,
            workers,
            count,
            &|_, worker| { worker.work(alloc, tree, &clock) },
        );
    }
}

// The keeper meets a note of each worker's pass.
fn hear_all(tree: &Tree, keeper: &mut Pass, workers: &mut [Worker])
    requires keeper { keeper.old.tree ≡ tree.now }
    requires trees { All (λ w. w.pass.tree ≡ tree.now) workers.old }
    requires spans { All (λ w. 1 ≤ w.plan.span) workers.old }
    ensures keeper { keeper.new.tree ≡ tree.now }
    ensures trees { All (λ w. w.pass.tree ≡ tree.now) workers.new }
    ensures spans { All (λ w. 1 ≤ w.plan.span) workers.new }
    ensures same { length workers.new ≡ length workers.old }
{
    for worker in workers.iter_mut() {
        let note = tree.note(&mut worker.pass);
        tree.meet(keeper, note);
    }
}

// Each worker's pass meets a note of the keeper.
fn tell_all(tree: &Tree, keeper: &mut Pass, workers: &mut [Worker])
    requires keeper { keeper.old.tree ≡ tree.now }
    requires trees { All (λ w. w.pass.tree ≡ tree.now) workers.old }
    requires spans { All (λ w. 1 ≤ w.plan.span) workers.old }
    ensures keeper { keeper.new.tree ≡ tree.now }
    ensures trees { All (λ w. w.pass.tree ≡ tree.now) workers.new }
    ensures spans { All (λ w. 1 ≤ w.plan.span) workers.new }
    ensures same { length workers.new ≡ length workers.old }
{
    for worker in workers.iter_mut() {
        let note = tree.note(keeper);
        tree.meet(&mut worker.pass, note);
    }
}

// What the keeper finds at each key below `span`.
fn find_all(
    alloc: Global,
    tree: &Tree,
    keeper: &mut Pass,
    span: u64,
) -> Result<Vec<Reply>, AllocError>
    requires same_tree { keeper.old.tree ≡ tree.now }
    ensures same_tree { keeper.new.tree ≡ tree.now }
{
    let mut found = Vec::new(alloc);
    for key in 0..span {
        found.push(tree.find(keeper, key))?;
    }
    Ok(found)
}

// The pairs of the keys that have a value.
fn pairs_of(alloc: Global, values: &[Reply]) -> Result<Vec<Pair>, AllocError> {
    let mut pairs = Vec::new(alloc);
    for (key, value) in values.iter().enumerate() {
        if let Some(value) = *value {
            pairs.push(Pair {
                key: key as u64,
                value,
            })?;
        }
    }
    Ok(pairs)
}

// What each worker was told, without the times.
fn all_told(alloc: Global, threads: &[Vec<Timed>]) -> Result<Vec<Vec<Told>>, AllocError> {
    let mut all = Vec::new(alloc);
    for calls in threads.iter() {
        let mut told = Vec::new(alloc);
        for call in calls.iter() {
            told.push(call.told)?;
        }
        all.push(told)?;
    }
    Ok(all)
}

// Judges calls with their times.
fn judge_all(
    alloc: Global,
    opening: &[Pair],
    threads: &[Vec<Timed>],
    closing: &[Pair],
) -> Result<(), Misfit> {
    let told = all_told(alloc, threads)?;
    let order = Order::of(alloc, opening, told.as_slice(), closing)?;
    order.judge_times(alloc, threads)
}

// Judges what the workers were told in a round, by what each key had when it began and at its end.
fn judge(
    alloc: Global,
    round: u64,
    workers: &[Worker],
    opening: &[Reply],
    ends: &[Reply],
) -> Result<(), Fault> {
    let mut threads = Vec::new(alloc);
    for worker in workers {
        if worker.lacked_memory {
            return Err(Fault::Memory);
        }
        threads.push(worker.told.to_vec(alloc)?)?;
    }
    let opening = pairs_of(alloc, opening)?;
    let ends = pairs_of(alloc, ends)?;
    match judge_all(
        alloc,
        opening.as_slice(),
        threads.as_slice(),
        ends.as_slice(),
    ) {
        Ok(()) => Ok(()),
        Err(Misfit::Memory) => Err(Fault::Memory),
        Err(misfit) => Err(Fault::Wrong { round, misfit }),
    }
}

/// Runs a round, and judges the replies. Returns what each key has after it.
///
/// All passes make their calls side by side. Then the keeper meets a note of each, finds every key, and
/// each meets a note of the keeper. So each call of the next round comes after all of this one.
pub(crate) fn run_round<R: Threads + Sync>(
    rt: &R,
    alloc: Global,
    tree: &Tree,
    keeper: &mut Pass,
    workers: &mut [Worker],
    round: u64,
    opening: &[Reply],
) -> Result<Vec<Reply>, Fault>
    requires keeper { keeper.old.tree ≡ tree.now }
    requires trees { All (λ w. w.pass.tree ≡ tree.now) workers.old }
    requires spans { All (λ w. 1 ≤ w.plan.span) workers.old }
    ensures keeper { keeper.new.tree ≡ tree.now }
    ensures trees { All (λ w. w.pass.tree ≡ tree.now) workers.new }
    ensures spans { All (λ w. 1 ≤ w.plan.span) workers.new }
    ensures same { length workers.new ≡ length workers.old }
{
    call_all(rt, alloc, tree, workers);
    hear_all(tree, keeper, workers);
    let ends = find_all(alloc, tree, keeper, opening.len() as u64)?;
    tell_all(tree, keeper, workers);
    judge(alloc, round, workers, opening, ends.as_slice())?;
    Ok(ends)
}
