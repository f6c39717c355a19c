//! A run: a tree is opened with its keys, and its threads make their calls.
ghost use Rattle.std.specs.Prelude.{◌≡◌, ◌≤◌, [], length, All, IfOk};
ghost use Rattle.ist_core.specs.RowLayout.{place_limit};

use crate::clocks::{Moment, Spent};
use crate::plans::Plan;
use crate::workers::Worker;
use ist_core::Command;
use ist_tree::{Maker, OpenFault, Pass, Tree, take_all_back};
use plain_map::Plain;
use std::alloc::{AllocError, Global};
use std::rt::Files;
use std::thread::Threads;
use std::time::Clock;
use std::{io, thread};

/// What came of a run.
#[derive(Clone, Copy, Drop)]
pub(crate) struct Figures {
    pub spent: Spent,
    /// How many calls there were, how many of them found a value, and how many were refused.
    pub calls: u64,
    pub found: u64,
    pub refused: u64,
    /// How many keys the closed tree has, and how many words were used.
    pub keys: u64,
    pub used: u64,
}

// What the workers of a run spent, found and were refused.
#[derive(Clone, Copy, Drop)]
struct Done {
    spent: Spent,
    found: u64,
    refused: u64,
}

// The pairs with which the tree is opened, each key with its number: none if it grows first.
fn opening_pairs(alloc: Global, plan: &Plan) -> Result<Plain, AllocError> {
    let mut pairs = Vec::new(alloc);
    let keys = if plan.grown { 0 } else { plan.keys };
    for number in 0..keys {
        pairs.push((plan.spread.key(number), number))?;
    }
    pairs.sort()?;
    let mut plain = Plain::new(alloc);
    for (key, value) in pairs {
        plain.apply(Command::Put { key, value })?;
    }
    Ok(plain)
}

// A tree with these pairs, and its maker.
fn open(alloc: Global, words: u32, plain: &Plain) -> Result<(Tree, Maker), OpenFault>
    requires words { words ≤ place_limit }
    ensures same_tree { IfOk result (λ t. t.1.tree ≡ t.0) }
    ensures made { IfOk result (λ t. t.1.made ≡ 0) }
    ensures taken { IfOk result (λ t. t.1.taken ≡ []) }
{
    let pairs = plain.pairs();
    if pairs.len() > 10_000_000 {
        return Err(OpenFault::Memory);
    }
    Tree::open(alloc, words, pairs)
}

// The worker with this number, which has the pass. The first one lets the tree grow, if it has to.
fn make_worker(alloc: Global, tree: &Tree, pass: Pass, plan: Plan, number: u64) -> Worker
    requires same_tree { pass.tree ≡ tree.now }
    ensures same_tree { result.pass.tree ≡ tree.now }
    ensures plan { result.plan ≡ plan }
{
    let mut worker = Worker::new(alloc, pass, plan, number);
    if number == 0 && plan.grown {
        worker.grow(tree);
    }
    worker
}

// A worker for each thread, each with a pass of its own.
fn make_workers(
    alloc: Global,
    tree: &Tree,
    maker: &mut Maker,
    plan: Plan,
) -> Result<Vec<Worker>, AllocError>
    requires same_tree { maker.old.tree ≡ tree.now }
    requires new { (maker.old.made ≡ 0) × (maker.old.taken ≡ []) }
    requires few { plan.threads ≤ 64 }
    requires some { 1 ≤ plan.span }
    ensures trees { IfOk result (λ v. All (λ w. w.pass.tree ≡ tree.now) v.items) }
    ensures spans { IfOk result (λ v. All (λ w. 1 ≤ w.plan.span) v.items) }
    ensures made { IfOk result (λ v. maker.new.made ≡ length v.items) }
    ensures same_tree { maker.new.tree ≡ tree.now }
    ensures taken { maker.new.taken ≡ [] }
{
    let mut workers = Vec::new(alloc);
    for number in 0..plan.threads {
        let pass = tree.pass(maker);
        workers.push(make_worker(alloc, tree, pass, plan, number))?;
    }
    Ok(workers)
}

// Lets each worker make its calls, on its own thread if one can be started.
fn call_all<R: Threads + Sync>(rt: &R, tree: &Tree, workers: &mut [Worker])
    requires trees { All (λ w. w.pass.tree ≡ tree.now) workers.old }
    requires spans { All (λ w. 1 ≤ w.plan.span) workers.old }
    ensures trees { All (λ w. w.pass.tree ≡ tree.now) workers.new }
    ensures same { length workers.new ≡ length workers.old }
{
    if !workers.is_empty() {
        let count = workers.len();
        thread::for_each_mut(rt, workers, count, &|_, worker| worker.work(tree));
    }
}

// What the workers found and were refused, who spent so much.
fn done_by(spent: Spent, workers: &[Worker]) -> Done {
    let mut done = Done {
        spent,
        found: 0,
        refused: 0,
    };
    for worker in workers {
        done.found = done.found.wrapping_add(worker.found);
        done.refused = done.refused.wrapping_add(worker.refused);
    }
    done
}

// Lets each worker make its calls, and returns what was spent meanwhile.
fn call_timed<R: Threads + Sync + Files + Clock + AllocGlobal>(
    rt: &R,
    tree: &Tree,
    workers: &mut [Worker],
) -> io::Result<Done>
    requires trees { All (λ w. w.pass.tree ≡ tree.now) workers.old }
    requires spans { All (λ w. 1 ≤ w.plan.span) workers.old }
    ensures trees { All (λ w. w.pass.tree ≡ tree.now) workers.new }
    ensures same { length workers.new ≡ length workers.old }
{
    let moment = Moment::now(rt)?;
    call_all(rt, tree, workers);
    let spent = moment.spent(rt)?;
    Ok(done_by(spent, workers))
}

// Measures the workers of this tree, and takes their passes back.
fn measure_workers<R: Threads + Sync + Files + Clock + AllocGlobal>(
    rt: &R,
    plan: Plan,
    tree: &Tree,
    maker: &mut Maker,
) -> io::Result<Done>
    requires same_tree { maker.old.tree ≡ tree.now }
    requires new { (maker.old.made ≡ 0) × (maker.old.taken ≡ []) }
    requires few { plan.threads ≤ 64 }
    requires some { 1 ≤ plan.span }
    ensures same_tree { maker.new.tree ≡ tree.now }
    ensures all_back { IfOk result (λ _. length maker.new.taken ≡ maker.new.made) }
{
    let mut workers = make_workers(rt.alloc(), tree, maker, plan)?;
    let done = call_timed(rt, tree, workers.as_mut_slice());
    take_all_back::<Worker, Worker>(tree, maker, workers);
    done
}

// Measures the plan on this tree, and closes it.
fn measure_in<R: Threads + Sync + Files + Clock + AllocGlobal>(
    rt: &R,
    plan: Plan,
    tree: Tree,
    maker: Maker,
) -> io::Result<Figures>
    requires same_tree { maker.tree ≡ tree }
    requires new { (maker.made ≡ 0) × (maker.taken ≡ []) }
    requires few { plan.threads ≤ 64 }
    requires some { 1 ≤ plan.span }
{
    let mut maker = maker;
    let done = measure_workers(rt, plan, &tree, &mut maker)?;
    let closed = tree.close(maker);
    Ok(Figures {
        spent: done.spent,
        calls: plan.calls.wrapping_mul(plan.threads),
        found: done.found,
        refused: done.refused,
        keys: closed.pairs(rt.alloc())?.len() as u64,
        used: closed.used(),
    })
}

/// Runs the plan on a new tree, if it can be run.
pub(crate) fn measure<R: Threads + Sync + Files + Clock + AllocGlobal>(
    rt: &R,
    plan: Plan,
) -> io::Result<Option<Figures>> {
    if !plan.is_fit() {
        return Ok(None);
    }
    let alloc = rt.alloc();
    let plain = opening_pairs(alloc, &plan)?;
    match open(alloc, plan.words, &plain) {
        Ok((tree, maker)) => Ok(Some(measure_in(rt, plan, tree, maker)?)),
        Err(_) => Ok(None),
    }
}
