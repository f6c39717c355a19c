//! A run: a tree is opened, its rounds are run and judged, and its closed words are looked at.
ghost use Rattle.std.specs.Prelude.{◌≡◌, ◌≤◌, ◌+◌, [], length, All, IfOk};
ghost use Rattle.ist_core.specs.RowLayout.{place_limit};

use crate::closing::{check_closed, values_of};
use crate::faults::Fault;
use crate::plans::Plan;
use crate::rounds::{make_workers, run_round};
use crate::workers::{Tally, Worker};
use ist_core::Reply;
use ist_rest::Closed;
use ist_tree::{Maker, OpenFault, Pass, Tree, take_all_back};
use plain_map::Plain;
use std::alloc::Global;
use std::thread::Threads;
use test_tools::opening_pairs;

/// What a run that came to a good end did.
#[derive(Drop)]
pub(crate) struct Report {
    pub tally: Tally,
    /// How many passes met a refused rebuild.
    pub rebuilds_refused: u64,
    /// How many keys have a value at the close.
    pub keys: u64,
    /// How many words were used.
    pub used: u64,
    /// Whether the closed tree is settled.
    pub settled: bool,
}

// What all workers did, and how many of their passes met a refused rebuild.
#[derive(Clone, Copy, Drop)]
struct Done {
    tally: Tally,
    rebuilds_refused: u64,
}

// A tree with these pairs, and its maker.
fn open(alloc: Global, words: u32, plain: &Plain) -> Result<(Tree, Maker), OpenFault>
    requires words { words ≤ place_limit }
    ensures same_tree { IfOk result (λ t. t.1.tree ≡ t.0) }
    ensures made { IfOk result (λ t. t.1.made ≡ 0) }
    ensures taken { IfOk result (λ t. t.1.taken ≡ []) }
{
    let pairs = plain.pairs();
    if pairs.len() > 1_000_000 {
        return Err(OpenFault::Memory);
    }
    Tree::open(alloc, words, pairs)
}

// Runs all rounds, each from what the keys have after the one before. The values are what they have at
// the opening, and then at the end.
fn run_rounds<R: Threads + Sync>(
    rt: &R,
    alloc: Global,
    tree: &Tree,
    keeper: &mut Pass,
    workers: &mut [Worker],
    rounds: u64,
    values: &mut Vec<Reply>,
) -> Result<(), Fault>
    requires keeper { keeper.old.tree ≡ tree.now }
    requires trees { All (λ w. w.pass.tree ≡ tree.now) workers.old }
    requires spans { All (λ w. 1 ≤ w.plan.span) workers.old }
    ensures keeper { keeper.new.tree ≡ tree.now }
    ensures trees { All (λ w. w.pass.tree ≡ tree.now) workers.new }
    ensures same { length workers.new ≡ length workers.old }
{
    for round in 0..rounds {
        *values = run_round(rt, alloc, tree, keeper, workers, round, values.as_slice())?;
    }
    Ok(())
}

// What the workers did.
fn done_by(workers: &[Worker]) -> Done {
    let mut done = Done {
        tally: Tally::none(),
        rebuilds_refused: 0,
    };
    for worker in workers {
        done.tally = done.tally.and(&worker.tally);
        if worker.pass.rebuild_refused().is_some() {
            done.rebuilds_refused = done.rebuilds_refused.wrapping_add(1);
        }
    }
    done
}

// Runs all rounds by workers of this tree, and takes their passes back.
fn run_workers<R: Threads + Sync>(
    rt: &R,
    alloc: Global,
    plan: Plan,
    tree: &Tree,
    maker: &mut Maker,
    keeper: &mut Pass,
    values: &mut Vec<Reply>,
) -> Result<Done, Fault>
    requires same_tree { maker.old.tree ≡ tree.now }
    requires keeper { keeper.old.tree ≡ tree.now }
    requires new { (maker.old.made ≡ 1) × (maker.old.taken ≡ []) }
    requires few { plan.passes ≤ 64 }
    requires some { 1 ≤ plan.span }
    ensures same_tree { maker.new.tree ≡ tree.now }
    ensures keeper { keeper.new.tree ≡ tree.now }
    ensures one_out { IfOk result (λ _. maker.new.made ≡ 1 + length maker.new.taken) }
{
    let mut workers = make_workers(alloc, tree, maker, plan)?;
    let ran = run_rounds(
        rt,
        alloc,
        tree,
        keeper,
        workers.as_mut_slice(),
        plan.rounds,
        values,
    );
    let done = done_by(workers.as_slice());
    take_all_back::<Worker, Worker>(tree, maker, workers);
    ran?;
    Ok(done)
}

// The same with a keeper, whose pass is taken back too.
fn run_with<R: Threads + Sync>(
    rt: &R,
    alloc: Global,
    plan: Plan,
    tree: &Tree,
    maker: &mut Maker,
    values: &mut Vec<Reply>,
) -> Result<Done, Fault>
    requires same_tree { maker.old.tree ≡ tree.now }
    requires new { (maker.old.made ≡ 0) × (maker.old.taken ≡ []) }
    requires few { plan.passes ≤ 64 }
    requires some { 1 ≤ plan.span }
    ensures same_tree { maker.new.tree ≡ tree.now }
    ensures all_back { IfOk result (λ _. length maker.new.taken ≡ maker.new.made) }
{
    let mut keeper = tree.pass(maker);
    let done = run_workers(rt, alloc, plan, tree, maker, &mut keeper, values);
    tree.take_back(maker, keeper);
    done
}

// Checks the closed tree, and gives what the run did.
fn report_on(alloc: Global, closed: &Closed, ends: &[Reply], done: Done) -> Result<Report, Fault> {
    check_closed(alloc, closed, ends, done.rebuilds_refused == 0)?;
    let keys = ends.iter().filter(|value| value.is_some()).count() as u64;
    Ok(Report {
        tally: done.tally,
        rebuilds_refused: done.rebuilds_refused,
        keys,
        used: closed.used(),
        settled: closed.settled(),
    })
}

// Runs the plan on this tree, whose keys have these values, and closes it.
fn run_in<R: Threads + Sync>(
    rt: &R,
    alloc: Global,
    plan: Plan,
    tree: Tree,
    maker: Maker,
    values: &mut Vec<Reply>,
) -> Result<Report, Fault>
    requires same_tree { maker.tree ≡ tree }
    requires new { (maker.made ≡ 0) × (maker.taken ≡ []) }
    requires few { plan.passes ≤ 64 }
    requires some { 1 ≤ plan.span }
{
    let mut maker = maker;
    let done = run_with(rt, alloc, plan, &tree, &mut maker, values)?;
    let closed = tree.close(maker);
    report_on(alloc, &closed, values.as_slice(), done)
}

/// Runs the plan on a tree of its own, and judges all that was told.
pub(crate) fn run<R: Threads + Sync>(rt: &R, alloc: Global, plan: Plan) -> Result<Report, Fault> {
    if !plan.is_fit() {
        return Err(Fault::Unfit);
    }
    let plain = opening_pairs(alloc, plan.span)?;
    let mut values = values_of(alloc, plain.pairs(), plan.span)?;
    let (tree, maker) = open(alloc, plan.words, &plain)?;
    run_in(rt, alloc, plan, tree, maker, &mut values)
}
