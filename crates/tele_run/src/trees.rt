//! A table of a round, as a tree whose passes are the ports of the lanes.
ghost use Rattle.std.specs.Prelude.{◌≡◌, ◌≤◌, [], IfOk};
ghost use Rattle.std.specs.List.Sorted.{IsStrictlyIncreasing};
ghost use Rattle.ist_core.specs.Lawful.{CanOpen};
ghost use Rattle.ist_tree.specs.Opening.{IsNewTree};
ghost use Rattle.tele_lanes.specs.Lines.{task_lines};
ghost use Rattle.tele_generations.specs.Counts.{lane_count};
ghost use Rattle.tele_generations.specs.Tables.{MayRun, RanNext};
ghost use Rattle.tele_run.specs.Ends.{CameTo};

use crate::lanes::{OfLane, gather_all, make_lanes};
use ist_core::{Full, Pair};
use ist_image::Image;
use ist_tree::{Maker, OpenFault, Tree, TreePort, take_all_back};
use std::alloc::{AllocError, Global};
use std::sync::Wait;
use std::thread::Threads;
use tele_generations::{Generation, Ran, RoundState, lane_count};
use tele_lanes::{Answer, Gate, Lane, Task};
use tele_steal::run_team;

/// Runs what a round has left on a new tree of its pairs, and closes the tree.
///
/// The tasks are split into one lane per worker, or with `steal` into `STOLEN_LANES` lanes that
/// workers steal from one another. Each lane runs with its own pass on a thread, if one can be
/// started, and all passes are taken back. The gate is notified of each call. The tree's first words
/// are laid out in `image`, whose memory may serve for the next tree. Fails only if memory runs out.
/// May wait for whatever the lanes and the gate wait for.
pub fn run_on_tree<R: Threads + Wait + Sync, G: Gate + Sync>(
    rt: &R,
    gate: &G,
    alloc: Global,
    image: &mut Image,
    way: &RoundState,
    workers: u32,
    steal: bool,
) -> Ran
    requires may { MayRun way.now workers }
    ensures ran { RanNext way.now workers steal result }
{
    let (tree, mut maker) = open_tree(alloc, image, way.words, &way.pairs)?;
    let came = run_tree(
        rt, gate, alloc, &tree, &mut maker, &way.left, workers, steal,
    )?;
    let closed = tree.close(maker);
    Ok(Generation {
        answers: came.answers,
        left: came.left,
        closed,
        full: came.full,
    })
}

// Opens a tree of the pairs, which fit in `words` words.
fn open_tree(
    alloc: Global,
    image: &mut Image,
    words: u32,
    pairs: &[Pair],
) -> Result<(Tree, Maker), AllocError>
    requires opens { CanOpen pairs.now words }
    ensures new { IfOk result (λ t. IsNewTree words pairs.now t.0 t.1) }
{
    match Tree::open_over(alloc, image, words, pairs) {
        Ok(made) => Ok(made),
        Err(OpenFault::Memory) => Err(AllocError),
        Err(OpenFault::Small { .. }) => unreachable!(),
    }
}

// What the lanes answered and left, and the refusal of the lowest lane that stopped.
#[derive(Drop)]
pub(crate) struct Came {
    pub answers: Vec<Answer>,
    pub left: Vec<Task>,
    pub full: Option<Full>,
}

// Splits the tasks into lanes, runs each with its own pass, and takes all passes back.
fn run_tree<R: Threads + Wait + Sync, G: Gate + Sync>(
    rt: &R,
    gate: &G,
    alloc: Global,
    tree: &Tree,
    maker: &mut Maker,
    tasks: &[Task],
    workers: u32,
    steal: bool,
) -> Result<Came, AllocError>
    requires same_tree { maker.old.tree ≡ tree.now }
    requires no_passes { maker.old.made ≡ 0 }
    requires none_taken { maker.old.taken ≡ [] }
    requires rising { IsStrictlyIncreasing (task_lines tasks.now) }
    requires some { 1 ≤ workers }
    requires at_most { workers ≤ 64 }
    ensures came { IfOk result (λ c.
        CameTo tree.now maker.new (lane_count workers steal) tasks.now c.answers.items c.left.items
        c.full) }
{
    let fresh = make_lanes(alloc, tree, maker, tasks, lane_count(workers, steal))?;
    let lanes = run_team(rt, gate, alloc, fresh, workers, steal)?;
    let came = gather_all(alloc, &lanes);
    take_all_back::<Lane<TreePort<'_>>, OfLane>(tree, maker, lanes);
    came
}
