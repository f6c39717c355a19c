//! Rounds on one map that grows from tree to tree, each judged whole.
ghost use Rattle.std.specs.Prelude.{◌≤◌, length, IfOk};

use crate::faults::Fault;
use crate::plans::{MOST_PASSES, Plan};
use crate::scripts::{draw_all, tale};
use ist_core::Pair;
use ist_map::{Hand, MOST_WORDS, Map, Script};
use ist_tree::OpenFault;
use plain_map::Plain;
use std::alloc::{AllocError, Global};
use std::thread::Threads;
use test_tools::{Misfit, Order, Told, opening_pairs};

/// What rounds on a map that came to a good end did.
#[derive(Drop)]
pub(crate) struct Growth {
    pub answered: u64,
    /// How many keys have a value at the end.
    pub keys: u64,
    /// How many words the last tree had.
    pub words: u64,
}

// A map of these pairs.
fn open(alloc: Global, words: u32, plain: &Plain) -> Result<Map, OpenFault> {
    let pairs = plain.pairs();
    if pairs.len() > 1_000_000 || words > MOST_WORDS {
        return Err(OpenFault::Memory);
    }
    Map::open(alloc, words, pairs)
}

// Workers with the calls of a round.
fn make_hands(alloc: Global, plan: &Plan, round: u64) -> Result<Vec<Hand<Script>>, AllocError>
    requires some { 1 ≤ plan.now.span }
    requires few { plan.now.passes ≤ MOST_PASSES }
    ensures few { IfOk result (λ v. length v.items ≤ MOST_PASSES) }
{
    let mut hands = Vec::new(alloc);
    for pass in 0..plan.passes {
        let commands = draw_all(alloc, plan, round, pass)?;
        hands.push(Hand::new(Script::new(alloc, commands)?))?;
    }
    Ok(hands)
}

// What all workers were told. Fails if one has calls without a reply.
fn tales(alloc: Global, round: u64, hands: &[Hand<Script>]) -> Result<Vec<Vec<Told>>, Fault> {
    let mut told = Vec::new(alloc);
    for hand in hands {
        let (commands, replies) = (hand.worker.commands(), hand.worker.replies());
        if replies.len() != commands.len() {
            return Err(Fault::Unanswered { round });
        }
        told.push(tale(alloc, commands, replies)?)?;
    }
    Ok(told)
}

// Judges a round from these pairs to those.
fn judge(
    alloc: Global,
    round: u64,
    opening: &[Pair],
    told: &[Vec<Told>],
    closing: &[Pair],
) -> Result<(), Fault> {
    match Order::of(alloc, opening, told, closing) {
        Ok(_) => Ok(()),
        Err(Misfit::Memory) => Err(Fault::Memory),
        Err(misfit) => Err(Fault::Wrong { round, misfit }),
    }
}

// One round from these pairs. Returns those that it leaves.
fn run_round<R: Threads + Sync>(
    rt: &R,
    alloc: Global,
    plan: &Plan,
    round: u64,
    map: &mut Map,
    opening: &[Pair],
) -> Result<Vec<Pair>, Fault>
    requires some { 1 ≤ plan.now.span }
    requires few { plan.now.passes ≤ MOST_PASSES }
{
    let mut hands = make_hands(alloc, plan, round)?;
    map.run(rt, alloc, hands.as_mut_slice())?;
    let told = tales(alloc, round, hands.as_slice())?;
    let closing = map.closed().pairs(alloc)?;
    judge(alloc, round, opening, told.as_slice(), closing.as_slice())?;
    Ok(closing)
}

/// Runs the plan on a map of its own, and judges all that was told.
pub(crate) fn grow<R: Threads + Sync>(rt: &R, alloc: Global, plan: Plan) -> Result<Growth, Fault> {
    if !plan.is_fit() {
        return Err(Fault::Unfit);
    }
    let plain = opening_pairs(alloc, plan.span)?;
    let mut map = open(alloc, plan.words, &plain)?;
    let mut pairs = plain.pairs().to_vec(alloc)?;
    for round in 0..plan.rounds {
        pairs = run_round(rt, alloc, &plan, round, &mut map, pairs.as_slice())?;
    }
    let calls = plan.passes.wrapping_mul(plan.calls);
    Ok(Growth {
        answered: calls.wrapping_mul(plan.rounds),
        keys: pairs.len() as u64,
        words: map.closed().word_count(),
    })
}
