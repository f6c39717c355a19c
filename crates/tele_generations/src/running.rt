//! A round of tasks on tables, in as many generations as it needs.
ghost use Rattle.std.specs.Prelude.{◌+◌, ◌≤◌, ◌^◌, All, IfOk, length};
ghost use Rattle.std.specs.List.Sorted.{IsStrictlyIncreasing};
ghost use Rattle.ist_core.specs.Map.{map_of};
ghost use Rattle.tele_lanes.specs.Lines.{task_lines};
ghost use Rattle.tele_lanes.specs.Lanes.{ArePlainAnswers};
ghost use Rattle.plain_map.specs.Rising.{IsRising};
ghost use Rattle.tele_generations.specs.Counts.{lane_count};
ghost use Rattle.tele_generations.specs.Sizes.{first_words};
ghost use Rattle.tele_generations.specs.Generations.{MayAsk};
ghost use Rattle.tele_generations.specs.Tables.{MayRun, RanNext, RunsTables};
ghost use Rattle.tele_generations.specs.Rounds.{RanInGenerations, EndsTheRound};

use crate::rests::Turn;
use crate::rounds::{Round, finish};
use crate::shelves::Shelf;
use crate::tables::{Generation, Ran};
use crate::ways::{RoundState, begin, go_on};
use ist_core::Pair;
use ist_rest::Closed;
use std::alloc::{AllocError, Global};
use tele_lanes::Task;

/// Runs the tasks over these pairs until all are answered, one generation after another, each on a
/// table.
///
/// A table that ran full is put on the shelf and followed by one of at least twice its words. If
/// it answered nothing, one thread answers the open task of the lowest line from the pairs at
/// rest. `words` bounds the first table, unless the pairs need more. If memory runs out, the shelf
/// may have been given tables of this call.
///
/// The lines of a table are split into one lane per worker. With `steal` they are split by their
/// timestamps into `STOLEN_LANES` lanes, which the workers steal from one another.
pub fn run_round<F: FnMut(&RoundState, u32, bool) -> Ran, H: Shelf<Closed>>(
    tables: &mut F,
    shelf: &mut H,
    alloc: Global,
    pairs: &[Pair],
    tasks: &[Task],
    workers: u32,
    words: u32,
    steal: bool,
) -> Result<Round, AllocError>
    requires tables { RunsTables F.pre F.post }
    requires keys { IsRising pairs.now }
    requires lines { IsStrictlyIncreasing (task_lines tasks.now) }
    requires few { length pairs.now + length tasks.now ≤ 2 ^ 24 }
    requires some { 1 ≤ workers }
    requires at_most { workers ≤ 64 }
    requires least { 64 ≤ words }
    requires most { words ≤ 2 ^ 28 }

    // These are the answers of one thread with a plain map.
    ensures answers { IfOk result (λ r.
        ArePlainAnswers (map_of pairs.now) tasks.now r.answers.list) }

    // The tables, and why each but the last was followed by another.
    ensures generations { IfOk result (λ r. RanInGenerations (lane_count workers steal)
        (first_words words workers (length pairs.now) (length tasks.now))
        pairs.now tasks.now (H.kept shelf.old) (H.kept shelf.new) r.closed r.fulls) }
    ensures closed { IfOk result (λ r.
        EndsTheRound (lane_count workers steal) pairs.now tasks.now r.closed r.fulls) }

    ensures count { IfOk result (λ r. length r.fulls ≤ length tasks.now) }
    ensures asked { IfOk result (λ r.
        All (λ f. MayAsk (length pairs.now + length tasks.now) f.asked) r.fulls) }
{
    let mut way = begin(alloc, pairs, tasks, workers, words)?;
    loop {
        let made = run_next(tables, &way, workers, steal)?;
        let Generation {
            answers,
            left,
            closed,
            full,
        } = made;
        let Some(full) = full else {
            return finish(way, &answers, closed);
        };
        let pairs = closed.pairs(alloc)?;
        shelf.keep(closed);
        let turn = Turn {
            answers,
            left,
            pairs,
        };
        way = go_on(way, turn, full)?;
    }
}

// Runs what is left on the next table.
fn run_next<F: FnMut(&RoundState, u32, bool) -> Ran>(
    tables: &mut F,
    way: &RoundState,
    workers: u32,
    steal: bool,
) -> Ran
    requires tables { RunsTables F.pre F.post }
    requires may { MayRun way.now workers }
    ensures ran { RanNext way.now workers steal result }
{
    tables(way, workers, steal)
}
