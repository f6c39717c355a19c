//! The state of a round between two tables.
ghost use Rattle.std.specs.Prelude.{◌≡◌, [], ◌+◌, ◌<◌, ◌≤◌, ◌^◌, IfOk, length};
ghost use Rattle.plain_map.specs.Rising.{IsRising};
ghost use Rattle.tele_generations.specs.Sizes.{least_words, first_words};
ghost use Rattle.tele_generations.specs.Ways.{GoesOnAfter};

use crate::rests::{Turn, rest};
use crate::sizes::{first_words, next_words};
use ist_core::{Full, Pair};
use std::alloc::{AllocError, Global};
use tele_lanes::{Answer, Task};

/// The state of a round between two tables.
#[derive(Drop)]
pub struct RoundState {
    /// What was answered so far, table by table.
    pub answers: Vec<Answer>,
    /// What is left, by increasing line.
    pub left: Vec<Task>,
    /// The pairs from which the next table begins, by increasing key.
    pub pairs: Vec<Pair>,
    /// The refusals of the tables that ran full, in order.
    pub fulls: Vec<Full>,
    /// How many words the next table has.
    pub words: u32,
}

/// Begins a round, before its first table. Fails only if memory runs out.
pub fn begin(
    alloc: Global,
    pairs: &[Pair],
    tasks: &[Task],
    workers: u32,
    most: u32,
) -> Result<RoundState, AllocError>
    requires few { length pairs.now + length tasks.now ≤ 2 ^ 24 }
    requires at_most { workers ≤ 64 }
    requires within { most ≤ 2 ^ 28 }
    ensures answers { IfOk result (λ w. w.answers.items ≡ []) }
    ensures left { IfOk result (λ w. w.left.items ≡ tasks.now) }
    ensures pairs { IfOk result (λ w. w.pairs.items ≡ pairs.now) }
    ensures fulls { IfOk result (λ w. w.fulls.items ≡ []) }
    ensures words { IfOk result (λ w.
        w.words ≡ first_words most workers (length pairs.now) (length tasks.now)) }
    ensures fits { IfOk result (λ w. w.words ≤ 2 ^ 28) }
    ensures holds { IfOk result (λ w. least_words (length pairs.now) ≤ w.words) }
{
    Ok(RoundState {
        answers: Vec::new(alloc),
        left: Vec::from_slice(alloc, tasks)?,
        pairs: Vec::from_slice(alloc, pairs)?,
        fulls: Vec::new(alloc),
        words: first_words(most, workers, pairs.len() as u64, tasks.len() as u64),
    })
}

/// Goes on after a table that ran full with these numbers, with what it answered and left. If it
/// answered nothing, one thread answers the first task that it left. Fails only if memory runs out.
pub fn go_on(way: RoundState, turn: Turn, full: Full) -> Result<RoundState, AllocError>
    requires some_left { 0 < length turn.left.items }
    requires rising { IsRising turn.pairs.items }
    requires few { length turn.pairs.items + length turn.left.items ≤ 2 ^ 24 }
    requires within { way.words ≤ 2 ^ 28 }
    ensures on { IfOk result (λ w. GoesOnAfter way turn full w) }
{
    let RoundState {
        mut answers,
        mut fulls,
        words,
        ..
    } = way;
    let turn = rest(turn)?;
    answers.extend_from_slice(&turn.answers)?;
    fulls.push(full)?;
    let words = next_words(words, turn.pairs.len() as u64);
    Ok(RoundState {
        answers,
        left: turn.left,
        pairs: turn.pairs,
        fulls,
        words,
    })
}
