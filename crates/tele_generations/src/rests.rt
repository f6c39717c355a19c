//! What one thread answers between two tables.
ghost use Rattle.std.specs.Prelude.{◌≡◌, ◌<◌, IfOk, length};
ghost use Rattle.ist_core.specs.Map.{map_of, map_after};
ghost use Rattle.tele_generations.specs.Turns.{plain_answer};
ghost use Rattle.plain_map.specs.Rising.{IsRising};
ghost use Rattle.tele_generations.specs.Ways.{Rests};

use ist_core::Pair;
use plain_map::Plain;
use std::alloc::AllocError;
use tele_lanes::{Answer, Task};

/// What a turn answered and left.
#[derive(Drop)]
pub struct Turn {
    /// What was answered in it.
    pub answers: Vec<Answer>,
    /// What is left, by increasing line.
    pub left: Vec<Task>,
    /// The pairs after it, by increasing key.
    pub pairs: Vec<Pair>,
}

// An answer, and the pairs after it.
#[derive(Drop)]
pub(crate) struct AtRest {
    pub answer: Answer,
    pub pairs: Vec<Pair>,
}

// Answers the first task that is left, from the pairs, if the turn answered nothing.
pub(crate) fn rest(turn: Turn) -> Result<Turn, AllocError>
    requires some_left { 0 < length turn.left.items }
    requires rising { IsRising turn.pairs.items }
    ensures rested { IfOk result (λ t. Rests turn.answers.items turn.left.items turn.pairs.items
        t.answers.items t.left.items t.pairs.items) }
{
    if !turn.answers.is_empty() {
        return Ok(turn);
    }
    let Turn {
        mut answers,
        mut left,
        pairs,
    } = turn;
    let task = left.remove(0);
    let rested = answer_at_rest(pairs, task)?;
    answers.push(rested.answer)?;
    Ok(Turn {
        answers,
        left,
        pairs: rested.pairs,
    })
}

// Answers the task by one thread.
fn answer_at_rest(pairs: Vec<Pair>, task: Task) -> Result<AtRest, AllocError>
    requires rising { IsRising pairs.items }
    ensures answer { IfOk result (λ r. r.answer ≡ plain_answer (map_of pairs.items) task) }
    ensures after { IfOk result (λ r.
        map_of r.pairs.items ≡ map_after (map_of pairs.items) task.command) }
    ensures rising { IfOk result (λ r. IsRising r.pairs.items) }
{
    let mut plain = Plain::of(pairs);
    let reply = plain.apply(task.command)?;
    Ok(AtRest {
        answer: Answer {
            line: task.line,
            reply,
        },
        pairs: plain.into_pairs(),
    })
}
