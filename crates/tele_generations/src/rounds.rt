//! The result of a round of tasks.
ghost use Rattle.std.specs.Prelude.{◌≡◌, ◌++◌, IfOk};
ghost use Rattle.std.specs.List.Sorted.{IsPermutation, IsNonDecreasingBy};

use crate::ways::RoundState;
use ist_core::Full;
use ist_rest::Closed;
use std::alloc::AllocError;
use std::marker::Model;
use tele_lanes::{Answer, Answers};

/// The refusals of the tables that ran full, in order. Contracts see them as a list.
#[derive(Drop)]
pub struct Fulls {
    items: Vec<Full>,
}

impl Model for Fulls {
    ghost use Rattle.std.specs.Prelude.{List};
    ghost use Rattle.ist_core.specs.declared.ports.Full.{Full};

    ghost Value = { List Full };

    ghost view = { λ f. f.items.items };
}

impl Fulls {
    /// Makes the list of these refusals. Allocates nothing.
    pub fn from_vec(items: Vec<Full>) -> Fulls
        ensures value { result ≡ items.items }
    {
        Fulls { items }
    }

    /// Returns the refusals, in order. Allocates nothing.
    pub fn as_slice(&self) -> &[Full]
        ensures value { result.now ≡ self.now }
    {
        &self.items
    }
}

/// The result of a round.
#[derive(Drop)]
pub struct Round {
    /// The answers to all tasks, by increasing line.
    pub answers: Answers,
    /// The table of the last generation.
    pub closed: Closed,
    /// One refusal for each generation but the last.
    pub fulls: Fulls,
}

/// Ends the round with a table that answered all that was left. Fails only if memory runs out.
pub fn finish(way: RoundState, answers: &[Answer], closed: Closed) -> Result<Round, AllocError>
    ensures answers_same { IfOk result (λ r.
        IsPermutation (way.answers.items ++ answers.now) r.answers.list) }
    ensures answers_rise { IfOk result (λ r. IsNonDecreasingBy (λ a. a.line) r.answers.list) }
    ensures closed { IfOk result (λ r. r.closed ≡ closed) }
    ensures fulls { IfOk result (λ r. r.fulls ≡ way.fulls.items) }
{
    let RoundState {
        answers: mut all,
        fulls,
        ..
    } = way;
    all.extend_from_slice(answers)?;
    Ok(Round {
        answers: Answers::from_vec(sorted(all)?),
        closed,
        fulls: Fulls::from_vec(fulls),
    })
}

// Sorts the answers by line.
fn sorted(answers: Vec<Answer>) -> Result<Vec<Answer>, AllocError>
    ensures same { IfOk result (λ v. IsPermutation answers.items v.items) }
    ensures rising { IfOk result (λ v. IsNonDecreasingBy (λ a. a.line) v.items) }
{
    let mut answers = answers;
    answers.sort_by_key(|answer| answer.line)?;
    Ok(answers)
}
