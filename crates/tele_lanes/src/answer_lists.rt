//! What a lane answered: replies with the lines that they answer, in room that was allocated
//! before.
ghost use Rattle.std.specs.Prelude.{◌≡◌, ◌<◌, [], ◌∷◌, ◌++◌, length, IfOk, vec_capacity};

use ist_core::Reply;
use std::alloc::{AllocError, Global};
use std::marker::Model;

/// A reply, and the number of the line whose command it answers.
#[derive(Clone, Copy, Debug, PartialEq, Eq, Drop)]
pub struct Answer {
    pub line: u64,
    pub reply: Reply,
}

/// Answers in the order in which they came. Contracts see them as a list and a room, the number of
/// answers that fit without allocating.
#[derive(Drop)]
pub struct Answers {
    items: Vec<Answer>,
}

impl Model for Answers {
    ghost use Rattle.std.specs.Prelude.{vec_capacity};
    ghost use Rattle.tele_lanes.specs.Rooms.{AnswerList};

    ghost Value = { AnswerList };

    ghost view = { λ a. record { list = a.items.items; room = vec_capacity a.items } };
}

impl Answers {
    /// Makes an empty list of answers with room for `n`.
    pub fn with_room(alloc: Global, n: usize) -> Result<Answers, AllocError>
        ensures empty { IfOk result (λ a. a.list ≡ []) }
        ensures room { IfOk result (λ a. a.room ≡ n) }
    {
        Ok(Answers {
            items: Vec::with_capacity(alloc, n)?,
        })
    }

    /// Makes the list of these answers. Allocates nothing.
    pub fn from_vec(items: Vec<Answer>) -> Answers
        ensures value { result.list ≡ items.items }
        ensures room { result.room ≡ vec_capacity items }
    {
        Answers { items }
    }

    /// Returns the answers, in order.
    pub fn as_slice(&self) -> &[Answer]
        ensures value { result.now ≡ self.now.list }
    {
        &self.items
    }

    /// Returns the vector that this was made from. Allocates nothing.
    pub fn into_vec(self) -> Vec<Answer>
        ensures value { result.items ≡ self.list }
        ensures room { vec_capacity result ≡ self.room }
    {
        self.items
    }

    /// Appends an answer, in room that is there. Allocates nothing.
    pub fn keep(&mut self, answer: Answer)
        requires room { length self.old.list < self.old.room }
        ensures kept { self.new.list ≡ self.old.list ++ answer ∷ [] }
        ensures same_room { self.new.room ≡ self.old.room }
    {
        self.items.push_reserved(answer);
    }
}
