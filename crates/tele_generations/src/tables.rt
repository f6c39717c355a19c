//! What the table of a generation gives.
use ist_core::{Full, Pair};
use ist_rest::Closed;
use std::alloc::AllocError;
use tele_lanes::{Answer, Task};

/// The result of a generation.
#[derive(Drop)]
pub struct Generation {
    /// What the lanes answered, by increasing line.
    pub answers: Vec<Answer>,
    /// The tasks that they left, by increasing line.
    pub left: Vec<Task>,
    /// The table, after its last call.
    pub closed: Closed,
    /// The refusal of the lowest lane that stopped, if one did.
    pub full: Option<Full>,
}

/// The result of a generation, unless memory ran out.
pub type Ran = Result<Generation, AllocError>;
