//! A call of one caller, and its place in a log.
use crate::commands::{Command, Reply};

/// A call that got its reply. `position` is how many changes of the map precede it, and `stamp` its
/// place among the calls that its caller knows of.
#[derive(Clone, Copy, Drop)]
pub struct Call {
    pub command: Command,
    pub reply: Reply,
    pub position: u64,
    pub stamp: u64,
}
