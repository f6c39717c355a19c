//! Lanes that idle workers steal: more lanes than workers, each taken from a deque by a worker that
//! has nothing to do.
//!
//! Read `specs/Runs.antt`, then `teams.rt`, `stealing.rt`, `yards.rt` and `specs/Tallies.antt`. Builds on
//! `tele_lanes`, `ist_core` and `crossbeam_deque`.
#![tactic(auto)]

mod collecting;
mod passes;
mod stealing;
mod tallies;
mod teams;
mod workers;
mod yards;

pub use stealing::run_stolen;
pub use teams::run_team;
pub use yards::Yard;
