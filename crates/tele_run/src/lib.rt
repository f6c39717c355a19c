//! The program as one call, from bytes to bytes, and a round's tables as trees.
//!
//! Read the contract of `run`, and the definitions that it cites in the specs of `tele_jobs`; then
//! `trees.rt`, `specs/Ends.antt` and `lanes.rt`. Builds on `tele_jobs`, which does the work, on `ist_tree`,
//! and on the crates below them.
#![tactic(auto)]

mod lanes;
mod runs;
mod trees;

pub use runs::run;
pub use tele_jobs::{ANSWERED, BAD_LINE, NO_MEMORY, Outcome, READ_FAILED, USAGE, WRITE_FAILED};
pub use trees::run_on_tree;
