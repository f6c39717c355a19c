//! Rebuilding a subtree. Starting replaces the target by a rebuild. Helping marks the target,
//! builds the ideal subtree over its leaves, and puts that in its place.
//!
//! Read `specs/Starting.antt` and `specs/Helping.antt`, then `starting.rt` and `helping.rt`. Builds
//! on `ist_rows`, `ist_dcss`, `ist_mark` and `ist_build`, and on the crates below them.
#![tactic(auto)]

mod answers;
mod finishing;
mod helping;
mod sites;
mod start_rows;
mod starting;

pub use answers::{Helped, Started};
pub use helping::help_rebuild;
pub use starting::start;
