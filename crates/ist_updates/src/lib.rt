//! One put or remove of a caller, from the anchor down to its slot and back up. It takes effect once,
//! and is counted at each row on its way.
//!
//! Read `specs/Asking.antt`, `specs/Counting.antt`, `specs/Refusals.antt` and `specs/Meeting.antt`, then
//! `applying.rt`. Builds on `ist_find`, `ist_rebuild`, `ist_dcss`, `ist_rows` and `ist_rule`, and on the
//! crates of laws below them.
#![tactic(auto)]

mod applying;
mod changing;
mod counting;
mod filling;
mod plans;
mod trying;
mod updates;
mod walking;

pub use applying::apply;
pub use updates::{Applied, Due, Outcome, Update, When};
