//! Marking a subtree and counting its keys: no later update of it succeeds.
//!
//! Read `specs/Marking.antt`, then `counting.rt`, `passing.rt`, `statuses.rt` and `spreading.rt`. Uses
//! `ist_core`, `ist_layout`, `ist_rule`, `ist_rows`, `ist_dcss`, and the laws of `laws_links`, `laws_stability` and `laws_coming`.
#![tactic(auto)]

mod below;
mod counting;
mod passing;
mod spreading;
mod statuses;

pub use counting::mark_and_count;
pub use spreading::mark_and_count_from;
