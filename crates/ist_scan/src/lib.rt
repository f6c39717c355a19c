//! Listing a tree while passes work on it: a shot is the map as it was at one position, which is
//! listed, added up and walked over while puts and removes go on.
//!
//! `specs/Shots.antt` says what a shot is; `src/shots.rt` has the calls; `src/callers.rt` has
//! callers to start from. Of `ist_tree` only `freeze`, `frozen_pair` and `room` with `words` are used.
#![tactic(auto)]

mod callers;
pub mod laws;
mod looking;
mod room;
mod shots;
mod totals;
mod walks;

pub use crate::callers::{ListFault, list_by_both, total_then_remove};
pub use crate::room::shot_words;
pub use crate::shots::Shot;
pub use crate::totals::Total;
pub use crate::walks::Walk;
