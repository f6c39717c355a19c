//! Callers of a table, and the rows that belong to one of them: entering, reserving, filling.
//!
//! Read `specs/Rows.antt`, then `callers.rt`, `reserving.rt` and `filling.rt`. Builds on
//! `ist_core`, `ist_layout` and `ist_rule`.
#![tactic(auto)]

mod block;
mod callers;
mod dropping;
mod entering;
mod filling;
mod kinds;
pub mod laws;
mod reserving;

pub use block::reserve_block;
pub use callers::Caller;
pub use dropping::drop_pair;
pub use entering::enter;
pub use filling::{fill, fill_row};
pub use kinds::Kind;
pub use reserving::{reserve, reserve_inner};
