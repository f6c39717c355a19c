//! Installing a change, and helping one: it takes effect once or never, and leaves its slot.
//!
//! Read `specs/Installing.antt`, `specs/Helping.antt` and `specs/Opening.antt`, then `installing.rt`,
//! `helping.rt` and `opening.rt`. `reading.rt` has what callers read beside that. Builds on
//! `ist_core`, `ist_layout`, `laws_links`, `ist_rule` and `ist_rows`.
#![tactic(auto)]

mod decisions;
mod helping;
mod installing;
pub mod laws;
mod opening;
mod reading;
mod slots;

pub use decisions::{Decision, Installed};
pub use helping::help;
pub use installing::install;
pub use opening::is_open;
pub use reading::{change_in, target_of};
pub use slots::slot_at;
