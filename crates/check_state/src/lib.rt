//! Brings the checker's copy of a table forward by an event, and the tables that `check_builds` doesn't.
//!
//! Read `writes.rt`, then `advancing.rt`. Stands on `ist_core`, `ist_layout`, `ist_math`, `ist_image`,
//! `check_fairness`, `check_events` and `check_builds`, and on the laws of `laws_links`.
#![tactic(auto)]

mod advancing;
mod calling;
mod holding;
mod installing;
mod linking;
mod opening;
mod publishing;
mod starting;
mod targeting;
mod updating;
mod ways;
mod writes;

pub use advancing::advance;
pub use calling::remember_call;
pub use holding::{give_up, give_up_rows};
pub use installing::install;
pub use linking::{remember_links, slots_of_start};
pub use opening::open_replica;
pub use publishing::{put_as_inner, put_as_leaf, put_as_rebuild, put_change, put_inners};
pub use starting::{remember_refusal, remember_start};
pub use targeting::{remember_lists, remember_target};
pub use updating::remember_update;
pub use ways::{KeySpan, remember_ways, ways_of_start};
pub use writes::{count_at, decide, draw, set_root, set_row_slot, set_slot, set_status};
