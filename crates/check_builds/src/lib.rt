//! Decides whether a Root, Draw, Place or Lose may come next: for a Root or a Place, whether its rows
//! are ideal over the leaves of its target. Remembers builds, draws, leaves, sizes, okays and passes.
//!
//! Read `specs/Lib.antt`, then `readings.rt`, `leaves.rt`, `ideals.rt`, `building.rt`, `drawing.rt`,
//! `giving_up.rt` and `remembering.rt`. Stands on `ist_core`, `ist_layout`, `ist_math`,
//! `check_fairness` and `check_events`.
#![tactic(auto)]

mod building;
mod drawing;
mod giving_up;
mod ideals;
mod leaves;
mod placing;
mod readings;
mod remembering;
mod reserving;
mod roots;

pub use building::{can_place, can_root};
pub use drawing::can_draw;
pub use giving_up::can_lose;
pub use leaves::add_leaves;
pub use placing::remember_leaves;
pub use readings::{SlotReading, read_slot};
pub use remembering::{remember_build, remember_draw, remember_okay, remember_pass};
pub use reserving::remember_sizes;
pub use roots::{is_ideal, is_root};
