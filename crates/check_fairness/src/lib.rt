//! Which sizes a caller's held rows may have: the building lists of a state, and whether one more
//! size is fair. Nothing here runs beside a table.
//!
//! Read `specs/Lib.antt`, then `lists.rt`, `fairness.rt` and `keeping.rt`. Stands on `ist_core`,
//! `ist_math` and `ist_layout`.
#![tactic(auto)]

mod fairness;
mod keeping;
mod lists;
mod readings;
mod shapes;
mod shares;
mod spares;

pub use fairness::is_fair_for;
pub use keeping::{KeptReadings, keep_readings};
pub use lists::{BuildingLists, add_keys, no_lists};
pub use readings::SizeReading;
pub use shapes::is_listed;
pub use shares::{degree_of, part_len_of};
pub use spares::Spare;
