//! The ordered map of one thread, with which every other map of this repository is compared.
//!
//! Read `specs/Rising.antt`, then `maps.rt`. Stands on `ist_core`.
#![tactic(auto)]

mod maps;

pub use maps::Plain;
