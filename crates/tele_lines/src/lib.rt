//! Telemetry lines: reading them from a source of bytes, and printing the replies to a sink.
//!
//! Read `specs/Lines.antt`, `specs/Readings.antt`, `specs/Answer.antt` and `specs/Rounds.antt`, then
//! `reader.rt` and `printing.rt`. Stands on `ist_core` and `tele_io`.
#![tactic(auto)]

mod buffers;
mod items;
mod numerals;
mod printing;
mod reader;
mod readings;
mod texts;
mod words;

pub use items::{Cause, Item, Line, LineFault, Version};
pub use numerals::{number, shifted, signed};
pub use printing::{print_answer, print_bad, print_interval, print_pairs};
pub use reader::Lines;
