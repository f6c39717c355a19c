//! A round of tasks in generations: a table that runs full is followed by a larger one, until all
//! tasks are answered. Tables are what runs tasks by the contract of `Tables`; nothing here opens one. Laws say
//! what lanes on a table answer, by its log and the lanes that ran on it.
//!
//! Read `specs/Runs.antt` and `specs/Turns.antt` with `laws.rt`; `specs/Generations.antt` and
//! `specs/Rounds.antt`, then `tables.rt`, `running.rt`, `ways.rt` and `rounds.rt`. Builds on `ist_core`, `ist_math`,
//! `ist_rest`, `plain_map`, `tele_lanes` and the laws of `laws_links`, `laws_histories` and `laws_calls`.
#![tactic(auto)]

mod counts;
pub mod examples;
mod kept;
pub mod laws;
mod rests;
mod rounds;
mod running;
mod shelves;
mod sizes;
mod tables;
mod ways;

pub use counts::{STOLEN_LANES, lane_count};
pub use kept::Kept;
pub use rests::Turn;
pub use rounds::{Fulls, Round, finish};
pub use running::run_round;
pub use shelves::{NoShelf, Shelf};
pub use sizes::{first_words, next_words};
pub use tables::{Generation, Ran};
pub use ways::{RoundState, begin, go_on};
