//! A round's tasks, split by timestamp into lanes, run side by side, and gathered in line order.
//!
//! Read `specs/Lines.antt` and `specs/Lanes.antt`, then `splitting.rt`, `lanes.rt` and
//! `gathering.rt`. Builds on `ist_core`.
#![tactic(auto)]

mod answer_lists;
mod gates;
mod gathering;
mod lanes;
pub mod laws;
mod splitting;
mod task_lists;

pub use answer_lists::{Answer, Answers};
pub use gates::{Gate, NoGate};
pub use gathering::{first_refusal, gather, open_tasks};
pub use lanes::{Lane, run_lanes};
pub use splitting::{lane_of, split};
pub use task_lists::{Task, Tasks};
