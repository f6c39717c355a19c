//! A map that lives on: workers that run on one tree after another.
//!
//! Read `hands.rt`, then `specs/Running.antt` and `running.rt`, then `laws.rt`. Uses `ist_reopen`,
//! `ist_tree`, `ist_rest` and `ist_image`, and the laws of `laws_histories`.
#![tactic(auto)]

mod hands;
pub mod laws;
mod running;
mod scripts;
mod stops;

pub use hands::{Hand, Worker};
pub use ist_reopen::{MOST_WORDS, ReopenFault};
pub use running::Map;
pub use scripts::Script;
pub use stops::{Stop, StopRequest};
