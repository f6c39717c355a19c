//! The tree: an ordered map that threads share, each by a pass of its own, without a lock.
//!
//! Read `README.md`, then `specs/Faces.antt` and `specs/Calls.antt`, then `trees.rt`. Built on
//! `ist_rule`, `ist_rows`, `ist_find`, `ist_updates`, `ist_rebuild` and `ist_rest`, and on the
//! crates of laws below them.
#![tactic(auto)]

mod conditional;
mod faults;
mod finding;
mod freezing;
pub mod laws;
mod notes;
mod passes;
mod ports;
mod rebuilding;
mod returning;
mod room;
mod sweeping;
mod trees;
mod updating;

pub use faults::OpenFault;
pub use freezing::Frozen;
pub use passes::{Maker, Note, Pass};
pub use ports::TreePort;
pub use returning::{Holds, take_all_back};
pub use trees::Tree;
