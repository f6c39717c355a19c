//! The event model of the tree: the definitions that its claims rest on. Nothing here runs.
//!
//! `specs/Lib.antt` gives the definitions in reading order. The crate depends on no other.
#![tactic(auto)]

mod calls;
mod commands;
mod events;
pub mod examples;
pub mod laws;
mod lists;
mod loads;
mod maps;
mod pairs;
mod ports;
mod states;

pub use calls::Call;
pub use commands::{Command, Reply};
pub use events::{Event, Who};
pub use lists::{Bases, HeldRow, HeldRows, Row, Rows, Words};
pub use loads::Load;
pub use maps::{Changes, Inners, Leaves, Rebuilds};
pub use pairs::Pair;
pub use ports::{Full, Port};
pub use states::{ChangeRow, InnerRow, LeafRow, RebuildRow, State};
