//! Laws over lawful logs on events that stay enabled while others make events, and on how far a table
//! has come: the steps that can happen only so often, and what stays the same while none of them
//! happens. Nothing here runs.
//!
//! `specs/Lib.antt` gives the statements in reading order. Builds on `ist_core` and `laws_links`.
#![tactic(auto)]

pub mod progress;
pub mod stability;
