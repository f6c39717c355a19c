//! Laws that join the rule of a table to lawful logs: which event a caller may come to make.
//! Nothing here runs.
//!
//! `specs/Lib.antt` gives the statements in reading order. Builds on `ist_core`, `laws_links`, `laws_stability` and `ist_rule`.
#![tactic(auto)]

pub mod laws;
