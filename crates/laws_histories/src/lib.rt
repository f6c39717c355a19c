//! From a lawful log to one history: what happened to the map, what a search finds, where the calls
//! of each pass are, and that the calls of all passes weave into one legal history of a map.
//! Nothing here runs.
//!
//! `specs/Lib.antt` gives the statements in reading order. Builds on `ist_core` and `laws_links`.
#![tactic(auto)]

pub mod examples;
pub mod laws;
