//! Laws over lawful logs on rows that were linked, on changes in their slots, and on rebuilds: what a
//! root is, what changes the contents, and a table at rest. Nothing here runs.
//!
//! `specs/Lib.antt` gives the statements in reading order. Builds on `ist_core`.
#![tactic(auto)]

pub mod links;
pub mod rebuilds;
