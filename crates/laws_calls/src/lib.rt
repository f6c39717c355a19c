//! Laws over lawful logs that the calls of the tree rest on: rebuilds that callers begin, and a table
//! whose callers finished all that they began; the sizes and forms of rows; the rows that a search or a
//! walk meets, and what a caller's own puts and removes did. Nothing here runs.
//!
//! `specs/Lib.antt` gives the statements in reading order. Builds on `ist_core`, `laws_links`,
//! `laws_stability` and `laws_histories`.
#![tactic(auto)]

pub mod rows;
pub mod settling;
pub mod walks;
