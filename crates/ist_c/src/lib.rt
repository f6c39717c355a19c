//! The tree for callers that are written in C, or in Rust outside this repository.
//!
//! Read `include/ist.h`, which declares the exports, then `specs/Calls.antt`, then `key_calls.rt`. What a
//! handle holds, and what is written for a caller, is in `ist_handles`.
#![tactic(auto)]

mod close_calls;
mod if_calls;
mod key_calls;
mod left_calls;
mod next_calls;
mod note_calls;
mod range_calls;
mod room_calls;
mod shot_calls;
mod tree_calls;
