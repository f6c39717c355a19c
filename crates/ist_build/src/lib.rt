//! Building ideal subtrees over the leaves of a finished target.
//!
//! Read `specs/Calls.antt`, then `calls.rt`, `reading.rt` and `building.rt`. Uses `ist_core`,
//! `ist_layout`, `ist_math`, `ist_rule`, `ist_rows`, `ist_dcss`, `ist_mark`, and the laws of
//! `laws_links`, `laws_stability`, `laws_calls` and `laws_coming`.
#![tactic(auto)]

mod below;
mod block;
mod building;
mod calls;
mod descent;
mod filling;
mod parts;
mod reading;
mod root;
mod shared;
mod targets;
mod top;

pub use calls::{build_part, fill_parts, leaf_and_loads, leaf_at, set_root};
