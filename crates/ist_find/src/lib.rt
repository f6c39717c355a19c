//! The search without waiting: it loads words, never writes one, and ends.
//!
//! Read `specs/Searches.antt`, then `finding.rt`, `walking.rt` and `children.rt`. Builds on `ist_core`,
//! `ist_layout`, `ist_math`, `ist_rule`, `ist_dcss`, and on the laws of `laws_links`, `laws_histories`
//! and `laws_calls`.
#![tactic(auto)]

mod answers;
mod children;
mod finding;
mod keys;
mod reading;
mod spans;
mod sweeping;
mod walking;

pub use answers::{Child, Counted, Found, Span};
pub use children::child_at;
pub use finding::{find_and_loads, find_from_anchor};
pub use spans::{find_span, leaf_pair};
pub use sweeping::sweep;
pub use walking::step_down;
