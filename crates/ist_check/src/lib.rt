//! Whether a list of events is a lawful log, and the state after it; and which condition of an event
//! that may not come fails first.
//!
//! Read `specs/Lib.antt`, then `judging.rt`, `checking.rt` and `explaining.rt`; for the conditions
//! `conditions.rt`, `tested.rt`, `single.rt` and the files that go through the conditions of each kind:
//! `changes.rt`, `installs.rt`, `nodes.rt` and `builds.rt`. Stands on `ist_core`, `ist_math`,
//! `ist_layout`, `laws_links`, `check_fairness`, `check_events`, `check_builds` and `check_state`.
#![tactic(auto)]

mod builds;
mod changes;
mod checking;
mod coming;
mod conditions;
mod explaining;
mod failing;
mod faults;
mod installs;
mod judging;
mod nodes;
mod remembering;
mod single;
mod stating;
mod tested;

pub use checking::check;
pub use conditions::Condition;
pub use explaining::explain;
pub use faults::CheckFault;
pub use judging::{Judgement, Refusal, judge};
