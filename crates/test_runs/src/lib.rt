//! Runs of the whole program, rounds on trees, and dumps of closed trees: only tests.
//!
//! Read `running.rt`, then `statuses.rt`, `meetings.rt`, `stolen.rt`, `full_trees.rt`,
//! `long_inputs.rt` and `dumps.rt`. Builds on `tele_run`, `tele_generations` and `tele_audit`.
#![tactic(auto)]

#[cfg(test)]
mod dumps;
#[cfg(test)]
mod full_trees;
#[cfg(test)]
mod judging;
#[cfg(test)]
mod long_inputs;
#[cfg(test)]
mod meetings;
#[cfg(test)]
mod running;
#[cfg(test)]
mod statuses;
#[cfg(test)]
mod stolen;
