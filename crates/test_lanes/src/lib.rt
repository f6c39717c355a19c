//! Bytes in and out, lines, the lanes of a round, and what is drawn from a seed, call by call: only tests.
//!
//! Read `bytes.rt` and `lines.rt`; `recorders.rt`, then `lanes.rt` and `stealing.rt`; and `draws.rt`.
//! Builds on `tele_io`, `tele_lines`, `plain_map`, `tele_lanes`, `tele_steal` and `test_tools`.
#![tactic(auto)]

#[cfg(test)]
mod bytes;
#[cfg(test)]
mod draws;
#[cfg(test)]
mod judging;
#[cfg(test)]
mod lanes;
#[cfg(test)]
mod lines;
#[cfg(test)]
mod recorders;
#[cfg(test)]
mod stealing;
