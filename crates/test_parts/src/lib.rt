//! The crates below the tree, call by call, and puts that several callers help: only tests.
//!
//! Read `ports.rt`, `arithmetic.rt` and `layouts.rt`, then `images.rt`, `callers.rt` and `searches.rt` with
//! `samples.rt`, and then `helping.rt`. What they begin with, small tables and an installed put, is in
//! `tables.rt` and `changes.rt` with `specs/Samples.antt`. Uses `ist_core`, `ist_math`, `ist_layout`,
//! `ist_image`, `ist_rule`, `ist_rows`, `ist_dcss` and `ist_find`.
#![tactic(auto)]

#[cfg(test)]
mod arithmetic;
#[cfg(test)]
mod callers;
#[cfg(test)]
mod changes;
#[cfg(test)]
mod helping;
#[cfg(test)]
mod images;
#[cfg(test)]
mod judging;
#[cfg(test)]
mod layouts;
#[cfg(test)]
mod ports;
#[cfg(test)]
mod samples;
#[cfg(test)]
mod searches;
#[cfg(test)]
mod tables;
