//! Rebuilds of small, of shared and of changed tables, by direct calls of the crates that mark,
//! build and rebuild: only tests.
//!
//! Read `tables.rt` and `callers.rt`, then `marking.rt`, `turns.rt`, `races.rt`, `shortages.rt`,
//! `shares.rt`, `leaves.rt` and `loads.rt`; then `updates.rt` and `late.rt`, and `marked.rt`, `shapes.rt`,
//! `frozen.rt` and `standing.rt`. Uses `ist_updates` and the crates below it, and the laws of
//! `ist_tree`.
#![tactic(auto)]

#[cfg(test)]
mod callers;
#[cfg(test)]
mod dropped;
#[cfg(test)]
mod few;
#[cfg(test)]
mod frozen;
#[cfg(test)]
mod judging;
#[cfg(test)]
mod late;
#[cfg(test)]
mod leaves;
#[cfg(test)]
mod loads;
#[cfg(test)]
mod marked;
#[cfg(test)]
mod marking;
#[cfg(test)]
mod races;
#[cfg(test)]
mod shapes;
#[cfg(test)]
mod shares;
#[cfg(test)]
mod shortages;
#[cfg(test)]
mod standing;
#[cfg(test)]
mod tables;
#[cfg(test)]
mod turns;
#[cfg(test)]
mod updates;
