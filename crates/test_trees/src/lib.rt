//! Puts, removes, finds, freezes and shots of trees, by one pass and by several: tests alone.
//!
//! Read `openings.rt`, `new_trees.rt`, `closed_trees.rt` and `freezes.rt`, then `shapes.rt`, `rows.rt`,
//! `rebuilds.rt`, `shortages.rt` and `finds.rt`, and then `shots.rt` with `scans.rt`, `scan_ends.rt` and
//! `scan_threads.rt`, `lives.rt`, `reopened.rt` and `growing.rt`. Uses `ist_tree`, `ist_scan`, `ist_live`,
//! `ist_reopen`, `ist_map`, `test_tools` and `plain_map`.
#![tactic(auto)]

#[cfg(test)]
mod asking;
#[cfg(test)]
mod closed_trees;
#[cfg(test)]
mod conditional;
#[cfg(test)]
mod finds;
#[cfg(test)]
mod freezes;
#[cfg(test)]
mod growing;
#[cfg(test)]
mod judging;
#[cfg(test)]
mod lives;
#[cfg(test)]
mod new_trees;
#[cfg(test)]
mod openings;
#[cfg(test)]
mod rebuilds;
#[cfg(test)]
mod reopened;
#[cfg(test)]
mod rows;
#[cfg(test)]
mod scan_ends;
#[cfg(test)]
mod scan_threads;
#[cfg(test)]
mod scan_words;
#[cfg(test)]
mod scans;
#[cfg(test)]
mod shapes;
#[cfg(test)]
mod shortages;
#[cfg(test)]
mod shots;
#[cfg(test)]
mod tales;
#[cfg(test)]
mod timed_tales;
