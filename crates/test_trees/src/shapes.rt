//! Whether a closed tree is ideal.

use crate::closed_trees::word_at;
use crate::openings::open_with;
use ist_rest::Closed;
use ist_tree::OpenFault;
use plain_map::Plain;
use std::alloc::{AllocError, Global};

// The word at a place, or 0 beyond the last one.
fn at(closed: &Closed, place: u64) -> u64 {
    word_at(closed, place).unwrap_or(0)
}

// Whether this many words from one place on are those from another place on in the other table.
fn are_same(one: &Closed, other: &Closed, from: (u64, u64), count: u64) -> bool {
    for i in 0..count {
        if at(one, from.0.saturating_add(i)) != at(other, from.1.saturating_add(i)) {
            return false;
        }
    }
    true
}

// The references in the slots of two inner rows of this degree, side by side.
fn slots(
    one: &Closed,
    other: &Closed,
    bases: (u64, u64),
    degree: u64,
    left: &mut Vec<(u64, u64)>,
) -> Result<(), AllocError> {
    for i in 0..degree {
        let offset = degree.saturating_add(3).saturating_add(i);
        left.push((
            at(one, bases.0.saturating_add(offset)),
            at(other, bases.1.saturating_add(offset)),
        ))?;
    }
    Ok(())
}

// Whether the trees of both tables have the same leaves and inner rows, with their statuses, counts,
// sizes and keys, in the same order. Only the bases of rows may differ.
fn are_alike(alloc: Global, one: &Closed, other: &Closed) -> Result<bool, AllocError> {
    let mut left = vec![in alloc; (at(one, 3), at(other, 3))]?;
    for _ in 0..1_000_000u64 {
        let Some((a, b)) = left.pop() else {
            return Ok(true);
        };
        let bases = (a / 8, b / 8);
        let degree = at(one, bases.0.saturating_add(2));
        // a leaf has two words, and an inner row four and its keys before its slots
        let words = match (a % 8, b % 8) {
            (1, 1) => 2,
            (2, 2) if degree < 100_000 => degree + 3,
            _ => return Ok(false),
        };
        if !are_same(one, other, bases, words) {
            return Ok(false);
        }
        if a % 8 == 2 {
            slots(one, other, bases, degree, &mut left)?;
        }
    }
    Ok(false)
}

/// Whether the closed tree is the one that a new table of these pairs has, but for the bases of its
/// rows: then it is ideal, its rows are open and its counts are 0.
pub(crate) fn is_ideal(alloc: Global, closed: &Closed, pairs: &Plain) -> Result<bool, OpenFault> {
    let (tree, maker) = open_with(alloc, 100_000, pairs)?;
    Ok(are_alike(alloc, closed, &tree.close(maker))?)
}
