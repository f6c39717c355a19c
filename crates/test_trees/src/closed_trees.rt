//! New trees that are closed at once: their words, one by one, and their lists.

use crate::judging::same;
use crate::openings::{FIVE, NINE, two_pairs};
use ist_core::Pair;
use ist_rest::{Closed, WordList};
use ist_tree::{OpenFault, Tree};
use std::alloc::{AllocError, Global};

// A tree of 16 words with the pair (5, 7), which is closed at once.
fn one_closed(alloc: Global) -> Result<Closed, OpenFault> {
    let pairs = [FIVE];
    let (tree, maker) = Tree::open(alloc, 16, &pairs)?;
    Ok(tree.close(maker))
}

// A tree of 20 words with both pairs, which is closed at once.
fn two_closed(alloc: Global) -> Result<Closed, OpenFault> {
    let (tree, maker) = two_pairs(alloc, 20)?;
    Ok(tree.close(maker))
}

/// The word at a place, if there is one.
pub(crate) fn word_at(closed: &Closed, place: u64) -> Option<u64> {
    if place < closed.word_count() {
        return Some(closed.word(place));
    }
    None
}

// The first of these words, by its place, that isn't in the closed table there.
fn first_other(closed: &Closed, words: &[u64]) -> Option<usize> {
    for (i, word) in words.iter().enumerate() {
        if word_at(closed, i as u64) != Some(*word) {
            return Some(i);
        }
    }
    None
}

// How many words a closed table uses, how many it has, whether it is settled, and the first of these words that it
// doesn't have.
type ClosedShape = (u64, u64, bool, Option<usize>);

fn see(closed: &Closed, words: &[u64]) -> ClosedShape {
    let other = first_other(closed, words);
    (closed.used(), closed.word_count(), closed.settled(), other)
}

fn see_one(alloc: Global) -> Result<ClosedShape, OpenFault> {
    let words = [6, 0, 0, 33, 5, 7, 0, 0, 0, 0, 0, 0, 0, 0, 0, 0];
    Ok(see(&one_closed(alloc)?, &words))
}

fn see_two(alloc: Global) -> Result<ClosedShape, OpenFault> {
    let words = [
        15, 0, 0, 34, 0, 0, 2, 2, 9, 89, 105, 5, 7, 9, 1, 0, 0, 0, 0, 0,
    ];
    Ok(see(&two_closed(alloc)?, &words))
}

#[test]
fn a_closed_table_has_the_words_that_were_laid_out(rt: HostRuntime) {
    let alloc = rt.alloc();
    same(&rt, &see_one(alloc), &Ok((6, 16, true, None)), "one pair");
    same(&rt, &see_two(alloc), &Ok((15, 20, true, None)), "two pairs");
}

// How many pairs a closed table has from the first key to the last one.
fn count_between(
    alloc: Global,
    closed: &Closed,
    first: u64,
    last: u64,
) -> Result<usize, AllocError> {
    let found = closed.list(alloc, first, last)?;
    Ok(found.len())
}

// The first of these intervals between whose keys the closed table has another number of pairs.
fn first_other_count(
    alloc: Global,
    closed: &Closed,
    cases: &[(u64, u64, usize)],
) -> Result<Option<(u64, u64)>, AllocError> {
    for (first, last, count) in cases {
        if count_between(alloc, closed, *first, *last)? != *count {
            return Ok(Some((*first, *last)));
        }
    }
    Ok(None)
}

// Whether a closed table has these pairs, and the first of these intervals with another number of pairs.
type Listed = (bool, Option<(u64, u64)>);

fn see_lists(
    alloc: Global,
    closed: &Closed,
    pairs: &[Pair],
    cases: &[(u64, u64, usize)],
) -> Result<Listed, AllocError> {
    let has_pairs = closed.pairs(alloc)?.as_slice() == pairs;
    Ok((has_pairs, first_other_count(alloc, closed, cases)?))
}

fn see_lists_of_one(alloc: Global) -> Result<Listed, OpenFault> {
    // the first key, the last key, how many pairs are between
    let cases = [
        (0, u64::MAX, 1),
        (5, 5, 1),
        (6, 9, 0),
        (6, 8, 0),
        (0, 0, 0),
        (u64::MAX, u64::MAX, 0),
        (9, 5, 0),
    ];
    let closed = one_closed(alloc)?;
    Ok(see_lists(alloc, &closed, &[FIVE], &cases)?)
}

fn see_lists_of_two(alloc: Global) -> Result<Listed, OpenFault> {
    // the first key, the last key, how many pairs are between
    let cases = [
        (0, u64::MAX, 2),
        (5, 5, 1),
        (6, 9, 1),
        (6, 8, 0),
        (0, 0, 0),
        (u64::MAX, u64::MAX, 0),
        (9, 5, 0),
    ];
    let closed = two_closed(alloc)?;
    Ok(see_lists(alloc, &closed, &[FIVE, NINE], &cases)?)
}

#[test]
fn a_closed_table_lists_its_pairs(rt: HostRuntime) {
    let alloc = rt.alloc();
    same(&rt, &see_lists_of_one(alloc), &Ok((true, None)), "one pair");
    same(
        &rt,
        &see_lists_of_two(alloc),
        &Ok((true, None)),
        "two pairs",
    );
}
