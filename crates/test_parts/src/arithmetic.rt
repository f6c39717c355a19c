//! Independent values: computed by hand, or by a short program that counts each part by itself.
ghost use Rattle.std.specs.Prelude.{◌≤◌, IsTrue};
ghost use Rattle.std.specs.List.Sorted.{IsStrictlyIncreasing};

use crate::judging::same;
use ist_math::{child_and_looks, child_of, degree, guess, ideal_words, limit, part};
use std::alloc::{AllocError, Global};
use std::process::Abort;

// Fails unless these are the guess and the child for the key in even keys.
fn is_even(rt: &impl Abort, key: u64, near: u64, child: usize) {
    same(rt, &guess(100, 400, 4, key), &near, key);
    same(rt, &child_of(&[100, 200, 300, 400], key), &child, key);
}

#[test]
fn a_guess_in_even_keys_is_the_child(rt: HostRuntime) {
    // the key, the guess, the child
    is_even(&rt, 99, 0, 0);
    is_even(&rt, 250, 2, 2);
    is_even(&rt, 400, 4, 4);
}

// Fails unless these are the guess and the child for the key in uneven keys.
fn is_uneven(rt: &impl Abort, key: u64, near: u64, child: usize) {
    same(rt, &guess(1, 1000000, 4, key), &near, key);
    same(rt, &child_of(&[1, 2, 3, 1000000], key), &child, key);
}

#[test]
fn a_guess_among_uneven_keys_is_corrected(rt: HostRuntime) {
    // the key, the guess, the child
    is_uneven(&rt, 999999, 3, 3);
    is_uneven(&rt, 3, 1, 3);
    is_uneven(&rt, 0, 0, 0);
    is_uneven(&rt, 1, 1, 1);
}

// Fails unless this is the guess for the key among so many over the whole range.
fn is_guessed(rt: &impl Abort, count: u64, key: u64, near: u64)
    requires some { 2 ≤ count }
{
    same(rt, &guess(0, u64::MAX, count, key), &near, (key, count));
}

// Fails unless these are the guess and the child for the key between the least and the greatest.
fn is_extreme(rt: &impl Abort, key: u64, near: u64, child: usize) {
    is_guessed(rt, 2, key, near);
    same(rt, &child_of(&[0, u64::MAX], key), &child, key);
}

#[test]
fn extreme_keys_have_children(rt: HostRuntime) {
    // the key, the guess, the child
    is_extreme(&rt, 0, 1, 1);
    is_extreme(&rt, 1, 1, 1);
    is_extreme(&rt, u64::MAX - 1, 1, 1);
    is_extreme(&rt, u64::MAX, 2, 2);
    // many keys over the whole range: the product has more than 64 bits
    is_guessed(&rt, 1 << 32, u64::MAX - 1, (1 << 32) - 1);
    is_guessed(&rt, 1 << 20, 1 << 63, 524288);
    is_guessed(&rt, 1 << 63, 12345678901234567890, 6172839450617283945);
    is_guessed(&rt, u64::MAX, u64::MAX - 1, u64::MAX - 1);
    is_guessed(&rt, u64::MAX, 1 << 62, 4611686018427387904);
    // a short range of wide keys: the quotient by the first 64 bits is far too low
    let near = guess(0, 1 << 40, 1 << 63, 1 << 39);
    same(&rt, &near, &4611686018427387904, "a short range");
}

// Fails unless this is the guess and the child for the key beside 7 alone.
fn is_beside(rt: &impl Abort, key: u64, child: usize) {
    same(rt, &guess(7, 7, 1, key), &(child as u64), key);
    same(rt, &child_of(&[7], key), &child, key);
}

#[test]
fn few_keys_have_children(rt: HostRuntime) {
    // the key, its child
    is_beside(&rt, 0, 0);
    is_beside(&rt, 6, 0);
    is_beside(&rt, 7, 1);
    is_beside(&rt, u64::MAX, 1);
    same(&rt, &child_of(&[], 5), &0, 5);
    same(&rt, &child_of(&[0], 0), &1, 0);
    same(&rt, &child_of(&[u64::MAX], u64::MAX - 1), &0, u64::MAX);
}

// Fails unless a row over so many keys has this degree.
fn has_degree(rt: &impl Abort, n: u64, root: u64) {
    assert!(rt; 2 <= n && n < 1 << 32);
    same(rt, &degree(n), &root, n);
}

// Fails unless this child of so many keys begins there and has so many.
fn has_part(rt: &impl Abort, n: u64, j: u64, start: u64, len: u64) {
    assert!(rt; 2 <= n && n < 1 << 32 && j < degree(n));
    let found = part(n, j);
    same(rt, &(found.start, found.len), &(start, len), (j, n));
}

#[test]
fn parts_follow_one_another(rt: HostRuntime) {
    has_degree(&rt, 10, 3);
    has_degree(&rt, 2, 2);
    has_degree(&rt, 3, 2);
    // the keys, the child, where its keys begin, how many it has
    has_part(&rt, 10, 0, 0, 4);
    has_part(&rt, 10, 1, 4, 3);
    has_part(&rt, 10, 2, 7, 3);
    has_part(&rt, 2, 0, 0, 1);
    has_part(&rt, 2, 1, 1, 1);
    has_part(&rt, 3, 0, 0, 2);
    has_part(&rt, 3, 1, 2, 1);
}

#[test]
fn degrees_of_large_nodes_are_whole_roots(rt: HostRuntime) {
    // the keys, the degree
    has_degree(&rt, 65535 * 65535 - 1, 65534);
    has_degree(&rt, 65535 * 65535, 65535);
    has_degree(&rt, 4294967295, 65535);
}

// Fails unless the ideal tree of so many keys takes so many words.
fn takes(rt: &impl Abort, n: u64, words: u64) {
    assert!(rt; n < 1 << 32);
    same(rt, &ideal_words(n), &words, n);
}

#[test]
fn ideal_trees_take_these_words(rt: HostRuntime) {
    // the keys, the words
    takes(&rt, 0, 0);
    takes(&rt, 1, 2);
    takes(&rt, 2, 11);
    takes(&rt, 3, 20);
    takes(&rt, 4, 29);
    takes(&rt, 10, 78);
    takes(&rt, 16, 127);
    takes(&rt, 100, 803);
    takes(&rt, 1000, 8383);
    takes(&rt, 86400, 704353);
    takes(&rt, 1048575, 8787573);
    takes(&rt, 4294967295, 34712447733);
}

// Fails unless a row of so many keys is due after so many updates.
fn is_due(rt: &impl Abort, size: u64, updates: u64) {
    same(rt, &limit(size), &updates, size);
}

#[test]
fn nodes_are_due_after_a_quarter_of_their_keys(rt: HostRuntime) {
    // the size, the limit
    is_due(&rt, 2, 8);
    is_due(&rt, 31, 8);
    is_due(&rt, 32, 8);
    is_due(&rt, 35, 8);
    is_due(&rt, 36, 9);
    is_due(&rt, 256, 64);
    is_due(&rt, 1000, 250);
}

// Does each key lie below the next?
fn rises(keys: &[u64]) -> bool
    ensures rising { IsTrue result → IsStrictlyIncreasing keys.now }
{
    for i in 1..keys.len() {
        if keys[i - 1] >= keys[i] {
            return false;
        }
    }
    true
}

// How the keys of a row lie: each a second after the one before, half of them a year later, at the
// squares, or the last far from the others.
#[derive(Drop)]
enum Lie {
    Seconds,
    Bursts,
    Squares,
    OneFar,
}

// Returns the key of this number.
fn key_at(lie: &Lie, i: u64) -> u64 {
    match lie {
        Lie::Seconds => 1_700_000_000u64.wrapping_add(i),
        Lie::Bursts => i.wrapping_add(if i < 500 { 0 } else { 31_536_000 }),
        Lie::Squares => i.wrapping_mul(i),
        Lie::OneFar => if i < 999 { i } else { u64::MAX },
    }
}

// Returns this many keys that lie in this way.
fn keys_by(alloc: Global, count: u64, lie: Lie) -> Result<Vec<u64>, AllocError> {
    let mut keys = Vec::new(alloc);
    for i in 0..count {
        keys.push(key_at(&lie, i))?;
    }
    Ok(keys)
}

// Returns this many keys at random distances.
fn random_keys(alloc: Global, count: u64, seed: u64) -> Result<Vec<u64>, AllocError> {
    let mut keys = Vec::new(alloc);
    let mut state = seed;
    let mut key = 0u64;
    for _ in 0..count {
        state = state
            .wrapping_mul(6364136223846793005)
            .wrapping_add(1442695040888963407);
        key = key.wrapping_add((state >> 11) + 1);
        keys.push(key)?;
    }
    Ok(keys)
}

// Returns how many of the keys are at most this one.
fn count_up_to(keys: &[u64], x: u64) -> usize {
    let mut count = 0usize;
    for key in keys {
        if *key <= x {
            count = count.wrapping_add(1);
        }
    }
    count
}

// Returns the most looks for a key of these, for the number before it and for the number after it.
// Checks that each child is the number of keys that a walk over all of them counts.
fn most_looks(rt: &impl Abort, keys: &[u64]) -> usize {
    let mut most = 0;
    assert!(rt; rises(keys));
    for key in keys {
        for x in [key.saturating_sub(1), *key, key.saturating_add(1)] {
            let found = child_and_looks(keys, x);
            same(rt, &found.child, &count_up_to(keys, x), x);
            most = most.max(found.looks);
        }
    }
    most
}

// Fails unless this is the most looks in these keys.
fn take_looks(rt: &impl Abort, keys: Result<Vec<u64>, AllocError>, most: usize, of: &str) {
    let looks = match keys {
        Ok(keys) => Ok(most_looks(rt, &keys)),
        Err(error) => Err(error),
    };
    same(rt, &looks, &Ok(most), of);
}

#[test]
fn few_keys_are_looked_at_however_they_lie(rt: HostRuntime) {
    let alloc = rt.alloc();
    // the keys, the most looks
    let seconds = keys_by(alloc, 1000, Lie::Seconds);
    take_looks(&rt, seconds, 4, "rising seconds");
    let bursts = keys_by(alloc, 1000, Lie::Bursts);
    take_looks(&rt, bursts, 20, "two bursts, a year apart");
    let squares = keys_by(alloc, 1000, Lie::Squares);
    take_looks(&rt, squares, 18, "squares");
    let one_far = keys_by(alloc, 1000, Lie::OneFar);
    take_looks(&rt, one_far, 21, "one key at the end");
    let random = random_keys(alloc, 1000, 1);
    take_looks(&rt, random, 10, "random, by the seed 1");
    let four = keys_by(alloc, 4, Lie::Squares);
    take_looks(&rt, four, 4, "four squares");
    let five = keys_by(alloc, 5, Lie::Squares);
    take_looks(&rt, five, 4, "five squares");
}
