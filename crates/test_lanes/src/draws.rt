//! Numbers from outside, and how keys lie.

use crate::judging::same;
use std::alloc::{AllocError, Global};
use test_tools::{Draws, Kind, Shares, Spread};

#[test]
fn numbers_are_those_of_the_source(rt: HostRuntime) {
    let mut draws = Draws::new(1_234_567);
    // the first numbers of this start, from outside
    let numbers: [u64; 5] = [
        6_457_827_717_110_365_317,
        3_203_168_211_198_807_973,
        9_817_491_932_198_370_423,
        4_593_380_528_125_082_431,
        16_408_922_859_458_223_821,
    ];
    let drawn = [
        draws.next(),
        draws.next(),
        draws.next(),
        draws.next(),
        draws.next(),
    ];
    same(&rt, &drawn, &numbers, "the first five");
}

// The first of these cases in which the seed and thread draw the number of the other seed and
// thread.
fn first_alike(cases: &[(u64, u64, u64, u64)]) -> Option<usize> {
    for (i, (seed, thread, other, another)) in cases.iter().enumerate() {
        let one = Draws::for_thread(*seed, *thread).next();
        let two = Draws::for_thread(*other, *another).next();
        if one == two {
            return Some(i);
        }
    }
    None
}

#[test]
fn threads_of_one_seed_draw_different_numbers(rt: HostRuntime) {
    // seed, thread, another seed, another thread
    let cases = [(1, 0, 1, 1), (1, 0, 2, 0), (0, 3, 3, 0), (1, 1, 2, 0)];
    same(&rt, &first_alike(&cases), &None, "the cases");
}

// The first of these numbers below all shares that gives another kind of call than expected.
fn first_other_kind(shares: &Shares, cases: &[(u64, Kind)]) -> Option<usize> {
    for (i, (number, kind)) in cases.iter().enumerate() {
        if shares.kind_at(*number) != *kind {
            return Some(i);
        }
    }
    None
}

#[test]
fn each_kind_of_call_has_its_share(rt: HostRuntime) {
    let shares = Shares {
        puts: 500,
        removes: 250,
        finds: 249,
        freezes: 1,
    };
    // a number below all shares, the kind of call
    let cases = [
        (0, Kind::Put),
        (499, Kind::Put),
        (500, Kind::Remove),
        (749, Kind::Remove),
        (750, Kind::Find),
        (998, Kind::Find),
        (999, Kind::Freeze),
    ];
    let other = first_other_kind(&shares, &cases);
    same(&rt, &(shares.all(), other), &(1000, None), "the shares");
}

// Returns 5,000 keys, in increasing order.
fn sorted_keys(alloc: Global, spread: Spread) -> Result<Vec<u64>, AllocError> {
    let mut keys = Vec::new(alloc);
    add_sorted(spread, &mut keys)?;
    Ok(keys)
}

// Adds 5,000 keys, and sorts all.
fn add_sorted(spread: Spread, keys: &mut Vec<u64>) -> Result<(), AllocError> {
    for number in 0..5_000 {
        keys.push(spread.key(number))?;
    }
    keys.sort()
}

// Counts the keys that equal the one before, and the keys that are one above it.
fn count_neighbours(keys: &[u64]) -> (u64, u64) {
    let mut same: u64 = 0;
    let mut next: u64 = 0;
    let mut before = None;
    for key in keys {
        if before == Some(*key) {
            same = same.wrapping_add(1);
        }
        if before == key.checked_sub(1) && before.is_some() {
            next = next.wrapping_add(1);
        }
        before = Some(*key);
    }
    (same, next)
}

// Does the same for 5,000 keys with this spread.
fn neighbours(alloc: Global, spread: Spread) -> Result<(u64, u64), AllocError> {
    let keys = sorted_keys(alloc, spread)?;
    Ok(count_neighbours(&keys))
}

#[test]
fn keys_are_different_and_lie_as_they_are_to(rt: HostRuntime) {
    // the spread, the number of 5,000 keys that are one above another
    let cases = [
        (Spread::Uniform, 0),
        (Spread::Rising, 4_999),
        (Spread::Clustered, 4_995),
    ];
    for (spread, beside) in cases {
        let counts = neighbours(rt.alloc(), spread);
        same(&rt, &counts, &Ok((0, beside)), spread);
    }
}
