//! Intervals and bins at both ends of all keys.
ghost use Rattle.std.specs.Prelude.{◌≤◌};

use crate::judging::same;
use crate::shots::{shot_of, sum_and_first_wrong};
use ist_core::Pair;
use ist_scan::Total;
use ist_tree::OpenFault;
use std::alloc::Global;

// The least key, one between, and the greatest, with the greatest value.
const FOUR: [Pair; 4] = [
    Pair {
        key: 0,
        value: u64::MAX,
    },
    Pair { key: 5, value: 7 },
    Pair {
        key: u64::MAX - 1,
        value: 3,
    },
    Pair {
        key: u64::MAX,
        value: u64::MAX,
    },
];

#[test]
fn intervals_reach_the_least_and_the_greatest_key(rt: HostRuntime) {
    // first, last, the part of the four pairs
    let cases = [
        (0, u64::MAX, 0, 4),
        (0, 0, 0, 1),
        (0, 4, 0, 1),
        (1, u64::MAX - 1, 1, 3),
        (u64::MAX, u64::MAX, 3, 4),
        (6, u64::MAX - 2, 2, 2),
    ];
    let found = sum_and_first_wrong(rt.alloc(), &FOUR, &cases);
    let wanted = (2 * u128::from(u64::MAX) + 10, None);
    same(&rt, &found, &Ok(wanted), "the four pairs");
}

// How many pairs each of three bins of a shot of the four pairs has.
fn keys_in_bins(alloc: Global, first: u64, width: u64) -> Result<[u64; 3], OpenFault>
    requires some { 1 ≤ width }
{
    let (tree, mut pass, shot) = shot_of(alloc, &FOUR)?;
    let mut bins = [Total::of_none(); 3];
    shot.bins(&tree, &mut pass, first, width, &mut bins);
    Ok([bins[0].keys, bins[1].keys, bins[2].keys])
}

#[test]
fn the_last_bins_may_end_beyond_all_keys(rt: HostRuntime) {
    // first, width, how many pairs each bin has
    let cases = [
        (0, u64::MAX, [3, 1, 0]),
        (u64::MAX - 3, 3, [1, 1, 0]),
        (u64::MAX - 1, 2, [2, 0, 0]),
        (u64::MAX, 1, [1, 0, 0]),
        (u64::MAX, u64::MAX, [1, 0, 0]),
        (5, 1, [1, 0, 0]),
    ];
    for (first, width, keys) in cases {
        let found = keys_in_bins(rt.alloc(), first, width);
        same(&rt, &found, &Ok(keys), (width, first));
    }
}
