//! Ordered reads of small trees: the pairs on both sides of a key, lists, cursors and spans.
ghost use Rattle.std.specs.Prelude.{◌≡◌, ◌≤◌};

use crate::asking::ask;
use crate::judging::same;
use crate::openings::{close_by, numbered, open_with};
use crate::shots::tree_of;
use ist_core::Pair;
use ist_find::Span;
use ist_live::{Live, at_least, at_most, list_live};
use ist_tree::{OpenFault, Pass, Tree};
use std::alloc::Global;
use std::process::Abort;
use test_tools::Asked;

// The keys 10, 20, .. 50 and the greatest of all, with the values 1 to 6, in another order.
const SIX: [Pair; 6] = [
    Pair { key: 30, value: 3 },
    Pair { key: 10, value: 1 },
    Pair {
        key: u64::MAX,
        value: 6,
    },
    Pair { key: 50, value: 5 },
    Pair { key: 20, value: 2 },
    Pair { key: 40, value: 4 },
];

// The same pairs as they rise.
const RISING: [Pair; 6] = [
    Pair { key: 10, value: 1 },
    Pair { key: 20, value: 2 },
    Pair { key: 30, value: 3 },
    Pair { key: 40, value: 4 },
    Pair { key: 50, value: 5 },
    Pair {
        key: u64::MAX,
        value: 6,
    },
];

// The next pairs at or above a key and at or below it, in a tree in which the pairs were put.
type Sides = Result<(Option<Pair>, Option<Pair>), OpenFault>;

fn sides_of(alloc: Global, pairs: &[Pair], key: u64) -> Sides {
    let (tree, mut pass) = tree_of(alloc, pairs)?;
    let above = at_least(&tree, &mut pass, key);
    let below = at_most(&tree, &mut pass, key);
    Ok((above, below))
}

// The pair of this number among the rising ones.
fn rising(number: usize) -> Option<Pair> {
    RISING.get(number).copied()
}

// Fails unless the pairs of these numbers are next to the key, and none is in an empty tree.
fn has_sides(rt: &impl Abort, alloc: Global, key: u64, above: usize, below: usize) {
    let wanted = (rising(above), rising(below));
    same(rt, &sides_of(alloc, &SIX, key), &Ok(wanted), key);
    let of = (key, "in an empty tree");
    same(rt, &sides_of(alloc, &[], key), &Ok((None, None)), of);
}

#[test]
fn each_key_has_the_next_pair_on_both_sides(rt: HostRuntime) {
    let alloc = rt.alloc();
    // the key, the number of the next pair above it and below it; no pair has number 6
    has_sides(&rt, alloc, 0, 0, 6);
    has_sides(&rt, alloc, 9, 0, 6);
    has_sides(&rt, alloc, 10, 0, 0);
    has_sides(&rt, alloc, 11, 1, 0);
    has_sides(&rt, alloc, 29, 2, 1);
    has_sides(&rt, alloc, 30, 2, 2);
    has_sides(&rt, alloc, 50, 4, 4);
    has_sides(&rt, alloc, 51, 5, 4);
    has_sides(&rt, alloc, u64::MAX - 1, 5, 4);
    has_sides(&rt, alloc, u64::MAX, 5, 5);
}

// The list of an interval in a tree in which the pairs were put.
fn list_of(alloc: Global, pairs: &[Pair], first: u64, last: u64) -> Result<Vec<Pair>, OpenFault> {
    let (tree, mut pass) = tree_of(alloc, pairs)?;
    let list = list_live(alloc, &tree, &mut pass, first, last)?;
    Ok(list)
}

// Fails unless the list, which is that of a tree in which the pairs were put, has these ones.
fn has_part(rt: &impl Abort, list: Result<Vec<Pair>, OpenFault>, part: &[Pair], of: (u64, u64)) {
    let found = match &list {
        Ok(list) => Ok(list.as_slice()),
        Err(fault) => Err(*fault),
    };
    same(rt, &found, &Ok(part), of);
}

// Fails unless the list of an interval has the rising pairs from number `low` on, to the one before `high`, and that of
// an empty tree has none.
fn lists(rt: &impl Abort, alloc: Global, first: u64, last: u64, low: usize, high: usize) {
    let part = RISING.get(low..high).unwrap_or(&[]);
    let of = (first, last);
    has_part(rt, list_of(alloc, &SIX, first, last), part, of);
    has_part(rt, list_of(alloc, &[], first, last), &[], of);
}

#[test]
fn a_list_has_the_pairs_of_its_interval(rt: HostRuntime) {
    let alloc = rt.alloc();
    // the first key, the last key, the part of the rising pairs
    lists(&rt, alloc, 0, u64::MAX, 0, 6);
    lists(&rt, alloc, 0, 9, 0, 0);
    lists(&rt, alloc, 10, 10, 0, 1);
    lists(&rt, alloc, 10, 50, 0, 5);
    lists(&rt, alloc, 11, 49, 1, 4);
    lists(&rt, alloc, 50, u64::MAX - 1, 4, 5);
    lists(&rt, alloc, 51, u64::MAX, 5, 6);
    lists(&rt, alloc, u64::MAX, u64::MAX, 5, 6);
    lists(&rt, alloc, 50, 10, 0, 0);
    lists(&rt, alloc, u64::MAX, 0, 0, 0);
}

// The keys of four pairs that a cursor reads upwards. None is 0.
fn four_up(live: &mut Live, tree: &Tree, pass: &mut Pass) -> [u64; 4]
    requires same_tree { pass.old.tree ≡ tree.now }
    ensures same_tree { pass.new.tree ≡ tree.now }
{
    [
        key_of(live.up(tree, pass)),
        key_of(live.up(tree, pass)),
        key_of(live.up(tree, pass)),
        key_of(live.up(tree, pass)),
    ]
}

// The same downwards.
fn four_down(live: &mut Live, tree: &Tree, pass: &mut Pass) -> [u64; 4]
    requires same_tree { pass.old.tree ≡ tree.now }
{
    [
        key_of(live.down(tree, pass)),
        key_of(live.down(tree, pass)),
        key_of(live.down(tree, pass)),
        key_of(live.down(tree, pass)),
    ]
}

// The key of the pair, or 0.
fn key_of(pair: Option<Pair>) -> u64 {
    match pair {
        Some(pair) => pair.key,
        None => 0,
    }
}

// What a cursor reads upwards from a key, and then downwards, in a tree in which the pairs were put.
fn turn_of(alloc: Global, from: u64) -> Result<([u64; 4], [u64; 4]), OpenFault> {
    let (tree, mut pass) = tree_of(alloc, &SIX)?;
    let mut live = Live::below(from);
    let up = four_up(&mut live, &tree, &mut pass);
    Ok((up, four_down(&mut live, &tree, &mut pass)))
}

#[test]
fn a_cursor_goes_up_and_back_over_the_same_pairs(rt: HostRuntime) {
    const MAX: u64 = u64::MAX;
    // where it begins, the keys upwards, and then downwards
    let cases = [
        (0, [10, 20, 30, 40], [40, 30, 20, 10]),
        (10, [10, 20, 30, 40], [40, 30, 20, 10]),
        (31, [40, 50, MAX, 0], [MAX, 50, 40, 30]),
        (51, [MAX, 0, 0, 0], [MAX, 50, 40, 30]),
        (MAX, [MAX, 0, 0, 0], [MAX, 50, 40, 30]),
    ];
    for (from, up, down) in cases {
        same(&rt, &turn_of(rt.alloc(), from), &Ok((up, down)), from);
    }
}

// What a cursor above a key reads first, upwards and downwards.
fn above_of(alloc: Global, key: u64) -> Result<(u64, u64), OpenFault> {
    let (tree, mut pass) = tree_of(alloc, &SIX)?;
    let up = key_of(Live::above(key).up(&tree, &mut pass));
    let down = key_of(Live::above(key).down(&tree, &mut pass));
    Ok((up, down))
}

#[test]
fn a_cursor_above_a_key_has_it_below(rt: HostRuntime) {
    // the key, the next key above it, the next at it or below it
    let cases = [
        (0, 10, 0),
        (10, 20, 10),
        (50, u64::MAX, 50),
        (u64::MAX, 0, u64::MAX),
    ];
    for (key, up, down) in cases {
        same(&rt, &above_of(rt.alloc(), key), &Ok((up, down)), key);
    }
}

// Whether the list of a tree of so many keys in which each third key was removed, each second put again and some
// added is that of the same tree once it is closed, and how many pairs it has.
fn list_and_closed(alloc: Global, keys: u64) -> Result<(bool, u64), OpenFault>
    requires few { keys ≤ 1000 }
{
    let plain = numbered(alloc, 1, keys + 1, 0)?;
    let (tree, mut maker) = open_with(alloc, 100_000, &plain)?;
    let mut pass = tree.pass(&mut maker);
    change_some(&tree, &mut pass, keys);
    let list = list_live(alloc, &tree, &mut pass, 0, u64::MAX)?;
    let pairs = close_by(tree, maker, pass).pairs(alloc)?;
    Ok((list == pairs, list.len() as u64))
}

// Removes each third key up to twice this one, and puts each second.
fn change_some(tree: &Tree, pass: &mut Pass, keys: u64)
    requires same_tree { pass.old.tree ≡ tree.now }
    requires few { keys ≤ 1000 }
    ensures same_tree { pass.new.tree ≡ tree.now }
{
    for key in 0..2 * keys {
        if key % 3 == 0 {
            let _ = ask(tree, pass, Asked::Remove(key));
        } else if key % 2 == 0 {
            let _ = ask(tree, pass, Asked::Put(key, 7));
        }
    }
}

#[test]
fn a_list_at_rest_is_that_of_the_closed_tree(rt: HostRuntime) {
    // the keys at first, the number of pairs then: the even ones below twice as many, and the odd ones at
    // first, without those that 3 divides
    let cases = [(0, 0), (1, 1), (20, 20), (400, 399)];
    for (keys, count) in cases {
        let seen = list_and_closed(rt.alloc(), keys);
        same(&rt, &seen, &Ok((true, count)), keys);
    }
}

// The span of a key in a tree of the pairs (1, 1), (2, 2) and (3, 3).
fn span_of(alloc: Global, key: u64) -> Result<Span, OpenFault> {
    let plain = numbered(alloc, 1, 4, 0)?;
    let (tree, mut maker) = open_with(alloc, 100, &plain)?;
    let mut pass = tree.pass(&mut maker);
    Ok(tree.span(&mut pass, key))
}

#[test]
fn a_span_has_one_pair_and_the_keys_up_to_the_next(rt: HostRuntime) {
    // the key, the ends of its span, the key and value of its pair
    let cases = [
        (0, 0, 1, 1),
        (1, 0, 1, 1),
        (2, 2, 2, 2),
        (3, 3, u64::MAX, 3),
        (u64::MAX, 3, u64::MAX, 3),
    ];
    for (asked, first, last, number) in cases {
        let pair = Some(Pair {
            key: number,
            value: number,
        });
        let span = Span { first, last, pair };
        same(&rt, &span_of(rt.alloc(), asked), &Ok(span), asked);
    }
}
