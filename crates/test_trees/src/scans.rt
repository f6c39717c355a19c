//! Shots of small trees: their totals, bins, lists and walks, and what stays when the tree goes on.
ghost use Rattle.std.specs.Prelude.{◌≡◌};
ghost use Rattle.ist_tree.specs.Freezing.{IsFrozenFor};

use crate::judging::same;
use crate::shots::{
    first_wrong, put_all, put_beside, rebuild_beside, remove_beside, shot_of, sum_and_first_wrong,
};
use ist_core::{Full, Pair, Reply};
use ist_scan::{ListFault, Shot, Total, list_by_both};
use ist_tree::{OpenFault, Pass, Tree};
use std::alloc::Global;

// The keys 0, 10, .. 90 with the values 0, 1, .. 9.
const TEN: [Pair; 10] = [
    Pair { key: 0, value: 0 },
    Pair { key: 10, value: 1 },
    Pair { key: 20, value: 2 },
    Pair { key: 30, value: 3 },
    Pair { key: 40, value: 4 },
    Pair { key: 50, value: 5 },
    Pair { key: 60, value: 6 },
    Pair { key: 70, value: 7 },
    Pair { key: 80, value: 8 },
    Pair { key: 90, value: 9 },
];

const ONE: Pair = Pair { key: 1, value: 1 };

// A total of some pairs.
fn total(keys: u64, sum: u128, least: u64, greatest: u64) -> Total {
    Total {
        keys,
        sum,
        least: Some(least),
        greatest: Some(greatest),
    }
}

// How many keys a shot has, its totals of three intervals, and three bins of 40 keys.
fn read_of(tree: &Tree, pass: &mut Pass, shot: &Shot) -> (u64, [Total; 3], [Total; 3])
    requires same_tree { pass.old.tree ≡ tree.now }
    requires frozen { IsFrozenFor pass.old shot.now }
{
    let totals = [
        shot.total(tree, pass, 20, 50),
        shot.total(tree, pass, 21, 29),
        shot.total(tree, pass, 0, u64::MAX),
    ];
    let mut bins = [Total::of_none(); 3];
    shot.bins(tree, pass, 0, 40, &mut bins);
    (shot.keys(), totals, bins)
}

// The same of a shot of the ten pairs.
fn read_of_ten(alloc: Global) -> Result<(u64, [Total; 3], [Total; 3]), OpenFault> {
    let (tree, mut pass, shot) = shot_of(alloc, &TEN)?;
    let read = read_of(&tree, &mut pass, &shot);
    Ok(read)
}

#[test]
fn ten_readings_are_added_up_between_keys_and_in_bins(rt: HostRuntime) {
    let totals = [total(4, 14, 2, 5), Total::of_none(), total(10, 45, 0, 9)];
    let bins = [total(4, 6, 0, 3), total(4, 22, 4, 7), total(2, 17, 8, 9)];
    let wanted = (10, totals, bins);
    same(&rt, &read_of_ten(rt.alloc()), &Ok(wanted), "the ten pairs");
}

#[test]
fn a_list_a_walk_and_a_total_agree_on_each_interval(rt: HostRuntime) {
    // first, last, the part of the ten pairs
    let cases = [
        (0, u64::MAX, 0, 10),
        (0, 0, 0, 1),
        (1, 9, 1, 1),
        (10, 10, 1, 2),
        (5, 45, 1, 5),
        (20, 50, 2, 6),
        (81, 90, 9, 10),
        (90, u64::MAX, 9, 10),
        (91, u64::MAX, 10, 10),
        (50, 20, 5, 5),
        (u64::MAX, 0, 5, 5),
    ];
    let found = sum_and_first_wrong(rt.alloc(), &TEN, &cases);
    same(&rt, &found, &Ok((45, None)), "the ten pairs");
}

// An interval whose list, walk and total aren't those of its part of the pairs, if there is one.
type Wrong = Option<(u64, u64)>;

// What the removal of key 1 is told beside a shot, and what that shot then lists wrong; how many keys a later shot
// has, and what that lists wrong.
type Removed = Result<(Result<Reply, Full>, Wrong, u64, Wrong), ListFault>;

fn remove_and_list(alloc: Global, tree: &Tree, pass: &mut Pass, shot: &Shot) -> Removed
    requires same_tree { pass.old.tree ≡ tree.now }
    requires frozen { IsFrozenFor pass.old shot.now }
{
    let removed = remove_beside(tree, pass, shot, 1);
    let cases = [(0, 9, 0, 1)];
    let kept = first_wrong(alloc, tree, pass, shot, &[ONE], &cases)?;
    let later = Shot::take(tree, pass)?;
    let cases = [(0, 9, 0, 0)];
    let left = first_wrong(alloc, tree, pass, &later, &[ONE], &cases)?;
    Ok((removed, kept, later.keys(), left))
}

// The same in a tree of the one pair.
fn remove_from_one(alloc: Global) -> Result<Removed, OpenFault> {
    let (tree, mut pass, shot) = shot_of(alloc, &[ONE])?;
    let removed = remove_and_list(alloc, &tree, &mut pass, &shot);
    Ok(removed)
}

#[test]
fn a_shot_keeps_a_key_that_was_removed_since_and_a_new_one_has_none(rt: HostRuntime) {
    let wanted = (Ok(Some(1)), None, 0, None);
    let found = remove_from_one(rt.alloc());
    same(&rt, &found, &Ok(Ok(wanted)), "the one pair");
}

// Ten times puts a pair and takes another shot. Gives how many of these were taken.
fn rebuild_ten(tree: &Tree, pass: &mut Pass, shot: &Shot) -> Result<u64, Full>
    requires same_tree { pass.old.tree ≡ tree.now }
    requires frozen { IsFrozenFor pass.old shot.now }
    ensures same_tree { pass.new.tree ≡ tree.now }
    ensures frozen { IsFrozenFor pass.new shot.now }
{
    let mut taken: u64 = 0;
    for value in 100..110 {
        put_beside(tree, pass, shot, Pair { key: 20, value })?;
        if rebuild_beside(tree, pass, shot) {
            taken = taken.wrapping_add(1);
        }
    }
    Ok(taken)
}

// How many further shots were taken, what the first one then lists wrong, and what the last one has at the key that
// was put.
type Rebuilt = Result<(Result<u64, Full>, Wrong, Total), ListFault>;

fn rebuild_and_read(alloc: Global, tree: &Tree, pass: &mut Pass, shot: &Shot) -> Rebuilt
    requires same_tree { pass.old.tree ≡ tree.now }
    requires frozen { IsFrozenFor pass.old shot.now }
{
    let taken = rebuild_ten(tree, pass, shot);
    let cases = [(0, u64::MAX, 0, 10)];
    let wrong = first_wrong(alloc, tree, pass, shot, &TEN, &cases)?;
    let later = Shot::take(tree, pass)?;
    Ok((taken, wrong, later.total(tree, pass, 20, 20)))
}

// The same in a tree of the ten pairs.
fn rebuild_of_ten(alloc: Global) -> Result<Rebuilt, OpenFault> {
    let (tree, mut pass, shot) = shot_of(alloc, &TEN)?;
    let rebuilt = rebuild_and_read(alloc, &tree, &mut pass, &shot);
    Ok(rebuilt)
}

#[test]
fn a_shot_is_read_as_it_was_after_ten_further_rebuilds(rt: HostRuntime) {
    let wanted = (Ok(10), None, total(1, 109, 109, 109));
    let found = rebuild_of_ten(rt.alloc());
    same(&rt, &found, &Ok(Ok(wanted)), "the ten pairs");
}

// The first four pairs of a list.
fn first_four(list: &[Pair]) -> [Option<Pair>; 4] {
    [
        list.get(0).copied(),
        list.get(1).copied(),
        list.get(2).copied(),
        list.get(3).copied(),
    ]
}

// The first four pairs that each of two passes lists of a shot from key 20 to key 40. One of them put the ten pairs and
// takes it, and the other learns of both by a note.
type Lists = Result<[[Option<Pair>; 4]; 2], ListFault>;

fn list_by_two(alloc: Global, tree: &Tree, taker: &mut Pass, other: &mut Pass) -> Lists
    requires same_tree { taker.old.tree ≡ tree.now }
    requires other_tree { other.old.tree ≡ tree.now }
{
    put_all(tree, taker, &TEN)?;
    let (taken, learnt) = list_by_both(alloc, tree, taker, other, 20, 40)?;
    Ok([first_four(&taken), first_four(&learnt)])
}

// The same in a new tree.
fn list_in_new_tree(alloc: Global) -> Result<Lists, OpenFault> {
    let (tree, mut maker) = Tree::open(alloc, 20_000, &[])?;
    let mut taker = tree.pass(&mut maker);
    let mut other = tree.pass(&mut maker);
    let lists = list_by_two(alloc, &tree, &mut taker, &mut other);
    Ok(lists)
}

#[test]
fn two_passes_list_one_shot_alike(rt: HostRuntime) {
    let part = [Some(TEN[2]), Some(TEN[3]), Some(TEN[4]), None];
    let lists = list_in_new_tree(rt.alloc());
    let of = "the pass that took it, and the one that learnt of it";
    same(&rt, &lists, &Ok(Ok([part, part])), of);
}
