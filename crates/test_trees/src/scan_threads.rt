//! Shots beside threads that put and remove.
ghost use Rattle.std.specs.Prelude.{◌≡◌, ◌≤◌};

use crate::asking::ask;
use crate::judging::same;
use crate::shots::list_alike;
use ist_core::Pair;
use ist_scan::Shot;
use ist_tree::{OpenFault, Pass, Tree};
use std::alloc::{AllocError, Global};
use std::thread::{Threads, join};
use test_tools::Asked;

// How many keys each thread puts and removes.
const KEYS: u64 = 300;

// What a thread saw: how many shots it took, and how many of them weren't one moment of the writers.
#[derive(Drop)]
struct ShotCounts {
    taken: u64,
    others: u64,
}

// Puts the keys that are `start` and each second one after, rising, and then removes them, rising.
fn write(tree: &Tree, pass: Pass, start: u64) -> bool
    requires same_tree { pass.tree ≡ tree.now }
    requires low { start ≤ 1 }
{
    let mut pass = pass;
    let mut answered = true;
    for i in 0..KEYS {
        let key = start + 2 * i;
        answered = ask(tree, &mut pass, Asked::Put(key, key)).is_ok() && answered;
    }
    for j in 0..KEYS {
        let key = start + 2 * j;
        answered = ask(tree, &mut pass, Asked::Remove(key)) == Ok(Some(key)) && answered;
    }
    answered
}

// Whether the keys with this remainder by two follow one another, each with its own value.
fn is_row(pairs: &[Pair], remainder: u64) -> bool {
    let mut before = None;
    let mut follows = true;
    for pair in pairs {
        if pair.key % 2 == remainder {
            let next = match before {
                Some(key) => pair.key.checked_sub(2) == Some(key),
                None => true,
            };
            follows = follows && next && pair.value == pair.key;
            before = Some(pair.key);
        }
    }
    follows
}

// Takes a shot, and lists it twice. Gives whether both lists are one moment of the writers.
fn look(alloc: Global, tree: &Tree, pass: &mut Pass) -> Result<bool, AllocError>
    requires same_tree { pass.old.tree ≡ tree.now }
    ensures same_tree { pass.new.tree ≡ tree.now }
{
    let Ok(shot) = Shot::take(tree, pass) else {
        return Ok(false);
    };
    let once = list_alike(alloc, tree, pass, &shot, 0, u64::MAX)?;
    let again = list_alike(alloc, tree, pass, &shot, 0, u64::MAX)?;
    let Some(pairs) = once else {
        return Ok(false);
    };
    let keys = pairs.len() as u64;
    let in_rows = is_row(&pairs, 0) && is_row(&pairs, 1) && keys == shot.keys();
    Ok(in_rows && again == Some(pairs))
}

// Takes so many shots.
fn scan(alloc: Global, tree: &Tree, pass: Pass) -> Result<ShotCounts, AllocError>
    requires same_tree { pass.tree ≡ tree.now }
{
    let mut pass = pass;
    let mut seen = ShotCounts {
        taken: 0,
        others: 0,
    };
    for _ in 0..40 {
        if look(alloc, tree, &mut pass)? {
            seen.taken = seen.taken.wrapping_add(1);
        } else {
            seen.others = seen.others.wrapping_add(1);
        }
    }
    Ok(seen)
}

// Two threads write, and two scan. Whether each write was answered, and what each scanner saw, as `ShotCounts` has it.
fn write_and_scan<R: Threads + Sync>(
    rt: &R,
    alloc: Global,
) -> Result<(bool, (u64, u64), (u64, u64)), OpenFault> {
    let (tree, mut maker) = Tree::open(alloc, 4_000_000, &[])?;
    let even = tree.pass(&mut maker);
    let odd = tree.pass(&mut maker);
    let one = tree.pass(&mut maker);
    let two = tree.pass(&mut maker);
    let ((even, one), (odd, two)) = join(
        rt,
        ||
            requires even { even.tree ≡ tree }
            requires one { one.tree ≡ tree }
        { write_beside(rt, alloc, &tree, even, 0, one) },
        ||
            requires odd { odd.tree ≡ tree }
            requires two { two.tree ≡ tree }
        { write_beside(rt, alloc, &tree, odd, 1, two) },
    );
    let (one, two) = (one?, two?);
    Ok((
        even && odd,
        (one.taken, one.others),
        (two.taken, two.others),
    ))
}

// One thread writes beside one that scans.
fn write_beside<R: Threads + Sync>(
    rt: &R,
    alloc: Global,
    tree: &Tree,
    writer: Pass,
    start: u64,
    scanner: Pass,
) -> (bool, Result<ShotCounts, AllocError>)
    requires writer { writer.tree ≡ tree.now }
    requires scanner { scanner.tree ≡ tree.now }
    requires low { start ≤ 1 }
{
    join(
        rt,
        ||
            requires same_tree { writer.tree ≡ tree.now }
            requires low { start ≤ 1 }
        { write(tree, writer, start) },
        ||
            requires same_tree { scanner.tree ≡ tree.now }
        { scan(alloc, tree, scanner) },
    )
}

#[test]
fn each_shot_beside_threads_that_put_and_remove_is_one_moment_of_theirs(rt: HostRuntime) {
    let wanted = (true, (40, 0), (40, 0));
    for _ in 0..4 {
        let seen = write_and_scan(&rt, rt.alloc());
        same(&rt, &seen, &Ok(wanted), "the scanners");
    }
}
