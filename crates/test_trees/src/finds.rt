//! Two threads that find in one large tree.
ghost use Rattle.std.specs.Prelude.{◌≡◌};

use crate::asking::find;
use crate::judging::same;
use crate::openings::{numbered, open_with};
use ist_tree::{OpenFault, Pass, Tree};
use std::alloc::Global;
use std::thread::{Threads, join};

// What the opening values are above their keys.
const MORE: u64 = 1 << 40;

// How many of these keys are found with their opening values.
fn found_right(tree: &Tree, pass: Pass, first: u64, end: u64) -> u64
    requires same_tree { pass.tree ≡ tree.now }
{
    let mut pass = pass;
    let mut right: u64 = 0;
    for key in first..end {
        if find(tree, &mut pass, key) == Some(key.wrapping_add(MORE)) {
            right = right.wrapping_add(1);
        }
    }
    right
}

// How many keys each of two threads finds right, of which one also asks for a key that isn't there.
fn found_by_two<R: Threads + Sync>(rt: &R, tree: &Tree, one: Pass, two: Pass) -> (u64, u64)
    requires one_tree { one.tree ≡ tree.now }
    requires two_tree { two.tree ≡ tree.now }
{
    join(
        rt,
        ||
            requires same_tree { one.tree ≡ tree.now }
        { found_right(tree, one, 0, 100_000) },
        ||
            requires same_tree { two.tree ≡ tree.now }
        { found_right(tree, two, 0, 100_001) },
    )
}

// The same in a new tree.
fn found_in_new_tree<R: Threads + Sync>(rt: &R, alloc: Global) -> Result<(u64, u64), OpenFault> {
    let plain = numbered(alloc, 0, 100_000, MORE)?;
    let (tree, mut maker) = open_with(alloc, 1_000_000, &plain)?;
    let one = tree.pass(&mut maker);
    let two = tree.pass(&mut maker);
    Ok(found_by_two(rt, &tree, one, two))
}

#[test]
fn two_threads_find_each_of_a_hundred_thousand_opening_values(rt: HostRuntime) {
    let found = found_in_new_tree(&rt, rt.alloc());
    same(&rt, &found, &Ok((100_000, 100_000)), "each thread");
}
