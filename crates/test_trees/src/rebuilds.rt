//! Rebuilds after puts, with roots that are built whole and roots that are shared.
ghost use Rattle.std.specs.Prelude.{◌≡◌, ◌≤◌};

use crate::asking::ask;
use crate::judging::same;
use crate::openings::{close_by, numbered, open_with};
use crate::shapes::is_ideal;
use ist_core::{Command, Pair};
use ist_rest::Closed;
use ist_tree::{OpenFault, Pass, Tree};
use plain_map::Plain;
use std::alloc::Global;
use std::process::Abort;
use test_tools::Asked;

// Puts the numbers from 1 to `last` at a key, one after another. Gives whether each found the one before.
fn put_again(tree: &Tree, pass: &mut Pass, key: u64, first: u64, last: u64) -> bool
    requires same_tree { pass.old.tree ≡ tree.now }
    requires few { last ≤ 100000 }
    ensures same_tree { pass.new.tree ≡ tree.now }
{
    let mut before = first;
    let mut agrees = true;
    for value in 1..last + 1 {
        agrees = agrees && ask(tree, pass, Asked::Put(key, value)) == Ok(Some(before));
        before = value;
    }
    agrees
}

// What a tree is like at its close.
#[derive(Debug, PartialEq, Drop)]
struct Found {
    used: u64,
    pairs: u64,
    first: Option<Pair>,
    /// Whether it is ideal, with counts of 0.
    ideal: bool,
    /// Whether it is settled, and each put was answered right, without a refused rebuild.
    right: bool,
}

// A tree of these pairs, closed after so many puts of one key. Whether each put was answered right, without a refused
// rebuild.
fn closed_after(
    alloc: Global,
    plain: &Plain,
    key: u64,
    puts: u64,
) -> Result<(Closed, bool), OpenFault>
    requires few { puts ≤ 100000 }
{
    let (tree, mut maker) = open_with(alloc, 10_000, plain)?;
    let mut pass = tree.pass(&mut maker);
    let agrees = put_again(&tree, &mut pass, key, key, puts);
    let ample = pass.rebuild_refused().is_none();
    Ok((close_by(tree, maker, pass), agrees && ample))
}

// What the closed tree is like, which is to have these pairs.
fn found_in(
    alloc: Global,
    closed: &Closed,
    plain: &Plain,
    answered: bool,
) -> Result<Found, OpenFault> {
    let pairs = closed.pairs(alloc)?;
    let ideal = is_ideal(alloc, closed, plain)?;
    Ok(Found {
        used: closed.used(),
        pairs: pairs.len() as u64,
        first: pairs.first().copied(),
        ideal,
        right: closed.settled() && answered,
    })
}

// What a tree of so many keys is like where so many puts of one key were made in it.
fn used_by(alloc: Global, keys: u64, key: u64, puts: u64) -> Result<Found, OpenFault>
    requires few { (keys ≤ 100000) × (puts ≤ 100000) }
{
    let mut plain = numbered(alloc, 1, keys + 1, 0)?;
    let (closed, answered) = closed_after(alloc, &plain, key, puts)?;
    plain.apply(Command::Put { key, value: puts })?;
    found_in(alloc, &closed, &plain, answered)
}

// Fails unless a tree of so many keys uses so many words after so many puts of key 1, and then has its top row rebuilt or not.
fn is_used(rt: &impl Abort, alloc: Global, keys: u64, puts: u64, used: u64, ideal: bool)
    requires few { (keys ≤ 100000) × (puts ≤ 100000) }
{
    let first = Some(Pair {
        key: 1,
        value: puts,
    });
    let wanted = Found {
        used,
        pairs: keys,
        first,
        ideal,
        right: true,
    };
    same(
        rt,
        &used_by(alloc, keys, 1, puts),
        &Ok(wanted),
        (keys, puts),
    );
}

#[test]
fn rows_that_come_due_are_rebuilt_from_the_top_one_down(rt: HostRuntime) {
    let alloc = rt.alloc();
    // the keys, the puts, the words used: 4 and those of the opening, 11 a put, and for each rebuild 23 and those
    // of the new inner rows; whether the last put had the top row rebuilt
    is_used(&rt, alloc, 2, 7, 92, false);
    is_used(&rt, alloc, 2, 8, 133, true);
    is_used(&rt, alloc, 16, 8, 337, true);
    is_used(&rt, alloc, 400, 99, 6148, false);
    is_used(&rt, alloc, 400, 100, 8685, true);
}
