//! Conditional updates: worked examples of one pass, many of them compared with a plain map, and a counter that two
//! threads raise.
ghost use Rattle.std.specs.Prelude.{◌≡◌, ◌≤◌};

use crate::asking::find;
use crate::judging::same;
use crate::openings::two_pairs_and_pass;
use Asked::{PutIf, RemoveIf};
use ist_core::{Command, Full, Reply};
use ist_tree::{OpenFault, Pass, Tree};
use plain_map::Plain;
use std::alloc::{AllocError, Global};
use std::thread::{Threads, join};

// A conditional update: of a put the key, the expected value and the new one; of a remove the key and the expected value.
#[derive(Clone, Copy, Debug, PartialEq, Drop)]
enum Asked {
    PutIf(u64, Reply, u64),
    RemoveIf(u64, u64),
}

// Asks the tree by the pass.
fn ask(tree: &Tree, pass: &mut Pass, asked: Asked) -> Result<Reply, Full>
    requires same_tree { pass.old.tree ≡ tree.now }
    ensures same_tree { pass.new.tree ≡ tree.now }
{
    match asked {
        PutIf(key, expected, value) => tree.put_if(pass, key, expected, value),
        RemoveIf(key, expected) => tree.remove_if(pass, key, expected),
    }
}

// An update, its answer, and what a find of the key answers after it.
type Row = (Asked, Result<Reply, Full>, Reply);

// The key that is asked with.
fn key_of(asked: Asked) -> u64 {
    match asked {
        PutIf(key, _, _) => key,
        RemoveIf(key, _) => key,
    }
}

// The first row that the tree answers otherwise, if there is one.
fn first_wrong_in(tree: &Tree, pass: &mut Pass, rows: &[Row]) -> Option<usize>
    requires same_tree { pass.old.tree ≡ tree.now }
{
    let mut wrong = None;
    for (i, (asked, answer, after)) in rows.iter().enumerate() {
        let told = ask(tree, pass, *asked);
        let found = find(tree, pass, key_of(*asked));
        if wrong.is_none() && (told != *answer || found != *after) {
            wrong = Some(i);
        }
    }
    wrong
}

// The first row that a tree of the pairs (5, 7) and (9, 1) answers otherwise, if there is one.
fn first_wrong(alloc: Global, words: u32, rows: &[Row]) -> Result<Option<usize>, OpenFault>
    requires few { words ≤ 1000 }
{
    let (tree, mut pass) = two_pairs_and_pass(alloc, words)?;
    Ok(first_wrong_in(&tree, &mut pass, rows))
}

#[test]
fn an_update_takes_effect_at_the_expected_value_only(rt: HostRuntime) {
    let rows = [
        // a key with a value
        (PutIf(5, Some(8), 10), Ok(Some(7)), Some(7)),
        (PutIf(5, None, 10), Ok(Some(7)), Some(7)),
        (PutIf(5, Some(7), 10), Ok(Some(7)), Some(10)),
        (RemoveIf(5, 7), Ok(Some(10)), Some(10)),
        // a key without one, in the slot of another key
        (PutIf(6, Some(10), 11), Ok(None), None),
        (RemoveIf(6, 10), Ok(None), None),
        (PutIf(6, None, 11), Ok(None), Some(11)),
        (PutIf(6, None, 12), Ok(Some(11)), Some(11)),
        // and in an empty slot
        (RemoveIf(9, 1), Ok(Some(1)), None),
        (RemoveIf(9, 1), Ok(None), None),
        (PutIf(9, Some(1), 2), Ok(None), None),
        (PutIf(9, None, 2), Ok(None), Some(2)),
    ];
    same(
        &rt,
        &first_wrong(rt.alloc(), 1000, &rows),
        &Ok(None),
        "1000 words",
    );
}

#[test]
fn an_update_that_misses_its_value_needs_no_words(rt: HostRuntime) {
    let full = Full {
        next: 15,
        asked: 2,
        words: 15,
    };
    let rows = [
        (PutIf(5, Some(8), 10), Ok(Some(7)), Some(7)),
        (RemoveIf(6, 10), Ok(None), None),
        (PutIf(5, Some(7), 10), Err(full), Some(7)),
    ];
    same(
        &rt,
        &first_wrong(rt.alloc(), 15, &rows),
        &Ok(None),
        "15 words",
    );
}

// How many of so many updates of 20 keys the tree answers otherwise than a plain map. Each third expects another value
// than the key has.
fn unlike_plain_in(
    alloc: Global,
    tree: &Tree,
    pass: &mut Pass,
    updates: u64,
) -> Result<u64, AllocError>
    requires same_tree { pass.old.tree ≡ tree.now }
{
    let mut plain = Plain::new(alloc);
    let mut unlike: u64 = 0;
    for i in 0..updates {
        let key = i.wrapping_mul(7) % 20;
        let has = plain.apply(Command::Get { key })?;
        let expected = if i % 3 == 0 { Some(i) } else { has };
        let told = ask(tree, pass, PutIf(key, expected, i));
        if expected == has {
            plain.apply(Command::Put { key, value: i })?;
        }
        if told != Ok(has) || find(tree, pass, key) != plain.apply(Command::Get { key })? {
            unlike = unlike.wrapping_add(1);
        }
    }
    Ok(unlike)
}

// The same of a new tree.
fn unlike_plain(alloc: Global, updates: u64) -> Result<u64, OpenFault> {
    let (tree, mut maker) = Tree::open(alloc, 1_000_000, &[])?;
    let mut pass = tree.pass(&mut maker);
    let unlike = unlike_plain_in(alloc, &tree, &mut pass, updates)?;
    Ok(unlike)
}

#[test]
fn updates_that_chain_pairs_and_rebuild_rows_are_those_of_a_plain_map(rt: HostRuntime) {
    same(
        &rt,
        &unlike_plain(rt.alloc(), 3000),
        &Ok(0),
        "replies unlike those of a plain map",
    );
}

// A pass, and how often it raised the counter.
#[derive(Drop)]
struct Raised {
    pass: Pass,
    raises: u64,
}

// Tries to raise the counter at key 5 this often.
fn raise(tree: &Tree, pass: Pass, tries: u64) -> Raised
    requires same_tree { pass.tree ≡ tree.now }
    ensures same_tree { result.pass.tree ≡ tree.now }
{
    let mut pass = pass;
    let mut raises: u64 = 0;
    let mut had = find(tree, &mut pass, 5);
    for _ in 0..tries {
        let more = had.unwrap_or(0).wrapping_add(1);
        if let Ok(told) = ask(tree, &mut pass, PutIf(5, had, more)) {
            if told == had {
                raises = raises.wrapping_add(1);
                had = Some(more);
            } else {
                had = told;
            }
        }
    }
    Raised { pass, raises }
}

// Whether the counter has the number of its raises by two threads, and whether one of them at least raised it at each try.
fn raised_by_two<R: Threads + Sync>(
    rt: &R,
    alloc: Global,
    tries: u64,
) -> Result<(bool, bool), OpenFault> {
    let (tree, mut maker) = Tree::open(alloc, 4_000_000, &[])?;
    let one = tree.pass(&mut maker);
    let two = tree.pass(&mut maker);
    let (one, two) = join(
        rt,
        ||
            requires same_tree { one.tree ≡ tree }
        { raise(&tree, one, tries) },
        ||
            requires same_tree { two.tree ≡ tree }
        { raise(&tree, two, tries) },
    );
    let raises = one.raises.wrapping_add(two.raises);
    tree.take_back(&mut maker, one.pass);
    tree.take_back(&mut maker, two.pass);
    let mut last = tree.pass(&mut maker);
    let number = find(&tree, &mut last, 5);
    Ok((number == Some(raises), raises >= tries))
}

#[test]
fn a_counter_has_the_number_of_its_raises(rt: HostRuntime) {
    let raised = raised_by_two(&rt, rt.alloc(), 50_000);
    same(&rt, &raised, &Ok((true, true)), "the counter");
}
