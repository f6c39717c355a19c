//! How many words shots take, and shots that are taken only if enough words are left.
ghost use Rattle.std.specs.Prelude.{◌≡◌, ◌≤◌};

use crate::asking::ask;
use crate::judging::same;
use crate::openings::{close_by, numbered, open_with, two_pairs_and_pass};
use ist_core::{Full, Reply};
use ist_image::needed_words;
use ist_scan::{Shot, shot_words};
use ist_tree::{OpenFault, Pass, Tree};
use std::alloc::Global;
use std::process::Abort;
use test_tools::Asked::{Find, Put, Remove};

// How many words a shot takes, by the words left before and after it, if one is taken.
fn room_taken(tree: &Tree, pass: &mut Pass) -> Option<u64>
    requires same_tree { pass.old.tree ≡ tree.now }
    ensures same_tree { pass.new.tree ≡ tree.now }
{
    let before = tree.room(pass);
    let taken = Shot::take(tree, pass).is_ok();
    let after = tree.room(pass);
    if taken {
        Some(before.wrapping_sub(after))
    } else {
        None
    }
}

// The same of a new tree of so many keys, and by the words of the closed tree.
fn words_taken(alloc: Global, keys: u64) -> Result<(u64, u64), OpenFault>
    requires few { keys ≤ 100000 }
{
    let plain = numbered(alloc, 1, keys + 1, 0)?;
    let (tree, mut maker) = open_with(alloc, 2_000_000, &plain)?;
    let mut pass = tree.pass(&mut maker);
    let taken = room_taken(&tree, &mut pass);
    let closed = close_by(tree, maker, pass);
    match taken {
        Some(words) if closed.settled() => {
            Ok((words, closed.used().wrapping_sub(needed_words(keys))))
        }
        _ => Ok((0, 0)),
    }
}

// Fails unless a shot of a new tree of so many keys takes so many words.
fn takes(rt: &impl Abort, alloc: Global, keys: u64, words: u64)
    requires few { keys ≤ 100000 }
{
    same(rt, &words_taken(alloc, keys), &Ok((words, words)), keys);
}

// Fails unless it is said that it takes so many, and it does.
fn takes_said(rt: &impl Abort, alloc: Global, keys: u64, words: u64)
    requires few { keys ≤ 100000 }
{
    same(rt, &shot_words(keys), &words, keys);
    takes(rt, alloc, keys, words);
}

#[test]
fn a_shot_takes_the_words_that_are_said(rt: HostRuntime) {
    let alloc = rt.alloc();
    // the keys, and 23 words more than those of the inner rows
    takes_said(&rt, alloc, 2, 30);
    takes_said(&rt, alloc, 3, 37);
    takes_said(&rt, alloc, 10, 81);
    takes_said(&rt, alloc, 16, 118);
    takes_said(&rt, alloc, 400, 2526);
}

#[test]
fn so_does_a_shot_of_many_keys(rt: HostRuntime) {
    for keys in [100, 255, 256, 257, 1_000, 95_023] {
        takes(&rt, rt.alloc(), keys, shot_words(keys));
    }
}

#[test]
fn an_empty_tree_and_a_leaf_are_shot_without_words(rt: HostRuntime) {
    takes(&rt, rt.alloc(), 0, 0);
    takes(&rt, rt.alloc(), 1, 0);
}

// What a remove of 9 is told, how many keys a shot then has, and how many words it takes.
fn remove_and_shoot(tree: &Tree, pass: &mut Pass) -> (Result<Reply, Full>, Result<u64, Full>, u64)
    requires same_tree { pass.old.tree ≡ tree.now }
{
    let removed = ask(tree, pass, Remove(9));
    let before = tree.room(pass);
    let keys = keys_taken(tree, pass, true, 1);
    (removed, keys, before.wrapping_sub(tree.room(pass)))
}

// The same in a tree of two pairs.
fn shot_of_one_left(
    alloc: Global,
) -> Result<(Result<Reply, Full>, Result<u64, Full>, u64), OpenFault> {
    let (tree, mut pass) = two_pairs_and_pass(alloc, 100)?;
    Ok(remove_and_shoot(&tree, &mut pass))
}

#[test]
fn one_key_left_below_a_row_costs_the_start_and_the_finish(rt: HostRuntime) {
    let wanted = (Ok(Some(1)), Ok(1), shot_words(1));
    same(
        &rt,
        &shot_of_one_left(rt.alloc()),
        &Ok(wanted),
        "one key left",
    );
}

// How many keys a shot has that is taken if there is room for so many keys, or without a look.
fn keys_taken(tree: &Tree, pass: &mut Pass, looks: bool, keys: u32) -> Result<u64, Full>
    requires same_tree { pass.old.tree ≡ tree.now }
    ensures same_tree { pass.new.tree ≡ tree.now }
{
    if looks {
        let shot = Shot::take_if_room(tree, pass, shot_words(u64::from(keys)))?;
        Ok(shot.keys())
    } else {
        let shot = Shot::take(tree, pass)?;
        Ok(shot.keys())
    }
}

// What a tree is told after two shots.
#[derive(Debug, PartialEq, Drop)]
struct Told {
    two: (Result<u64, Full>, Result<u64, Full>),
    third: Result<u64, Full>,
    kept: Option<Full>,
    put: Result<Reply, Full>,
    find: Result<Reply, Full>,
}

// What a tree is told of three shots, and of a put and a find after them.
fn shoot_three(tree: &Tree, pass: &mut Pass, looks: bool) -> Told
    requires same_tree { pass.old.tree ≡ tree.now }
{
    let first = keys_taken(tree, pass, looks, 2);
    let second = keys_taken(tree, pass, looks, 2);
    let third = keys_taken(tree, pass, looks, 2);
    let kept = pass.rebuild_refused();
    let put = ask(tree, pass, Put(7, 3));
    let find = ask(tree, pass, Find(9));
    Told {
        two: (first, second),
        third,
        kept,
        put,
        find,
    }
}

// The same of a tree of two pairs and 100 words.
fn third_shot(alloc: Global, looks: bool) -> Result<Told, OpenFault> {
    let (tree, mut pass) = two_pairs_and_pass(alloc, 100)?;
    Ok(shoot_three(&tree, &mut pass, looks))
}

#[test]
fn a_shot_without_room_is_refused_and_puts_go_on(rt: HostRuntime) {
    let full = Full {
        next: 75,
        asked: 30,
        words: 100,
    };
    let wanted = Told {
        two: (Ok(2), Ok(2)),
        third: Err(full),
        kept: None,
        put: Ok(None),
        find: Ok(Some(1)),
    };
    same(
        &rt,
        &third_shot(rt.alloc(), true),
        &Ok(wanted),
        "with a look",
    );
}

#[test]
fn without_the_look_it_is_taken_and_no_put_is(rt: HostRuntime) {
    let full = Full {
        next: 96,
        asked: 9,
        words: 100,
    };
    let wanted = Told {
        two: (Ok(2), Ok(2)),
        third: Ok(2),
        kept: Some(full),
        put: Err(full),
        find: Ok(Some(1)),
    };
    same(
        &rt,
        &third_shot(rt.alloc(), false),
        &Ok(wanted),
        "without a look",
    );
}
