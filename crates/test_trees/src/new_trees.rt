//! New trees, which are searched by passes that tell each other what they know, and closed.
ghost use Rattle.std.specs.Prelude.{◌≤◌, length, map};
ghost use Rattle.std.specs.List.Sorted.{IsStrictlyIncreasing};

use crate::asking::{find, find_when_told};
use crate::closed_trees::word_at;
use crate::judging::same;
use crate::openings::{FIVE, NINE, two_pairs, two_pairs_and_pass};
use ist_core::Pair;
use ist_image::Image;
use ist_rest::Closed;
use ist_tree::{OpenFault, Tree};
use std::alloc::{AllocError, Global};
use std::process::Abort;

// What a new tree of both pairs finds at a key.
fn found_at(alloc: Global, key: u64) -> Result<Option<u64>, OpenFault> {
    let (tree, mut pass) = two_pairs_and_pass(alloc, 20)?;
    Ok(find(&tree, &mut pass, key))
}

// Fails unless a new tree of both pairs finds this at the key.
fn is_found(rt: &impl Abort, alloc: Global, key: u64, value: Option<u64>) {
    same(rt, &found_at(alloc, key), &Ok(value), key);
}

#[test]
fn each_key_is_found_with_its_opening_value(rt: HostRuntime) {
    let alloc = rt.alloc();
    // the key, its value
    is_found(&rt, alloc, 5, Some(7));
    is_found(&rt, alloc, 9, Some(1));
    is_found(&rt, alloc, 6, None);
    is_found(&rt, alloc, 0, None);
    is_found(&rt, alloc, u64::MAX, None);
}

// Why a tree of so many words with the pair (5, 7) isn't opened, if it isn't.
fn fault_in(alloc: Global, words: u32) -> Option<OpenFault>
    requires few { words ≤ 1000 }
{
    let pairs = [FIVE];
    Tree::open(alloc, words, &pairs).err()
}

// Fails unless this is why a tree of so many words isn't opened.
fn is_fault(rt: &impl Abort, alloc: Global, words: u32, fault: Option<OpenFault>)
    requires few { words ≤ 1000 }
{
    same(rt, &fault_in(alloc, words), &fault, words);
}

// The fault of a tree of so many words that are less than 6.
fn small(words: u64) -> Option<OpenFault> {
    Some(OpenFault::Small { needed: 6, words })
}

#[test]
fn a_tree_is_opened_exactly_where_its_pairs_have_room(rt: HostRuntime) {
    let alloc = rt.alloc();
    // the words, the fault
    is_fault(&rt, alloc, 4, small(4));
    is_fault(&rt, alloc, 5, small(5));
    is_fault(&rt, alloc, 6, None);
    is_fault(&rt, alloc, 7, None);
}

// What a tree of the pairs, which is laid in the image, finds at 9 and then at 5.
fn found_over(
    alloc: Global,
    image: &mut Image,
    words: u32,
    pairs: &[Pair],
) -> Result<(Option<u64>, Option<u64>), OpenFault>
    requires rising { IsStrictlyIncreasing (map (λ pair. pair.key) pairs.now) }
    requires few { length pairs.now ≤ 2 }
    requires within { words ≤ 1000 }
{
    let (tree, mut maker) = Tree::open_over(alloc, image, words, pairs)?;
    let mut pass = tree.pass(&mut maker);
    Ok((find(&tree, &mut pass, 9), find(&tree, &mut pass, 5)))
}

// The same of a tree of both pairs, and of one of the least over the same image.
fn found_over_one_image(alloc: Global) -> [Result<(Option<u64>, Option<u64>), OpenFault>; 2] {
    let mut image = Image::new(alloc);
    let pairs = [FIVE, NINE];
    let both = found_over(alloc, &mut image, 20, &pairs);
    let fewer = [FIVE];
    let one = found_over(alloc, &mut image, 8, &fewer);
    [both, one]
}

#[test]
fn one_image_serves_for_two_openings(rt: HostRuntime) {
    let found = found_over_one_image(rt.alloc());
    same(
        &rt,
        &found,
        &[Ok((Some(1), Some(7))), Ok((None, Some(7)))],
        "both trees",
    );
}

// What each of three passes of a tree finds, where each is told what the one before knows; the numbers of
// the last two; and of the closed tree whether its pairs are both, the words used, and the word at 1.
type Turns = ([Option<u64>; 3], (u64, u64), (bool, u64, Option<u64>));

fn found_in_turn(alloc: Global) -> Result<Turns, OpenFault> {
    let (tree, mut maker) = two_pairs(alloc, 20)?;
    let mut first = tree.pass(&mut maker);
    let mut second = tree.pass(&mut maker);
    let in_first = find(&tree, &mut first, 5);
    drop(tree.note(&mut first));
    let in_second = find_when_told(&tree, &mut first, &mut second, 9);
    tree.take_back(&mut maker, first);
    let mut third = tree.pass(&mut maker);
    let in_third = find_when_told(&tree, &mut second, &mut third, 6);
    let numbers = (second.number(), third.number());
    tree.take_back(&mut maker, third);
    tree.take_back(&mut maker, second);
    let closed = see_closed(alloc, &tree.close(maker))?;
    Ok(([in_first, in_second, in_third], numbers, closed))
}

// Whether the pairs of the closed tree are both, the words that it uses, and its word at 1.
fn see_closed(alloc: Global, closed: &Closed) -> Result<(bool, u64, Option<u64>), AllocError> {
    let pairs = closed.pairs(alloc)?;
    let are_both = pairs.as_slice() == [FIVE, NINE].as_slice();
    Ok((are_both, closed.used(), word_at(closed, 1)))
}

#[test]
fn notes_go_from_pass_to_pass_until_the_tree_is_closed(rt: HostRuntime) {
    let wanted = ([Some(7), Some(1), None], (1, 2), (true, 15, Some(3)));
    same(&rt, &found_in_turn(rt.alloc()), &Ok(wanted), "three passes");
}
