//! Trees that are frozen whole, while their words suffice and where they don't.
ghost use Rattle.std.specs.Prelude.{◌≡◌, ◌≤◌, []};

use crate::asking::find;
use crate::judging::same;
use crate::openings::{FIVE, NINE, close_by, two_pairs, two_pairs_and_pass};
use ist_core::{Full, Pair};
use ist_rest::WordList;
use ist_tree::{Maker, OpenFault, Pass, Tree};
use std::alloc::Global;

// How many keys the tree has when it is frozen whole, the first pair and the last one.
fn frozen_ends(tree: &Tree, pass: &mut Pass) -> Result<Option<(u64, Pair, Pair)>, Full>
    requires same_tree { pass.old.tree ≡ tree.now }
    ensures same_tree { pass.new.tree ≡ tree.now }
{
    let frozen = tree.freeze(pass)?;
    if frozen.keys == 0 {
        return Ok(None);
    }
    let first = tree.frozen_pair(pass, &frozen, 0);
    let last = tree.frozen_pair(pass, &frozen, frozen.keys - 1);
    Ok(Some((frozen.keys, first, last)))
}

// What a frozen tree has, as `frozen_ends` says it, and a refused rebuild; then its words that are used at the
// close, and whether it is settled.
type Frozen = (
    Result<Option<(u64, Pair, Pair)>, Full>,
    Option<Full>,
    u64,
    bool,
);

// Freezes the tree by its first pass, and closes it.
fn frozen_and_closed(tree: Tree, maker: Maker) -> Frozen
    requires same_tree { maker.tree ≡ tree }
    requires none_made { maker.made ≡ 0 }
    requires none_taken { maker.taken ≡ [] }
{
    let mut maker = maker;
    let mut pass = tree.pass(&mut maker);
    let ends = frozen_ends(&tree, &mut pass);
    let refused = pass.rebuild_refused();
    let closed = close_by(tree, maker, pass);
    (ends, refused, closed.used(), closed.settled())
}

// The same of a tree of both pairs.
fn two_frozen(alloc: Global) -> Result<Frozen, OpenFault> {
    let (tree, maker) = two_pairs(alloc, 100)?;
    Ok(frozen_and_closed(tree, maker))
}

#[test]
fn a_frozen_tree_has_its_pairs_and_the_tree_goes_on_settled(rt: HostRuntime) {
    let wanted = (Ok(Some((2, FIVE, NINE))), None, 45, true);
    same(&rt, &two_frozen(rt.alloc()), &Ok(wanted), "two pairs");
}

// How many keys of a tree of so many words are frozen, or why none are, and the refusal that the
// pass keeps.
fn frozen_in(alloc: Global, words: u32) -> Result<(Result<u64, Full>, Option<Full>), OpenFault>
    requires few { words ≤ 1000 }
{
    let (tree, mut pass) = two_pairs_and_pass(alloc, words)?;
    let keys = match tree.freeze(&mut pass) {
        Ok(frozen) => Ok(frozen.keys),
        Err(full) => Err(full),
    };
    Ok((keys, pass.rebuild_refused()))
}

#[test]
fn a_refused_building_is_kept_and_a_refused_start_is_answered(rt: HostRuntime) {
    let building = Full {
        next: 29,
        asked: 7,
        words: 29,
    };
    let built = frozen_in(rt.alloc(), 29);
    same(&rt, &built, &Ok((Ok(2), Some(building))), "29 words");
    let start = Full {
        next: 20,
        asked: 9,
        words: 28,
    };
    let begun = frozen_in(rt.alloc(), 28);
    same(&rt, &begun, &Ok((Err(start), None)), "28 words");
}

// What a tree has that a second pass freezes after the first, whether both met the same refusal, and what is found at
// 9.
type Twice = (
    bool,
    Result<Option<(u64, Pair, Pair)>, Full>,
    bool,
    Option<u64>,
);

// Freezes the tree by one pass, and then by another. Whether the first freeze was done comes first.
fn freeze_twice(tree: &Tree, first: &mut Pass, second: &mut Pass) -> Twice
    requires first_tree { first.old.tree ≡ tree.now }
    requires second_tree { second.old.tree ≡ tree.now }
    ensures first_tree { first.new.tree ≡ tree.now }
    ensures second_tree { second.new.tree ≡ tree.now }
{
    let begun = tree.freeze(first).is_ok();
    let ends = frozen_ends(tree, second);
    let alike = second.rebuild_refused() == first.rebuild_refused();
    (begun, ends, alike, find(tree, second, 9))
}

// The same in a tree of both pairs where the start takes the last words, so that the first pass leaves the rebuild
// without a root; then the word in the anchor's slot, and whether the tree is settled.
fn frozen_twice(alloc: Global) -> Result<(Twice, u64, bool), OpenFault> {
    let (tree, mut maker) = two_pairs(alloc, 29)?;
    let mut first = tree.pass(&mut maker);
    let mut second = tree.pass(&mut maker);
    let seen = freeze_twice(&tree, &mut first, &mut second);
    tree.take_back(&mut maker, first);
    tree.take_back(&mut maker, second);
    let closed = tree.close(maker);
    Ok((seen, closed.word(3), closed.settled()))
}

#[test]
fn a_tree_is_frozen_while_the_rebuild_of_another_stands_still(rt: HostRuntime) {
    let seen = (true, Ok(Some((2, FIVE, NINE))), true, Some(1));
    // the word of the rebuild at 15
    let wanted = (seen, 124, false);
    same(
        &rt,
        &frozen_twice(rt.alloc()),
        &Ok(wanted),
        "the second freeze",
    );
}

// Freezes a tree of one pair.
fn one_frozen(alloc: Global) -> Result<Frozen, OpenFault> {
    let pairs = [FIVE];
    let (tree, maker) = Tree::open(alloc, 6, &pairs)?;
    Ok(frozen_and_closed(tree, maker))
}

#[test]
fn a_leaf_is_frozen_as_it_is(rt: HostRuntime) {
    let wanted = (Ok(Some((1, FIVE, FIVE))), None, 6, true);
    same(&rt, &one_frozen(rt.alloc()), &Ok(wanted), "one leaf");
}
