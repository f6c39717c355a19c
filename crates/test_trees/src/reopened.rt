//! Trees that run full and are followed by larger ones (`ist_reopen`).
ghost use Rattle.std.specs.Prelude.{◌≡◌, length, IfOk};

use crate::asking::ask;
use crate::judging::same;
use ist_core::Pair;
use ist_image::Image;
use ist_reopen::{MOST_WORDS, NotReopened, ReopenFault, open_after, reopen};
use ist_rest::Closed;
use ist_tree::{Maker, OpenFault, Pass, Tree};
use std::alloc::{AllocError, Global};
use std::process::Abort;
use test_tools::Asked;

// Puts keys from `first` on, each with three times itself as the value. Returns the first that was
// refused, or `end`.
fn put_until_full(tree: &Tree, pass: &mut Pass, first: u64, end: u64) -> u64
    requires same_tree { pass.old.tree ≡ tree.now }
    ensures same_tree { pass.new.tree ≡ tree.now }
{
    for key in first..end {
        if ask(tree, pass, Asked::Put(key, key.wrapping_mul(3))).is_err() {
            return key;
        }
    }
    end
}

// The same by a first pass, which is then given back.
fn fill(tree: &Tree, maker: &mut Maker, first: u64, end: u64) -> u64
    requires same_tree { maker.old.tree ≡ tree.now }
    requires no_passes { maker.old.made ≡ 0 }
    requires none_taken { length maker.old.taken ≡ 0 }
    ensures same_tree { maker.new.tree ≡ tree.now }
    ensures all_back { length maker.new.taken ≡ maker.new.made }
{
    let mut pass = tree.pass(maker);
    let next = put_until_full(tree, &mut pass, first, end);
    tree.take_back(maker, pass);
    next
}

// Goes on in a tree of `words` words that begins with what the last one left.
fn go_on(
    alloc: Global,
    image: &mut Image,
    tree: Tree,
    maker: Maker,
    words: u32,
    first: u64,
    end: u64,
) -> Result<(Tree, Maker, u64), ReopenFault>
    requires same_tree { maker.tree ≡ tree }
    requires all_back { length maker.taken ≡ maker.made }
    ensures same_tree { IfOk result (λ t. t.1.tree ≡ t.0) }
    ensures all_back { IfOk result (λ t. length t.1.taken ≡ t.1.made) }
{
    match reopen(alloc, image, tree, maker, words) {
        Ok((tree, mut maker)) => {
            let next = fill(&tree, &mut maker, first, end);
            Ok((tree, maker, next))
        }
        Err(refused) => Err(refused.fault),
    }
}

// Puts the keys below `end` into three trees, one after another. Returns how many were put after
// each tree, and the pairs of the last.
fn put_in_three(alloc: Global, end: u64) -> Result<([u64; 3], Vec<Pair>), ReopenFault> {
    let mut image = Image::new(alloc);
    let (tree, mut maker) = Tree::open_over(alloc, &mut image, 100, &[])?;
    let one = fill(&tree, &mut maker, 0, end);
    let (tree, maker, two) = go_on(alloc, &mut image, tree, maker, 800, one, end)?;
    let (tree, maker, three) = go_on(alloc, &mut image, tree, maker, 20_000, two, end)?;
    let pairs = tree.close(maker).pairs(alloc)?;
    Ok(([one, two, three], pairs))
}

// Whether these are the pairs with the keys from 0 on, each with three times its key as the value.
fn are_threefold(pairs: &[Pair]) -> bool {
    let mut key = 0u64;
    for pair in pairs {
        let value = key.wrapping_mul(3);
        if *pair != (Pair { key, value }) {
            return false;
        }
        key = key.wrapping_add(1);
    }
    true
}

// Whether each of the first two trees took a part of 100 keys, how many were put after the third, how many pairs that has, and
// whether these are right.
fn see_three(alloc: Global) -> Result<(bool, u64, usize, bool), ReopenFault> {
    let ([one, two, three], pairs) = put_in_three(alloc, 100)?;
    let rise = 0 < one && one < two && two < 100;
    Ok((rise, three, pairs.len(), are_threefold(&pairs)))
}

#[test]
fn puts_go_on_after_a_tree_ran_full_and_no_pair_is_lost(rt: HostRuntime) {
    let seen = see_three(rt.alloc());
    same(&rt, &seen, &Ok((true, 100, 100, true)), "three trees");
}

// A tree of 16 words with the pair (5, 7), which is asked to go on with so many words.
fn reopened(alloc: Global, words: u32) -> Result<Result<u64, NotReopened>, OpenFault> {
    let mut image = Image::new(alloc);
    let pairs = [Pair { key: 5, value: 7 }];
    let (tree, maker) = Tree::open_over(alloc, &mut image, 16, &pairs)?;
    match reopen(alloc, &mut image, tree, maker, words) {
        Ok((tree, maker)) => Ok(Ok(tree.close(maker).used())),
        Err(refused) => Ok(Err(refused)),
    }
}

// How many words a tree of the closed one's pairs uses.
fn used_after(alloc: Global, closed: &Closed, words: u32) -> Result<u64, ReopenFault> {
    let mut image = Image::new(alloc);
    let (tree, maker) = open_after(alloc, &mut image, closed, words)?;
    Ok(tree.close(maker).used())
}

// Whether the closed tree has its pair; how many words a tree of so many uses that follows it, or why none does; and the same of 6.
type Later = (bool, Result<u64, ReopenFault>, Result<u64, ReopenFault>);

fn see_later(alloc: Global, closed: &Closed, words: u32) -> Result<Later, AllocError> {
    let pairs = [Pair { key: 5, value: 7 }];
    let has_pair = closed.pairs(alloc)?.as_slice() == pairs.as_slice();
    let again = used_after(alloc, closed, words);
    Ok((has_pair, again, used_after(alloc, closed, 6)))
}

// Why a tree of 16 words isn't followed by one of so many, if it isn't, and what is seen of it later.
fn see_refused(alloc: Global, words: u32) -> Result<Option<(ReopenFault, Later)>, OpenFault> {
    let Err(refused) = reopened(alloc, words)? else {
        return Ok(None);
    };
    let later = see_later(alloc, &refused.closed, words)?;
    Ok(Some((refused.fault, later)))
}

// Fails unless a tree isn't followed by one of so many words, for this reason, and then again not, but by one of 6.
fn is_followed_later(rt: &impl Abort, alloc: Global, words: u32, fault: ReopenFault) {
    let wanted = Some((fault, (true, Err(fault), Ok(6))));
    same(rt, &see_refused(alloc, words), &Ok(wanted), words);
}

#[test]
fn a_closed_tree_that_is_not_followed_can_be_followed_later(rt: HostRuntime) {
    let small = ReopenFault::Small {
        needed: 6,
        words: 5,
    };
    is_followed_later(&rt, rt.alloc(), 5, small);
    let words = MOST_WORDS + 1;
    is_followed_later(&rt, rt.alloc(), words, ReopenFault::Beyond { words });
}
