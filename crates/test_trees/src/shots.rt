//! Steps of the tests of shots: puts and removes beside a shot, and what it answers.
ghost use Rattle.std.specs.Prelude.{◌≡◌, IfOk};
ghost use Rattle.ist_tree.specs.Freezing.{IsFrozenFor};

use crate::asking::ask;
use ist_core::{Full, Pair, Reply};
use ist_scan::{Shot, Total};
use ist_tree::{OpenFault, Pass, Tree};
use std::alloc::{AllocError, Global};
use test_tools::Asked;

/// What a tree lacks that refuses what is made in it first.
fn too_small(full: Full) -> OpenFault {
    OpenFault::Small {
        needed: full.next.wrapping_add(full.asked),
        words: full.words,
    }
}

/// A tree of 20,000 words in which the pairs were put, one after another, and its first pass.
pub(crate) fn tree_of(alloc: Global, pairs: &[Pair]) -> Result<(Tree, Pass), OpenFault>
    ensures same_tree { IfOk result (λ t. t.1.tree ≡ t.0) }
{
    let (tree, mut maker) = Tree::open(alloc, 20_000, &[])?;
    let mut pass = tree.pass(&mut maker);
    match put_all(&tree, &mut pass, pairs) {
        Ok(()) => Ok((tree, pass)),
        Err(full) => Err(too_small(full)),
    }
}

/// Puts the pairs, one after another, up to the first that is refused.
pub(crate) fn put_all(tree: &Tree, pass: &mut Pass, pairs: &[Pair]) -> Result<(), Full>
    requires same_tree { pass.old.tree ≡ tree.now }
    ensures same_tree { pass.new.tree ≡ tree.now }
{
    for pair in pairs {
        ask(tree, pass, Asked::Put(pair.key, pair.value))?;
    }
    Ok(())
}

/// Such a tree, its pass, and a shot of it.
pub(crate) fn shot_of(alloc: Global, pairs: &[Pair]) -> Result<(Tree, Pass, Shot), OpenFault>
    ensures same_tree { IfOk result (λ t. t.1.tree ≡ t.0) }
    ensures frozen { IfOk result (λ t. IsFrozenFor t.1 t.2) }
{
    let (tree, mut pass) = tree_of(alloc, pairs)?;
    match Shot::take(&tree, &mut pass) {
        Ok(shot) => Ok((tree, pass, shot)),
        Err(full) => Err(too_small(full)),
    }
}

/// Puts a pair. The shot stays taken.
pub(crate) fn put_beside(
    tree: &Tree,
    pass: &mut Pass,
    shot: &Shot,
    pair: Pair,
) -> Result<Reply, Full>
    requires same_tree { pass.old.tree ≡ tree.now }
    requires frozen { IsFrozenFor pass.old shot.now }
    ensures same_tree { pass.new.tree ≡ tree.now }
    ensures frozen { IsFrozenFor pass.new shot.now }
{
    let reply = tree.put(pass, pair.key, pair.value);
    pass.know();
    reply
}

/// Removes a key. The shot stays taken.
pub(crate) fn remove_beside(
    tree: &Tree,
    pass: &mut Pass,
    shot: &Shot,
    key: u64,
) -> Result<Reply, Full>
    requires same_tree { pass.old.tree ≡ tree.now }
    requires frozen { IsFrozenFor pass.old shot.now }
    ensures same_tree { pass.new.tree ≡ tree.now }
    ensures frozen { IsFrozenFor pass.new shot.now }
{
    let reply = tree.remove(pass, key);
    pass.know();
    reply
}

/// Takes another shot, and rebuilds the tree so. The first shot stays taken.
pub(crate) fn rebuild_beside(tree: &Tree, pass: &mut Pass, shot: &Shot) -> bool
    requires same_tree { pass.old.tree ≡ tree.now }
    requires frozen { IsFrozenFor pass.old shot.now }
    ensures same_tree { pass.new.tree ≡ tree.now }
    ensures frozen { IsFrozenFor pass.new shot.now }
{
    let other = Shot::take(tree, pass);
    pass.know();
    other.is_ok()
}

/// All pairs of a walk over the shot, one at a time.
pub(crate) fn walk_all(
    alloc: Global,
    tree: &Tree,
    pass: &mut Pass,
    shot: &Shot,
    first: u64,
    last: u64,
) -> Result<Vec<Pair>, AllocError>
    requires same_tree { pass.old.tree ≡ tree.now }
    requires frozen { IsFrozenFor pass.old shot.now }
    ensures same_tree { pass.new.tree ≡ tree.now }
    ensures frozen { IsFrozenFor pass.new shot.now }
{
    let mut walk = shot.walk(first, last);
    let mut pairs = Vec::new(alloc);
    for _ in 0..shot.keys() {
        if let Some(pair) = walk.next(tree, pass, shot) {
            pairs.push(pair)?;
        }
    }
    if let Some(pair) = walk.next(tree, pass, shot) {
        pairs.push(pair)?;
    }
    Ok(pairs)
}

/// The list of an interval, where a walk gives the same pairs and the total is theirs.
pub(crate) fn list_alike(
    alloc: Global,
    tree: &Tree,
    pass: &mut Pass,
    shot: &Shot,
    first: u64,
    last: u64,
) -> Result<Option<Vec<Pair>>, AllocError>
    requires same_tree { pass.old.tree ≡ tree.now }
    requires frozen { IsFrozenFor pass.old shot.now }
    ensures same_tree { pass.new.tree ≡ tree.now }
    ensures frozen { IsFrozenFor pass.new shot.now }
{
    let list = shot.list(alloc, tree, pass, first, last)?;
    let walked = walk_all(alloc, tree, pass, shot, first, last)?;
    let total = shot.total(tree, pass, first, last);
    if walked == list && total == total_of(&list) {
        Ok(Some(list))
    } else {
        Ok(None)
    }
}

// Whether the list has the pairs from number `low` on, to the one before `high`.
fn is_part(list: Option<Vec<Pair>>, pairs: &[Pair], low: usize, high: usize) -> bool {
    let part = pairs.get(low..high).unwrap_or(&[]);
    match list {
        Some(list) => list.as_slice() == part,
        None => false,
    }
}

/// The first interval whose list, walk and total aren't those of its part of the pairs. A case has the
/// first key, the last key, and the numbers from which on and before which the part lies.
pub(crate) fn first_wrong(
    alloc: Global,
    tree: &Tree,
    pass: &mut Pass,
    shot: &Shot,
    pairs: &[Pair],
    cases: &[(u64, u64, usize, usize)],
) -> Result<Option<(u64, u64)>, AllocError>
    requires same_tree { pass.old.tree ≡ tree.now }
    requires frozen { IsFrozenFor pass.old shot.now }
    ensures same_tree { pass.new.tree ≡ tree.now }
{
    let mut wrong = None;
    for (first, last, low, high) in cases {
        let found = list_alike(alloc, tree, pass, shot, *first, *last)?;
        if !is_part(found, pairs, *low, *high) && wrong.is_none() {
            wrong = Some((*first, *last));
        }
    }
    Ok(wrong)
}

/// The sum of the values in a shot of these pairs, and the first wrong of its intervals.
pub(crate) fn sum_and_first_wrong(
    alloc: Global,
    pairs: &[Pair],
    cases: &[(u64, u64, usize, usize)],
) -> Result<(u128, Option<(u64, u64)>), OpenFault> {
    let (tree, mut pass, shot) = shot_of(alloc, pairs)?;
    let sum = shot.total(&tree, &mut pass, 0, u64::MAX).sum;
    let wrong = first_wrong(alloc, &tree, &mut pass, &shot, pairs, cases)?;
    Ok((sum, wrong))
}

// The total with one more value.
fn with(total: Total, value: u64) -> Total {
    Total {
        keys: total.keys.wrapping_add(1),
        sum: total.sum.wrapping_add(u128::from(value)),
        least: Some(total.least.unwrap_or(value).min(value)),
        greatest: Some(total.greatest.unwrap_or(value).max(value)),
    }
}

/// The total of these pairs, by their values alone.
pub(crate) fn total_of(pairs: &[Pair]) -> Total {
    let mut total = Total::of_none();
    for pair in pairs {
        total = with(total, pair.value);
    }
    total
}
