//! Trees that are opened with two pairs, or with a run of keys.
ghost use Rattle.std.specs.Prelude.{◌≡◌, ◌≤◌, [], IfOk};

use ist_core::{Command, Pair};
use ist_rest::Closed;
use ist_tree::{Maker, OpenFault, Pass, Tree};
use plain_map::Plain;
use std::alloc::{AllocError, Global};

/// The least of two pairs.
pub(crate) const FIVE: Pair = Pair { key: 5, value: 7 };

/// The greatest of two pairs.
pub(crate) const NINE: Pair = Pair { key: 9, value: 1 };

/// A tree of so many words with the pairs (5, 7) and (9, 1), whose rows end before 15.
pub(crate) fn two_pairs(alloc: Global, words: u32) -> Result<(Tree, Maker), OpenFault>
    requires few { words ≤ 1000 }
    ensures same_tree { IfOk result (λ t. t.1.tree ≡ t.0) }
    ensures made { IfOk result (λ t. t.1.made ≡ 0) }
    ensures taken { IfOk result (λ t. t.1.taken ≡ []) }
{
    let pairs = [FIVE, NINE];
    Tree::open(alloc, words, &pairs)
}

/// The same, and its first pass.
pub(crate) fn two_pairs_and_pass(alloc: Global, words: u32) -> Result<(Tree, Pass), OpenFault>
    requires few { words ≤ 1000 }
    ensures same_tree { IfOk result (λ t. t.1.tree ≡ t.0) }
{
    let (tree, mut maker) = two_pairs(alloc, words)?;
    let pass = tree.pass(&mut maker);
    Ok((tree, pass))
}

/// The map with the keys from `first` to the one before `end`, each with its own number and `more` as the
/// value.
pub(crate) fn numbered(
    alloc: Global,
    first: u64,
    end: u64,
    more: u64,
) -> Result<Plain, AllocError> {
    let mut plain = Plain::new(alloc);
    for key in first..end {
        let value = key.wrapping_add(more);
        plain.apply(Command::Put { key, value })?;
    }
    Ok(plain)
}

/// A tree with the pairs of the map, and its maker.
pub(crate) fn open_with(
    alloc: Global,
    words: u32,
    plain: &Plain,
) -> Result<(Tree, Maker), OpenFault>
    requires words { words ≤ 100000000 }
    ensures same_tree { IfOk result (λ t. t.1.tree ≡ t.0) }
    ensures made { IfOk result (λ t. t.1.made ≡ 0) }
    ensures taken { IfOk result (λ t. t.1.taken ≡ []) }
{
    let pairs = plain.pairs();
    if pairs.len() > 100_000 {
        return Err(OpenFault::Memory);
    }
    Tree::open(alloc, words, pairs)
}

/// Closes a tree whose only pass this is.
pub(crate) fn close_by(tree: Tree, maker: Maker, pass: Pass) -> Closed
    requires same_tree { maker.tree ≡ tree }
    requires its_tree { pass.tree ≡ tree }
    requires one_made { maker.made ≡ 1 }
    requires none_taken { maker.taken ≡ [] }
{
    let mut maker = maker;
    tree.take_back(&mut maker, pass);
    tree.close(maker)
}
