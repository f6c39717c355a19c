//! The pairs between two keys in pieces, while others change the tree.
ghost use Rattle.std.specs.Prelude.{◌≡◌, ◌≤◌, IfOk};
ghost use Rattle.ist_live.specs.Reading.{HasOnlyRead};
ghost use Rattle.ist_live.specs.Lists.{AreInTurn, AreLive};
ghost use Rattle.ist_live.specs.Pieces.{IsPiece};

use crate::exchange::Fault;
use ist_core::{Full, Pair};
use ist_live::at_least;
use ist_tree::{OpenFault, Pass, Tree};
use std::alloc::{AllocError, Global};

/// How many words of 8 bytes the tree has.
const WORDS: u32 = 100_000;

/// How many pairs a piece has at most.
const PAIRS: usize = 100;

/// Some pairs of an interval, in increasing order of keys.
#[derive(Drop)]
pub struct Piece {
    /// The pairs: at most 100.
    pub pairs: Vec<Pair>,
    /// The key at which the next piece begins. None if this was the last one.
    pub next: Option<u64>,
}

/// Reads the first 100 pairs from `first` to `last`, or all of them if there are no more.
///
/// A piece keeps nothing of the tree. So the next one may be read at any later time, from `next` on, and
/// by another pass. Each key of a piece has what the piece gives it at a position of its own.
pub fn read_piece(
    alloc: Global,
    tree: &Tree,
    pass: &mut Pass,
    first: u64,
    last: u64,
) -> Result<Piece, AllocError>
    requires same_tree { pass.old.tree ≡ tree.now }
    requires some { first ≤ last }
    ensures read { HasOnlyRead pass.old pass.new }
    ensures piece { IfOk result (λ piece.
        IsPiece pass.old pass.new first last piece.next piece.pairs.items) }
{
    let mut pairs = Vec::new(alloc);
    let mut from = first;
    'pairs: loop {
        let Some(pair) = at_least(tree, pass, from) else {
            return Ok(Piece { pairs, next: None });
        };
        if last < pair.key {
            return Ok(Piece { pairs, next: None });
        }
        pairs.push(pair)?;
        if pair.key == last {
            return Ok(Piece { pairs, next: None });
        }
        from = pair.key + 1;
        if pairs.len() >= PAIRS {
            return Ok(Piece {
                pairs,
                next: Some(from),
            });
        }
    }
}

/// Reads all pairs from `first` to `last`, piece after piece, as one list.
///
/// Others may change the tree while a piece is read, and between two of them. Still the list says of each
/// key from `first` to `last` what it had at a position of its own during the call, its keys are strictly
/// increasing, and time never goes back along them: the contract is that of one read of all keys.
pub fn read_in_pieces(
    alloc: Global,
    tree: &Tree,
    pass: &mut Pass,
    first: u64,
    last: u64,
) -> Result<Vec<Pair>, AllocError>
    requires same_tree { pass.old.tree ≡ tree.now }
    requires some { first ≤ last }
    ensures read { HasOnlyRead pass.old pass.new }
    ensures live { IfOk result (λ found. AreLive pass.old pass.new first last found.items) }
    ensures in_turn { IfOk result (λ found. AreInTurn pass.old pass.new found.items) }
{
    let Piece {
        mut pairs,
        mut next,
    } = read_piece(alloc, tree, pass, first, last)?;
    while let Some(from) = next {
        let piece = read_piece(alloc, tree, pass, from, last)?;
        pairs.extend_from_slice(piece.pairs.as_slice())?;
        next = piece.next;
    }
    Ok(pairs)
}

// Puts this many keys.
fn put_keys(tree: &Tree, pass: &mut Pass, count: u64) -> Result<(), Full>
    requires same_tree { pass.old.tree ≡ tree.now }
    ensures same_tree { pass.new.tree ≡ tree.now }
{
    for key in 0..count {
        tree.put(pass, key, key)?;
    }
    Ok(())
}

/// Puts this many keys into a new tree, and reads them in pieces. Returns how many pairs it read.
pub fn read_many(alloc: Global, count: u64) -> Result<usize, Fault> {
    let (tree, mut maker) = Tree::open(alloc, WORDS, &[])?;
    let mut pass = tree.pass(&mut maker);
    put_keys(&tree, &mut pass, count)?;
    match read_in_pieces(alloc, &tree, &mut pass, 0, u64::MAX) {
        Ok(pairs) => Ok(pairs.len()),
        Err(AllocError) => Err(Fault::Open(OpenFault::Memory)),
    }
}
