//! The pairs of a range, as many as there is room for.
ghost use Rattle.std.specs.Prelude.{take, ◌≡◌, ◌<◌, ◌≤◌, length, Some, None};
ghost use Rattle.ist_live.specs.Pieces.{IsPiece};
ghost use Rattle.ist_live.specs.Reading.{HasOnlyRead};
ghost use Rattle.ist_handles.specs.Pairs.{next_key};

use ist_core::Pair;
use ist_live::at_least;
use ist_tree::{Pass, Tree};

/// How many pairs of a range were written, and whether keys are left: then `next` is the key to go on
/// from.
#[repr(C)]
#[derive(Clone, Copy, Drop)]
pub struct Piece {
    pub count: u64,
    pub more: bool,
    pub next: u64,
}

// The piece after which no keys are left.
pub(crate) fn last_piece(count: usize) -> Piece
    ensures count { result.count ≡ count }
    ensures next { next_key result ≡ None }
{
    Piece {
        count: count as u64,
        more: false,
        next: 0,
    }
}

// The piece after which keys are left, from this one on.
pub(crate) fn next_piece(count: usize, from: u64) -> Piece
    ensures count { result.count ≡ count }
    ensures next { next_key result ≡ Some from }
{
    Piece {
        count: count as u64,
        more: true,
        next: from,
    }
}

/// Writes the pairs from `first` to `last`, as many as there is room for, by one search after another.
/// Never blocks, never allocates, always returns.
pub fn read_piece(tree: &Tree, pass: &mut Pass, first: u64, last: u64, room: &mut [Pair]) -> Piece
    requires same_tree { pass.old.tree ≡ tree.now }
    requires some { 0 < length room.old }
    ensures read { HasOnlyRead pass.old pass.new }
    ensures pairs { IsPiece pass.old pass.new first last (next_key result)
        (take result.count room.new) }
    ensures within { result.count ≤ length room.new }
    ensures room { length room.new ≡ length room.old }
{
    let mut count = 0;
    if last < first {
        let empty = last_piece(count);
        return empty;
    }
    let mut from = first;
    'pairs: loop {
        let Some(pair) = at_least(tree, pass, from) else {
            let rest = last_piece(count);
            return rest;
        };
        if last < pair.key {
            let below = last_piece(count);
            return below;
        }
        room[count] = pair;
        count += 1;
        if pair.key == last {
            let whole = last_piece(count);
            return whole;
        }
        from = pair.key + 1;
        if count >= room.len() {
            let part = next_piece(count, from);
            return part;
        }
    }
}
