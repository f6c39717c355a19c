//! The pairs of a range of a shot, as many as there is room for.
ghost use Rattle.std.specs.Prelude.{take, ◌≡◌, ◌<◌, ◌≤◌, length};
ghost use Rattle.ist_tree.specs.Freezing.{IsFrozenFor};
ghost use Rattle.ist_scan.specs.Shots.{HasOnlyLooked};
ghost use Rattle.ist_handles.specs.Pairs.{next_key};
ghost use Rattle.ist_handles.specs.ShotPieces.{IsShotPiece};

use crate::pieces::{Piece, last_piece, next_piece};
use ist_core::Pair;
use ist_scan::Shot;
use ist_tree::{Pass, Tree};

/// Writes the pairs of the shot from `first` to `last`, as many as there is room for, by a walk. Never
/// blocks, never allocates, always returns.
pub(crate) fn read_shot(
    tree: &Tree,
    pass: &mut Pass,
    shot: &Shot,
    first: u64,
    last: u64,
    room: &mut [Pair],
) -> Piece
    requires same_tree { pass.old.tree ≡ tree.now }
    requires frozen { IsFrozenFor pass.old shot.now }
    requires some { 0 < length room.old }
    ensures looked { HasOnlyLooked pass.old pass.new }
    ensures pairs { IsShotPiece pass.old shot.now first last (next_key result)
        (take result.count room.new) }
    ensures within { result.count ≤ length room.new }
    ensures room { length room.new ≡ length room.old }
{
    pass.know();
    let mut walk = shot.walk(first, last);
    let mut count = 0;
    'pairs: loop {
        let Some(pair) = walk.next(tree, pass, shot) else {
            let rest = last_piece(count);
            return rest;
        };
        room[count] = pair;
        count += 1;
        if pair.key == last {
            let whole = last_piece(count);
            return whole;
        }
        if count >= room.len() {
            let part = next_piece(count, pair.key + 1);
            return part;
        }
    }
}
