//! A pass with the shot that it took.
ghost use Rattle.std.specs.Prelude.{take, ◌≡◌, ◌<◌, ◌≤◌, length};
ghost use Rattle.std.specs.Arc.{arc_value};
ghost use Rattle.ist_tree.specs.Freezing.{IsFrozenFor};
ghost use Rattle.ist_scan.specs.Shots.{HasOnlyLooked};
ghost use Rattle.ist_handles.specs.Pairs.{next_key};
ghost use Rattle.ist_handles.specs.ShotPieces.{IsShotPiece};

use crate::passes::TreePass;
use crate::pieces::Piece;
use crate::shot_pieces::read_shot;
use ist_core::Pair;
use ist_scan::Shot;
use std::marker::Model;

/// A pass that took a shot, with the shot. It only reads the shot until that is dropped.
///
/// Contracts see the pass and what the shot is.
#[derive(Drop)]
pub struct TreeShot {
    taker: TreePass,
    shot: Shot,
}

impl Model for TreeShot {
    ghost use Rattle.ist_tree.specs.Freezing.{IsFrozenFor};
    ghost use Rattle.ist_handles.specs.ShotPieces.{ShotFace};

    ghost Value = { ShotFace };

    ghost view = { λ s. record { taker = s.taker; shot = s.shot } };

    ghost invariant = { λ s. IsFrozenFor s.taker.pass s.shot };
}

impl TreeShot {
    /// Returns the pass with its shot.
    pub fn of(taker: TreePass, shot: Shot) -> TreeShot
        requires frozen { IsFrozenFor taker.pass shot }
        ensures taker { result.taker ≡ taker }
        ensures shot { result.shot ≡ shot }
    {
        TreeShot { taker, shot }
    }

    /// Drops the shot, and returns the pass.
    pub fn into_pass(self) -> TreePass
        ensures value { result ≡ self.taker }
    {
        self.taker
    }

    /// Returns how many pairs the shot has.
    pub fn keys(&self) -> u64
        ensures value { result ≡ self.now.shot.keys }
    {
        self.shot.keys()
    }

    /// Writes the pairs of the shot from `first` to `last`, as many as there is room for.
    pub fn list(&mut self, first: u64, last: u64, room: &mut [Pair]) -> Piece
        requires some { 0 < length room.old }
        ensures tree { arc_value self.new.taker.tree ≡ arc_value self.old.taker.tree }
        ensures shot { self.new.shot ≡ self.old.shot }
        ensures looked { HasOnlyLooked self.old.taker.pass self.new.taker.pass }
        ensures pairs { IsShotPiece self.old.taker.pass self.old.shot first last (next_key result)
            (take result.count room.new) }
        ensures within { result.count ≤ length room.new }
        ensures room { length room.new ≡ length room.old }
    {
        let taker = &mut self.taker;
        let tree = &taker.tree.tree;
        read_shot(tree, &mut taker.pass, &self.shot, first, last, room)
    }
}
