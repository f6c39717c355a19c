//! What a handle holds.
use crate::closed_trees::{ClosedTree, LeftPairs};
use crate::owners::TreeOwner;
use crate::passes::{TreeNote, TreePass};
use crate::shots::TreeShot;

/// What a handle holds.
#[derive(Drop)]
pub enum Held {
    Nothing,
    Owner(TreeOwner),
    Pass(TreePass),
    Shot(TreeShot),
    Note(TreeNote),
    Closed(ClosedTree),
    Left(LeftPairs),
}
