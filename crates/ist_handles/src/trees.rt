//! A tree with its number.
use ist_tree::Tree;

/// A tree, and the number by which a call finds out whether two handles are of one tree.
#[derive(Drop)]
pub struct NumberedTree {
    pub tree: Tree,
    pub number: u64,
}
