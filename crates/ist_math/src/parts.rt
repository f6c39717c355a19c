//! The keys of one child of a node.

/// The keys of one child, among the keys of its node in increasing order.
#[derive(Clone, Copy, Drop)]
pub struct Part {
    /// How many keys of the node precede the child's keys.
    pub start: u64,
    /// How many keys the child has.
    pub len: u64,
}
