//! The slots that a listing has still to visit.

/// A slot still to visit: its word, and the base of its node.
#[derive(Clone, Copy, Drop)]
pub struct SlotLeft {
    pub word: u64,
    pub node: u64,
}
