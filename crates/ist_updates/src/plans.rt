//! What an update will do to its slot.
use ist_core::ChangeRow;

/// The slot of a node's child for a key, and the word that it held.
#[derive(Clone, Copy, Drop)]
pub(crate) struct Aim {
    pub node: u32,
    pub index: u64,
    pub word: u64,
    pub key: u64,
}

/// What an update puts into its slot.
#[derive(Clone, Copy, Drop)]
pub(crate) enum SlotPlan {
    /// A fresh leaf with this value, if the slot is empty or holds a leaf of the key.
    Leaf {
        value: u64,
    },
    /// A fresh pair row over a fresh leaf with this value and the leaf of another key that the slot
    /// holds.
    Pair {
        value: u64,
        other: u32,
        other_key: u64,
    },
    /// Nothing, if the slot holds a leaf of the key.
    Clear,
}

/// The rows that are published with a change, by their bases.
#[derive(Clone, Copy, Drop)]
pub(crate) enum Fresh {
    Nothing,
    Leaf {
        base: u32,
    },
    /// A pair row over the fresh leaf and another one, which has this key.
    Pair {
        base: u32,
        leaf: u32,
        other: u32,
        other_key: u64,
    },
}

/// The change with which its row at the base will be filled, and the rows that are published with it.
#[derive(Clone, Copy, Drop)]
pub(crate) struct PlannedChange {
    pub base: u32,
    pub row: ChangeRow,
    pub fresh: Fresh,
}
