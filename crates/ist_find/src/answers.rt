//! What a search and its steps return, and how many loads they made.
use ist_core::Pair;
use ist_layout::Ref;

/// What a search for a key found.
#[derive(Clone, Copy, Debug, PartialEq, Eq, Drop)]
pub struct Found {
    /// The value of the key, if it has one.
    pub value: Option<u64>,
    /// The node in whose slot the search ended.
    pub node: u32,
    /// The number of that slot.
    pub index: u64,
}

/// The child of a node for a key.
#[derive(Clone, Copy, Debug, PartialEq, Eq, Drop)]
pub struct Child {
    /// The number of its slot.
    pub index: u64,
    /// What the slot held.
    pub word: u64,
}

/// What some steps of a search returned, and how many loads they made.
#[derive(Clone, Copy, Drop)]
pub struct Counted<T> {
    /// What they returned.
    pub value: T,
    /// How many words they loaded.
    pub loads: u64,
}

/// What a look at a slot of a node found.
#[derive(Clone, Copy, Drop)]
pub(crate) struct Look {
    /// The number of the slot.
    pub index: u64,
    /// What the slot read as.
    pub reference: Ref,
}

/// A slot of a node, and how many keys the node has.
#[derive(Clone, Copy, Drop)]
pub(crate) struct Place {
    /// How many keys the node has.
    pub count: u64,
    /// The number of the slot.
    pub index: u64,
}

/// A range of keys that share one slot of the tree, and the pair in that slot.
#[derive(Clone, Copy, Debug, PartialEq, Eq, Drop)]
pub struct Span {
    /// The least key of the range.
    pub first: u64,
    /// The greatest key of the range.
    pub last: u64,
    /// The only pair in the range, if there is one.
    pub pair: Option<Pair>,
}

/// Two keys and all keys between them.
#[derive(Clone, Copy, Drop)]
pub(crate) struct KeyRange {
    /// The least of these keys.
    pub first: u64,
    /// The greatest of them.
    pub last: u64,
}

/// What a look at a slot found, for all keys of that slot.
#[derive(Clone, Copy, Drop)]
pub(crate) struct SharedSlot {
    /// The number of the slot.
    pub index: u64,
    /// What the slot read as.
    pub reference: Ref,
    /// The keys for which it is the child.
    pub ends: KeyRange,
}
