//! The state of a table, and its rows by kind. `Pieces.antt` says which words a row has.
use crate::lists::{HeldRows, Words};
use crate::maps::{Changes, Inners, Leaves, Rebuilds};

/// A leaf: one key with its value.
#[derive(Clone, Copy, Debug, PartialEq, Eq, Drop)]
pub struct LeafRow {
    pub key: u64,
    pub value: u64,
}

/// An inner node: its degree is the number of its slots, and it has one key less. `size` is the
/// number of keys below it when it was built, and `count` the number of changes counted since.
#[derive(Drop)]
pub struct InnerRow {
    pub status: u64,
    pub count: u64,
    pub degree: u64,
    pub size: u64,
    pub keys: Words,
    pub slots: Words,
}

/// A change: the descriptor of one double-compare single-swap. If slot `index` of `node` holds the
/// word `from` and the node isn't marked, it puts the word `to` there. `owner` is the caller that
/// filled it.
#[derive(Clone, Copy, Drop)]
pub struct ChangeRow {
    pub decision: u64,
    pub kind: u64,
    pub node: u64,
    pub index: u64,
    pub from: u64,
    pub to: u64,
    pub owner: u64,
    pub key: u64,
    pub value: u64,
}

/// A rebuild of the node `target`, which hangs in slot `index` of `parent`. `root` is the word of
/// the subtree that will replace it, and `draw` the number of its parts that were drawn.
#[derive(Clone, Copy, Drop)]
pub struct RebuildRow {
    pub target: u64,
    pub parent: u64,
    pub index: u64,
    pub root: u64,
    pub draw: u64,
}

/// The state of a table of `words` words, free from `next` on, with `callers` callers and the word
/// `anchor` in the anchor's slot. The four maps go from bases to published rows, and `held` are the
/// rows that callers hold.
#[derive(Drop)]
pub struct State {
    pub words: u64,
    pub next: u64,
    pub callers: u64,
    pub anchor: u64,
    pub leaves: Leaves,
    pub inners: Inners,
    pub changes: Changes,
    pub rebuilds: Rebuilds,
    pub held: HeldRows,
}
