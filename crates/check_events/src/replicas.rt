//! The checker's own copy of a table's state.
use crate::held::HeldTable;
use ist_core::{ChangeRow, InnerRow, LeafRow, RebuildRow};
use std::collections::BTreeMap;

/// The state of a table, as far as the events so far have brought it. It says the same as a
/// `State`, in maps that take one row at a time.
#[derive(Drop)]
pub struct Replica {
    pub words: u64,
    pub next: u64,
    pub callers: u64,
    pub anchor: u64,
    pub leaves: BTreeMap<u64, LeafRow>,
    pub inners: BTreeMap<u64, InnerRow>,
    pub changes: BTreeMap<u64, ChangeRow>,
    pub rebuilds: BTreeMap<u64, RebuildRow>,
    pub held: HeldTable,
}
