//! Leaves that were found in a replica.
ghost use Rattle.std.specs.Prelude.{◌≡◌};

use ist_core::LeafRow;
use std::marker::Model;

/// A leaf and its base. Contracts see it as the definitions do.
#[derive(Drop)]
pub struct FoundLeaf {
    base: u64,
    row: LeafRow,
}

impl Model for FoundLeaf {
    ghost use Rattle.ist_core.specs.Leaves.{PlacedLeaf};

    ghost Value = { PlacedLeaf };

    ghost view = { λ f. record { base = f.base; row = f.row } };
}

impl FoundLeaf {
    /// Makes a leaf with its base.
    pub fn new(base: u64, row: LeafRow) -> FoundLeaf
        ensures value { result ≡ record { base = base; row = row } }
    {
        FoundLeaf { base, row }
    }

    /// Returns the base of the leaf.
    pub fn base(&self) -> u64
        ensures value { result ≡ self.now.base }
    {
        self.base
    }

    /// Returns its key.
    pub fn key(&self) -> u64
        ensures value { result ≡ self.now.row.key }
    {
        self.row.key
    }
}
