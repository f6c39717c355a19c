//! Published rows by their bases. Contracts see each type here as a finite map from bases to rows.
//!
//! Each is kept as a vector of bases and rows with strictly increasing bases. It is made from such
//! a vector and gives it back.
ghost use Rattle.std.specs.Prelude.{◌≡◌, map};
ghost use Rattle.std.specs.List.Sorted.{IsStrictlyIncreasing};
ghost use Rattle.std.specs.Ordering.{nat_cmp};
ghost use Rattle.std.specs.FinMap as fin;

use crate::states::{ChangeRow, InnerRow, LeafRow, RebuildRow};
use std::marker::Model;

/// The published leaves by their bases. Contracts see the finite map of them.
#[derive(Drop)]
pub struct Leaves {
    entries: Vec<(u64, LeafRow)>,
}

impl Model for Leaves {
    ghost use Rattle.std.specs.Prelude.{◌≡◌, true};
    ghost use Rattle.std.specs.Ordering.{nat_cmp};
    ghost use Rattle.std.specs.FinMap as fin;
    ghost use Rattle.ist_core.specs.declared.states.LeafRow.{LeafRow};
    ghost use Rattle.std.specs.Coded.{coded_ℕ};
    ghost use Rattle.ist_core.specs.contracts.states.LeafRow as row;

    ghost Value = { fin.FinMap nat_cmp LeafRow };

    ghost coded = { fin.code coded_ℕ row.the_row.coded };

    ghost view = { λ a. fin.from_sorted a.entries.items };

    ghost invariant = { λ a. fin.is_sorted nat_cmp a.entries.items ≡ true };
}

impl Leaves {
    /// Returns the map with these entries, without allocating.
    pub fn from_vec(entries: Vec<(u64, LeafRow)>) -> Leaves
        requires rising { IsStrictlyIncreasing (map (λ e. e.0) entries.items) }
        ensures value { fin.entries result ≡ entries.items }
    {
        Leaves { entries }
    }

    /// Returns the entries, with increasing bases.
    pub fn as_slice(&self) -> &[(u64, LeafRow)]
        ensures value { result.now ≡ fin.entries self.now }
    {
        &self.entries
    }

    /// Returns the vector of the entries, with increasing bases, without allocating.
    pub fn into_vec(self) -> Vec<(u64, LeafRow)>
        ensures value { result.items ≡ fin.entries self }
    {
        self.entries
    }
}

/// The published inner rows by their bases. Contracts see the finite map of them.
#[derive(Drop)]
pub struct Inners {
    entries: Vec<(u64, InnerRow)>,
}

impl Model for Inners {
    ghost use Rattle.std.specs.Prelude.{◌≡◌, true};
    ghost use Rattle.std.specs.Ordering.{nat_cmp};
    ghost use Rattle.std.specs.FinMap as fin;
    ghost use Rattle.ist_core.specs.declared.states.InnerRow.{InnerRow};
    ghost use Rattle.std.specs.Coded.{coded_ℕ};
    ghost use Rattle.ist_core.specs.contracts.states.InnerRow as row;

    ghost Value = { fin.FinMap nat_cmp InnerRow };

    ghost coded = { fin.code coded_ℕ row.the_row.coded };

    ghost view = { λ a. fin.from_sorted a.entries.items };

    ghost invariant = { λ a. fin.is_sorted nat_cmp a.entries.items ≡ true };
}

impl Inners {
    /// Returns the map with these entries, without allocating.
    pub fn from_vec(entries: Vec<(u64, InnerRow)>) -> Inners
        requires rising { IsStrictlyIncreasing (map (λ e. e.0) entries.items) }
        ensures value { fin.entries result ≡ entries.items }
    {
        Inners { entries }
    }

    /// Returns the entries, with increasing bases.
    pub fn as_slice(&self) -> &[(u64, InnerRow)]
        ensures value { result.now ≡ fin.entries self.now }
    {
        &self.entries
    }

    /// Returns the vector of the entries, with increasing bases, without allocating.
    pub fn into_vec(self) -> Vec<(u64, InnerRow)>
        ensures value { result.items ≡ fin.entries self }
    {
        self.entries
    }
}

/// The published changes by their bases. Contracts see the finite map of them.
#[derive(Drop)]
pub struct Changes {
    entries: Vec<(u64, ChangeRow)>,
}

impl Model for Changes {
    ghost use Rattle.std.specs.Prelude.{◌≡◌, true};
    ghost use Rattle.std.specs.Ordering.{nat_cmp};
    ghost use Rattle.std.specs.FinMap as fin;
    ghost use Rattle.ist_core.specs.declared.states.ChangeRow.{ChangeRow};
    ghost use Rattle.std.specs.Coded.{coded_ℕ};
    ghost use Rattle.ist_core.specs.contracts.states.ChangeRow as row;

    ghost Value = { fin.FinMap nat_cmp ChangeRow };

    ghost coded = { fin.code coded_ℕ row.the_row.coded };

    ghost view = { λ a. fin.from_sorted a.entries.items };

    ghost invariant = { λ a. fin.is_sorted nat_cmp a.entries.items ≡ true };
}

impl Changes {
    /// Returns the map with these entries, without allocating.
    pub fn from_vec(entries: Vec<(u64, ChangeRow)>) -> Changes
        requires rising { IsStrictlyIncreasing (map (λ e. e.0) entries.items) }
        ensures value { fin.entries result ≡ entries.items }
    {
        Changes { entries }
    }

    /// Returns the entries, with increasing bases.
    pub fn as_slice(&self) -> &[(u64, ChangeRow)]
        ensures value { result.now ≡ fin.entries self.now }
    {
        &self.entries
    }

    /// Returns the vector of the entries, with increasing bases, without allocating.
    pub fn into_vec(self) -> Vec<(u64, ChangeRow)>
        ensures value { result.items ≡ fin.entries self }
    {
        self.entries
    }
}

/// The published rebuilds by their bases. Contracts see the finite map of them.
#[derive(Drop)]
pub struct Rebuilds {
    entries: Vec<(u64, RebuildRow)>,
}

impl Model for Rebuilds {
    ghost use Rattle.std.specs.Prelude.{◌≡◌, true};
    ghost use Rattle.std.specs.Ordering.{nat_cmp};
    ghost use Rattle.std.specs.FinMap as fin;
    ghost use Rattle.ist_core.specs.declared.states.RebuildRow.{RebuildRow};
    ghost use Rattle.std.specs.Coded.{coded_ℕ};
    ghost use Rattle.ist_core.specs.contracts.states.RebuildRow as row;

    ghost Value = { fin.FinMap nat_cmp RebuildRow };

    ghost coded = { fin.code coded_ℕ row.the_row.coded };

    ghost view = { λ a. fin.from_sorted a.entries.items };

    ghost invariant = { λ a. fin.is_sorted nat_cmp a.entries.items ≡ true };
}

impl Rebuilds {
    /// Returns the map with these entries, without allocating.
    pub fn from_vec(entries: Vec<(u64, RebuildRow)>) -> Rebuilds
        requires rising { IsStrictlyIncreasing (map (λ e. e.0) entries.items) }
        ensures value { fin.entries result ≡ entries.items }
    {
        Rebuilds { entries }
    }

    /// Returns the entries, with increasing bases.
    pub fn as_slice(&self) -> &[(u64, RebuildRow)]
        ensures value { result.now ≡ fin.entries self.now }
    {
        &self.entries
    }

    /// Returns the vector of the entries, with increasing bases, without allocating.
    pub fn into_vec(self) -> Vec<(u64, RebuildRow)>
        ensures value { result.items ≡ fin.entries self }
    {
        self.entries
    }
}
