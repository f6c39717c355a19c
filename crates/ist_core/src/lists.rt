//! Small lists, which contracts see as lists: words of a row, rows of an event, bases, held rows.
ghost use Rattle.std.specs.Prelude.{◌≡◌, slice_set};

use std::marker::Model;

/// Words side by side, as in a row. Contracts see the list of them.
#[derive(Drop)]
pub struct Words {
    items: Vec<u64>,
}

impl Model for Words {
    ghost use Rattle.std.specs.Prelude.{ℕ, List};

    ghost Value = { List ℕ };

    ghost view = { λ w. w.items.items };
}

impl Words {
    /// Returns the list of these words.
    pub fn from_vec(items: Vec<u64>) -> Words
        ensures value { result ≡ items.items }
    {
        Words { items }
    }

    /// Returns the words, in order.
    pub fn as_slice(&self) -> &[u64]
        ensures value { result.now ≡ self.now }
    {
        &self.items
    }

    /// Returns the vector that this was made from, without allocating.
    pub fn into_vec(self) -> Vec<u64>
        ensures value { result.items ≡ self }
    {
        self.items
    }

    /// Writes word `i`, if there is one.
    pub fn set(&mut self, i: usize, word: u64)
        ensures value { self.new ≡ slice_set self.old i word }
    {
        if i < self.items.len() {
            self.items[i] = word;
        }
    }
}

/// Bases of rows. Contracts see the list of them.
#[derive(Drop)]
pub struct Bases {
    items: Vec<u64>,
}

impl Model for Bases {
    ghost use Rattle.std.specs.Prelude.{ℕ, List};

    ghost Value = { List ℕ };

    ghost view = { λ b. b.items.items };
}

impl Bases {
    /// Returns the list of these bases.
    pub fn from_vec(items: Vec<u64>) -> Bases
        ensures value { result ≡ items.items }
    {
        Bases { items }
    }

    /// Returns the bases, in order.
    pub fn as_slice(&self) -> &[u64]
        ensures value { result.now ≡ self.now }
    {
        &self.items
    }

    /// Returns the vector that this was made from, without allocating.
    pub fn into_vec(self) -> Vec<u64>
        ensures value { result.items ≡ self }
    {
        self.items
    }
}

/// A row of the table: the place of its first word, and its words.
#[derive(Drop)]
pub struct Row {
    pub base: u64,
    pub words: Words,
}

/// The rows that an event publishes. Contracts see the list of them.
#[derive(Drop)]
pub struct Rows {
    items: Vec<Row>,
}

impl Model for Rows {
    ghost use Rattle.std.specs.Prelude.{List};
    ghost use Rattle.ist_core.specs.declared.lists.Row.{Row};

    ghost Value = { List Row };

    ghost view = { λ r. r.items.items };
}

impl Rows {
    /// Returns the list of these rows.
    pub fn from_vec(items: Vec<Row>) -> Rows
        ensures value { result ≡ items.items }
    {
        Rows { items }
    }

    /// Returns the rows, in order.
    pub fn as_slice(&self) -> &[Row]
        ensures value { result.now ≡ self.now }
    {
        &self.items
    }

    /// Returns the vector that this was made from, without allocating.
    pub fn into_vec(self) -> Vec<Row>
        ensures value { result.items ≡ self }
    {
        self.items
    }
}

/// A row that a caller reserved and has neither published nor lost.
#[derive(Clone, Copy, Drop)]
pub struct HeldRow {
    pub caller: u64,
    pub base: u64,
    pub size: u64,
}

/// Held rows, in the order in which they were reserved. Contracts see the list of them.
#[derive(Drop)]
pub struct HeldRows {
    items: Vec<HeldRow>,
}

impl Model for HeldRows {
    ghost use Rattle.std.specs.Prelude.{List};
    ghost use Rattle.ist_core.specs.declared.lists.HeldRow.{HeldRow};

    ghost Value = { List HeldRow };

    ghost view = { λ h. h.items.items };
}

impl HeldRows {
    /// Returns the list of these rows.
    pub fn from_vec(items: Vec<HeldRow>) -> HeldRows
        ensures value { result ≡ items.items }
    {
        HeldRows { items }
    }

    /// Returns the rows, in order.
    pub fn as_slice(&self) -> &[HeldRow]
        ensures value { result.now ≡ self.now }
    {
        &self.items
    }

    /// Returns the vector that this was made from, without allocating.
    pub fn into_vec(self) -> Vec<HeldRow>
        ensures value { result.items ≡ self }
    {
        self.items
    }
}
