//! The kinds of row of which a caller holds at most one each.
ghost use Rattle.std.specs.Prelude.{◌≡◌};
ghost use Rattle.ist_rows.specs.Kinds.{kind_words};

use ist_layout::{CHANGE_WORDS, LEAF_WORDS, PAIR_WORDS, REBUILD_WORDS};

/// A kind of row. A pair row is an inner row of degree 2.
#[derive(Clone, Copy, Drop)]
pub enum Kind {
    Leaf,
    Pair,
    Change,
    Rebuild,
}

impl Kind {
    /// Returns how many words a row of this kind has.
    pub fn words(self) -> u64
        ensures value { result ≡ kind_words self }
    {
        match self {
            Kind::Leaf => LEAF_WORDS,
            Kind::Pair => PAIR_WORDS,
            Kind::Change => CHANGE_WORDS,
            Kind::Rebuild => REBUILD_WORDS,
        }
    }
}
