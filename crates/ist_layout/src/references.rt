//! What a slot of a node names, and the word for it.
ghost use Rattle.std.specs.Prelude.{◌≡◌, IfSome};
ghost use Rattle.std.specs.Option.{option_map};
ghost use Rattle.ist_core.specs.References.{word_of, ref_of, IsGoodRef, good_row_tagged};

use crate::places::{FIRST_ROW, PLACE_LIMIT};

/// The word of an empty slot.
pub const EMPTY_WORD: u64 = 0;

/// The word of a part of a shared root that isn't built yet.
pub const UNSET_WORD: u64 = 7;

/// The word of a row is its base times this number, plus its tag.
const TAG_COUNT: u64 = 8;

const LEAF_TAG: u64 = 1;

const INNER_TAG: u64 = 2;

const CHANGE_TAG: u64 = 3;

const REBUILD_TAG: u64 = 4;

/// What a slot of a node names. A row is named by its base, the place of its first word.
#[derive(Clone, Copy, Debug, PartialEq, Eq, Drop)]
pub enum Ref {
    /// No key lies here.
    Empty,
    /// A part of a shared root that isn't built yet, or a rebuild without a root.
    Unset,
    /// One key with its value.
    Leaf { base: u32 },
    /// A node with children of its own.
    Inner { base: u32 },
    /// A change that isn't resolved yet.
    Change { base: u32 },
    /// A rebuild that isn't finished yet.
    Rebuild { base: u32 },
}

impl Ref {
    ghost use Rattle.ist_layout.specs.Meanings.{ref_meant};

    /// Returns the word for this reference in a slot. Its base must be at least 4 and below 2^28.
    pub fn to_word(self) -> u64
        requires good { IsGoodRef (ref_meant self) }
        ensures value { result ≡ word_of (ref_meant self) }
    {
        match self {
            Ref::Empty => EMPTY_WORD,
            Ref::Unset => UNSET_WORD,
            Ref::Leaf { base } => u64::from(base) * TAG_COUNT + LEAF_TAG,
            Ref::Inner { base } => u64::from(base) * TAG_COUNT + INNER_TAG,
            Ref::Change { base } => u64::from(base) * TAG_COUNT + CHANGE_TAG,
            Ref::Rebuild { base } => u64::from(base) * TAG_COUNT + REBUILD_TAG,
        }
    }

    /// Returns the reference with this word, or `None` if no reference with a good base has it.
    pub fn from_word(word: u64) -> Option<Ref>
        ensures value { option_map ref_meant result ≡ ref_of word }
        ensures good { IfSome result (λ found. IsGoodRef (ref_meant found)) }
        ensures same_word { IfSome result (λ found. word_of (ref_meant found) ≡ word) }
    {
        match word {
            EMPTY_WORD => Some(Ref::Empty),
            UNSET_WORD => Some(Ref::Unset),
            _ => Ref::row(word % TAG_COUNT, word / TAG_COUNT),
        }
    }

    /// Returns the row with this tag and this base, or `None` if there is no such tag, or the base
    /// isn't good.
    fn row(tag: u64, base: u64) -> Option<Ref>
        ensures value { option_map ref_meant result ≡ good_row_tagged tag base }
    {
        if base < u64::from(FIRST_ROW) || base >= PLACE_LIMIT {
            return None;
        }
        let base = base as u32;
        match tag {
            LEAF_TAG => Some(Ref::Leaf { base }),
            INNER_TAG => Some(Ref::Inner { base }),
            CHANGE_TAG => Some(Ref::Change { base }),
            REBUILD_TAG => Some(Ref::Rebuild { base }),
            _ => None,
        }
    }
}
