//! The fields of a row, read from the words.
ghost use Rattle.std.specs.Prelude.{◌≡◌, ◌+◌, ◌<◌, ◌≤◌, length, get_or};
ghost use Rattle.ist_core.specs.RowLayout.{inner_words, leaf_words, next_place, place_limit};
ghost use Rattle.ist_rest.specs.WordRows as word_rows;
ghost use Rattle.ist_rest.specs.WordRows.{word_at, IsWithinUsed, row_degree, row_keys, row_slots};
ghost use Rattle.ist_rest.specs.Steps.{IsRowHere};

use crate::words::WordList;
use ist_core::Pair;
use ist_layout::{INNER_DEGREE_OFFSET, LEAF_KEY_OFFSET, LEAF_VALUE_OFFSET, key_place, slot_place};

/// Returns the pair of a leaf.
pub fn leaf_pair<W: WordList>(words: &W, base: u32) -> Pair
    requires used { word_at (W.list words.now) next_place ≤ length (W.list words.now) }
    requires within { IsWithinUsed (W.list words.now) record { base = base; size = leaf_words } }
    ensures key { result.key ≡ word_rows.leaf_key (W.list words.now) base }
    ensures value { result.value ≡ word_rows.leaf_value (W.list words.now) base }
{
    Pair {
        key: words.word(u64::from(base) + LEAF_KEY_OFFSET),
        value: words.word(u64::from(base) + LEAF_VALUE_OFFSET),
    }
}

/// Returns how many slots an inner row has.
pub fn degree_at<W: WordList>(words: &W, base: u32) -> u64
    requires used { word_at (W.list words.now) next_place ≤ length (W.list words.now) }
    requires row { IsRowHere (W.list words.now) base }
    ensures value { result ≡ row_degree (W.list words.now) base }
{
    words.word(u64::from(base) + INNER_DEGREE_OFFSET)
}

/// Returns key `j` of an inner row of this degree, counted from 0.
pub fn key_at<W: WordList>(words: &W, base: u32, degree: u64, j: u64) -> u64
    requires used { word_at (W.list words.now) next_place ≤ length (W.list words.now) }
    requires most { length (W.list words.now) ≤ place_limit }
    requires row { IsWithinUsed (W.list words.now)
        record { base = base; size = inner_words degree } }
    requires degree { degree ≡ row_degree (W.list words.now) base }
    requires index { j + 1 < degree }
    ensures value { result ≡ get_or (row_keys (W.list words.now) base) j 0 }
{
    words.word(key_place(base, j + 1))
}

/// Returns the word of slot `i` of an inner row of this degree.
pub fn slot_at<W: WordList>(words: &W, base: u32, degree: u64, i: u64) -> u64
    requires used { word_at (W.list words.now) next_place ≤ length (W.list words.now) }
    requires most { length (W.list words.now) ≤ place_limit }
    requires row { IsWithinUsed (W.list words.now)
        record { base = base; size = inner_words degree } }
    requires degree { degree ≡ row_degree (W.list words.now) base }
    requires index { i < degree }
    ensures value { result ≡ get_or (row_slots (W.list words.now) base) i 0 }
{
    words.word(slot_place(base, degree, i))
}
