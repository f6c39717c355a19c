//! Whether rows of an event are a pair row and its fresh leaf.
ghost use Rattle.std.specs.Prelude.{◌≡◌, ◌↔◌, IsTrue};
ghost use Rattle.ist_core.specs.References.{LeafAt, word_of};
ghost use Rattle.ist_core.specs.Pieces.{row_at};
ghost use Rattle.ist_core.specs.Installing.{pair_over, pair_row};
ghost use Rattle.check_events.specs.Kinds.{IsPairAndLeaf};

use crate::rows::is_row;
use ist_core::{ChangeRow, Row};

/// Returns whether these rows are a pair row at the base, over the leaf at `other` with this key
/// and the change's, and the change's leaf.
pub fn is_pair_and_leaf(rows: &[Row], pair: u64, change: &ChangeRow, other: u64, key: u64) -> bool
    ensures exact { IsTrue result ↔ IsPairAndLeaf rows.now pair change.now other key }
{
    if rows.len() != 2 {
        return false;
    }
    let leaf = rows[1].base;
    if !is_row(&rows[1], leaf, &[change.key, change.value]) {
        return false;
    }
    is_pair_row(&rows[0], pair, change.key, leaf, key, other)
}

/// Returns whether this is the pair row at the base, over two leaves with these keys and bases.
fn is_pair_row(row: &Row, base: u64, key: u64, leaf: u64, other_key: u64, other: u64) -> bool
    ensures exact { IsTrue result ↔ (row.now ≡ row_at base (pair_row key leaf other_key other)) }
{
    if other_key < key {
        is_pair_over(row, base, key, other, leaf)
    } else {
        is_pair_over(row, base, other_key, leaf, other)
    }
}

/// Returns whether this is the row at the base over two leaves, of which the key leads to the right
/// one.
fn is_pair_over(row: &Row, base: u64, key: u64, left: u64, right: u64) -> bool
    ensures exact { IsTrue result ↔ (row.now ≡ row_at base (pair_over key left right)) }
{
    if row.base != base {
        return false;
    }
    match row.words.as_slice() {
        [
            status,
            count,
            degree,
            size,
            right_key,
            left_word,
            right_word,
        ] => {
            if *status != 0 || *count != 0 || *degree != 2 || *size != 2 || *right_key != key {
                return false;
            }
            if u128::from(*left_word) != leaf_word(left) {
                return false;
            }
            u128::from(*right_word) == leaf_word(right)
        }
        _ => false,
    }
}

/// Returns the word of a leaf, also of one whose base is too large for a word.
fn leaf_word(base: u64) -> u128
    ensures value { result ≡ word_of (LeafAt base) }
{
    u128::from(base) * 8 + 1
}
