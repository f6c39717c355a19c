//! The ideal tree of some pairs, as words: a row, then the trees of its parts.
ghost use Rattle.std.specs.Prelude.{◌≡◌, ◌+◌, ◌≤◌, ◌<◌, ◌^◌, length};
ghost use Rattle.std.proofs.lemmas.List.Edits.{sets};
ghost use Rattle.ist_core.specs.Shapes.{ideal_words};
ghost use Rattle.ist_image.specs.Placing.{FitsAt, part_base, slot_base, slots_after};
ghost use Rattle.ist_image.specs.Placing.{rows_after, row_words, tree_words};

use crate::cuts::RowCut;
use crate::rows::{put_head, put_slot};
use ist_core::Pair;

/// Writes the tree of at most one pair: nothing, or a leaf. Returns where it ends.
fn put_few(words: &mut [u64], base: u64, pairs: &[Pair]) -> u64
    requires few { length pairs.now < 2 }
    requires fits { FitsAt base (length pairs.now) }
    requires room { base + ideal_words (length pairs.now) ≤ length words.old }
    ensures exact { words.new ≡ sets words.old base (tree_words base pairs.now) }
    ensures end { result ≡ base + ideal_words (length pairs.now) }
{
    match pairs {
        [] => base,
        [pair, ..] => {
            words[base as usize] = pair.key;
            words[base as usize + 1] = pair.value;
            base + 2
        }
    }
}

/// Writes the tree of these pairs, from the base on, each word once. Returns where it ends.
#[cycle(laying)]
pub(crate) fn put_tree(words: &mut [u64], base: u64, pairs: &[Pair]) -> u64
    requires few { length pairs.now < 2 ^ 28 }
    requires fits { FitsAt base (length pairs.now) }
    requires room { base + ideal_words (length pairs.now) ≤ length words.old }
    ensures exact { words.new ≡ sets words.old base (tree_words base pairs.now) }
    ensures end { result ≡ base + ideal_words (length pairs.now) }
{
    if pairs.len() < 2 {
        return put_few(words, base, pairs);
    }
    let cut = RowCut::of(pairs.len() as u64);
    put_head(words, base, pairs, &cut);
    put_parts(words, base, pairs, &cut)
}

/// Writes the slots of an inner row at the base, and the trees of the parts, which follow it.
/// Returns where they end.
#[cycle(laying)]
fn put_parts(words: &mut [u64], base: u64, pairs: &[Pair], cut: &RowCut) -> u64
    requires cut { cut.now.count ≡ length pairs.now }
    requires few { length pairs.now < 2 ^ 28 }
    requires fits { FitsAt base (length pairs.now) }
    requires room { base + ideal_words (length pairs.now) ≤ length words.old }
    ensures exact { words.new
        ≡ sets (sets words.old (slot_base base (length pairs.now)) (slots_after base pairs.now 0))
        (part_base base (length pairs.now) 0) (row_words (rows_after base pairs.now 0)) }
    ensures end { result ≡ base + ideal_words (length pairs.now) }
{
    let mut at = cut.first_base(base);
    let mut start = 0;
    for j in 0..cut.children {
        let part = cut.part(pairs, j, start);
        put_slot(words, base, cut, j, at, part.len() as u64);
        at = put_tree(words, at, part);
        start += part.len();
    }
    at
}
