//! The fields, keys and slots of an inner row of a new table as words.
ghost use Rattle.std.specs.Prelude.{◌≡◌, ◌+◌, ◌≤◌, ◌<◌, ◌^◌, List, length, drop};
ghost use Rattle.std.proofs.Math.ListN.{set};
ghost use Rattle.std.proofs.lemmas.List.Edits.{sets};
ghost use Rattle.ist_core.specs.declared.pairs.Pair.{Pair as APair};
ghost use Rattle.ist_core.specs.Arithmetic.{degree};
ghost use Rattle.ist_core.specs.Parts as cuts;
ghost use Rattle.ist_core.specs.References.{word_of as the_word};
ghost use Rattle.ist_core.specs.RowLayout.{inner_words};
ghost use Rattle.ist_core.specs.Shapes.{ideal_words};
ghost use Rattle.ist_core.specs.StartLayout.{tree_at};
ghost use Rattle.ist_image.specs.Placing.{row_head};

use crate::cuts::RowCut;
use ist_core::Pair;
use ist_layout::Ref;

/// The status of a node that isn't marked.
const OPEN_WORD: u64 = 0;

/// Writes the fields and the keys of the first row of the tree of at least two pairs, but not its
/// slots.
pub(crate) fn put_head(words: &mut [u64], base: u64, pairs: &[Pair], cut: &RowCut)
    requires cut { cut.now.count ≡ length pairs.now }
    requires few { length pairs.now < 2 ^ 28 }
    requires room { base + ideal_words (length pairs.now) ≤ length words.old }
    ensures exact { words.new ≡ row_head words.old base pairs.now }
{
    let at = base as usize;
    words[at] = OPEN_WORD;
    words[at + 1] = 0;
    words[at + 2] = cut.children;
    words[at + 3] = cut.count;
    put_keys(words, at + 4, pairs, cut);
}

/// Writes the first key of each part but the first.
fn put_keys(words: &mut [u64], place: usize, pairs: &[Pair], cut: &RowCut)
    requires cut { cut.now.count ≡ length pairs.now }
    requires few { length pairs.now < 2 ^ 28 }
    requires room { place + degree (length pairs.now) ≤ length words.old + 1 }
    ensures exact { words.new
        ≡ sets words.old place
        (cuts.first_keys (λ pair. pair.key) (drop 1 (cuts.parts pairs.now))) }
{
    let mut start = 0;
    for j in 1..cut.children {
        start = cut.next_start(j - 1, start);
        words[place + (j as usize - 1)] = pairs[start].key;
    }
}

/// Writes the slot of part `j` of an inner row at the base: the word for its tree of `count` pairs, which
/// begins at `at`.
pub(crate) fn put_slot(words: &mut [u64], base: u64, cut: &RowCut, j: u64, at: u64, count: u64)
    requires within { j < cut.now.children }
    requires row { base + inner_words cut.now.children ≤ length words.old }
    requires few { base + inner_words cut.now.children ≤ at }
    requires low { 4 ≤ at }
    requires small { at < 2 ^ 28 }
    ensures exact { (pairs : List APair) → length pairs ≡ count → words.new
        ≡ set words.old (base + 3 + cut.now.children + j) (the_word (tree_at at pairs)) }
{
    let slots = base + 3 + cut.children;
    words[(slots + j) as usize] = tree_word(at, count);
}

/// Returns the word for the ideal tree of `count` pairs whose rows begin at `base`: the empty word for no
/// pair, a leaf for one, and an inner row for several.
pub fn tree_word(base: u64, count: u64) -> u64
    requires after_fixed { 4 ≤ base }
    requires below_limit { base < 2 ^ 28 }
    ensures value { (pairs : List APair) → length pairs ≡ count
        → result ≡ the_word (tree_at base pairs) }
{
    let base = base as u32;
    let found = match count {
        0 => Ref::Empty,
        1 => Ref::Leaf { base },
        _ => Ref::Inner { base },
    };
    found.to_word()
}
