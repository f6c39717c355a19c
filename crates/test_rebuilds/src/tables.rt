//! Tables of a given number of pairs, and what their words hold.
ghost use Rattle.std.specs.Prelude.{◌≡◌, ◌≤◌, ◌<◌, ◌^◌, length, map, IfOk};
ghost use Rattle.std.specs.List.Sorted.{IsStrictlyIncreasing};
ghost use Rattle.test_rebuilds.specs.Steps.{IsMakerAt};
ghost use Rattle.ist_core.specs.RowLayout.{place_limit};

use ist_core::{Command, Pair};
use ist_image::{lay_image, needed_words};
use ist_layout::ANCHOR_SLOT_PLACE;
use ist_rule::{TreeTable, TreeToken, begin_search, load, load_top, open_table_over, word_count};
use ist_tree::OpenFault;
use plain_map::Plain;
use std::alloc::{AllocError, Global};

/// A table in this many words, the maker's token, and the words that the table has at first.
#[derive(Drop)]
pub(crate) struct Opened {
    pub(crate) table: TreeTable,
    pub(crate) maker: TreeToken,
    pub(crate) image: Vec<u64>,
}

// Opens a table of these pairs, whose keys are strictly increasing.
fn open_rising(alloc: Global, pairs: &[Pair], words: u64) -> Result<Opened, OpenFault>
    requires rising { IsStrictlyIncreasing (map (λ pair. pair.key) pairs.now) }
    requires few { length pairs.now < 2 ^ 32 }
    requires within { words ≤ place_limit }
    ensures maker { IfOk result (λ o. IsMakerAt o.table 0 o.maker) }
{
    let needed = needed_words(pairs.len() as u64);
    if words < needed {
        return Err(OpenFault::Small { needed, words });
    }
    let kept = pairs.to_vec(alloc)?;
    let image = lay_image(alloc, words, pairs)?;
    let (table, maker) = open_table_over(alloc, image.as_slice(), &kept)?;
    Ok(Opened {
        table,
        maker,
        image,
    })
}

/// A table of these pairs.
pub(crate) fn open(alloc: Global, pairs: &[Pair], words: u64) -> Result<Opened, OpenFault>
    requires within { words ≤ place_limit }
    ensures maker { IfOk result (λ o. IsMakerAt o.table 0 o.maker) }
{
    let mut plain = Plain::new(alloc);
    for pair in pairs {
        let Pair { key, value } = *pair;
        plain.apply(Command::Put { key, value })?;
    }
    let pairs = plain.pairs();
    if pairs.len() > 100_000 {
        return Err(OpenFault::Memory);
    }
    open_rising(alloc, pairs, words)
}

/// The pairs (1, 1), (2, 2) and so on.
pub(crate) fn numbered(alloc: Global, last: u64) -> Result<Vec<Pair>, AllocError>
    requires few { last ≤ 100000 }
{
    let mut pairs = Vec::new(alloc);
    for key in 1..last + 1 {
        pairs.push(Pair { key, value: key })?;
    }
    Ok(pairs)
}

/// A table of the pairs (1, 1), (2, 2) and so on.
pub(crate) fn open_numbered(alloc: Global, last: u64, words: u64) -> Result<Opened, OpenFault>
    requires few { last ≤ 100000 }
    requires within { words ≤ place_limit }
    ensures maker { IfOk result (λ o. IsMakerAt o.table 0 o.maker) }
{
    let pairs = numbered(alloc, last)?;
    open(alloc, pairs.as_slice(), words)
}

/// Returns the word at the place, or the greatest `u64` if the table has none there.
pub(crate) fn word_at(table: &TreeTable, token: &mut TreeToken, place: u64) -> u64
    requires same_table { token.old.view.table ≡ table.now.table }
    ensures same_table { token.new.view.table ≡ table.now.table }
{
    if place == ANCHOR_SLOT_PLACE {
        begin_search(table, token);
        return load_top(table, token);
    }
    if place < word_count(table) {
        load(table, token, place)
    } else {
        u64::MAX
    }
}

/// Returns all words of the table, in their order.
pub(crate) fn all_words(
    alloc: Global,
    table: &TreeTable,
    token: &mut TreeToken,
) -> Result<Vec<u64>, AllocError>
    requires same_table { token.old.view.table ≡ table.now.table }
    ensures same_table { token.new.view.table ≡ table.now.table }
{
    let mut words = Vec::new(alloc);
    for place in 0..word_count(table) {
        words.push(word_at(table, token, place))?;
    }
    Ok(words)
}

// Returns the word at the place, or the greatest `u64` if there is none.
fn at(words: &[u64], place: u64) -> u64 {
    match words.get(place as usize) {
        Some(word) => *word,
        None => u64::MAX,
    }
}

// Are this many words the same from these places on?
fn are_same(old: &[u64], new: &[u64], from: (u64, u64), count: u64) -> bool
    requires few { (from.0 < 2 ^ 61) × ((from.1 < 2 ^ 61) × (count < 2 ^ 60)) }
{
    for i in 0..count {
        if at(old, from.0 + i) != at(new, from.1 + i) {
            return false;
        }
    }
    true
}

/// Do both words name trees with the same rows, but for the bases? The rows of the second are open.
pub(crate) fn are_alike(
    alloc: Global,
    old: &[u64],
    new: &[u64],
    roots: (u64, u64),
) -> Result<bool, AllocError> {
    let mut left = vec![in alloc; roots]?;
    for _ in 0..1_000_000 {
        let Some((one, two)) = left.pop() else {
            return Ok(true);
        };
        let (a, b) = (one / 8, two / 8);
        let tag = one % 8;
        let degree = at(old, a + 2);
        if two % 8 != tag || degree > 100_000 && tag == 2 {
            return Ok(false);
        }
        if tag == 1 && are_same(old, new, (a, b), 2) {
            continue;
        }
        if tag != 2 || at(new, b) != 0 || !are_same(old, new, (a, b), degree + 3) {
            return Ok(false);
        }
        for i in 0..degree {
            left.push((at(old, a + degree + 3 + i), at(new, b + degree + 3 + i)))?;
        }
    }
    Ok(false)
}

/// Does the tree below the anchor have the same rows as the image's tree, but for the bases? Its
/// rows are open then.
pub(crate) fn is_image(
    alloc: Global,
    table: &TreeTable,
    token: &mut TreeToken,
    image: &[u64],
) -> Result<bool, AllocError>
    requires same_table { token.old.view.table ≡ table.now.table }
{
    let words = all_words(alloc, table, token)?;
    let roots = (*image.get(3).unwrap_or(&0), *words.get(3).unwrap_or(&0));
    are_alike(alloc, image, words.as_slice(), roots)
}
