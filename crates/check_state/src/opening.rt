//! The replica of a new table.
ghost use Rattle.std.specs.Prelude.{◌≡◌, ◌≤◌, ◌<◌, ◌^◌, List, length, map, drop, IfOk, OnOk};
ghost use Rattle.ist_core.specs.declared.pairs.Pair.{Pair as APair};
ghost use Rattle.ist_core.specs.Lawful.{CanOpen};
ghost use Rattle.ist_core.specs.Parts as cuts;
ghost use Rattle.ist_core.specs.Pieces.{Inner};
ghost use Rattle.ist_core.specs.References.{word_of as the_word};
ghost use Rattle.ist_core.specs.StartLayout as layout;
ghost use Rattle.ist_core.specs.StartLayout.{start, tree_at, placed_parts, rows_from};
ghost use Rattle.check_events.specs.Mirroring.{Mirrors};
ghost use Rattle.ist_image.specs.Placing.{rows_after, FitsAt};
ghost use Rattle.check_state.specs.Laying.{Publishes};

use crate::publishing::{put_inner, put_leaf};
use check_events::{Replica, no_rows};
use ist_core::{InnerRow, LeafRow, Pair, Words};
use ist_image::tree_word;
use ist_layout::{FIRST_ROW, inner_words};
use ist_math::{degree, ideal_words, part};
use std::alloc::{AllocError, Global};
use std::collections::BTreeMap;

/// The status of a node that isn't marked.
const OPEN_WORD: u64 = 0;

/// Makes the replica of a new table of `words` words with these pairs: their ideal tree begins at
/// the first row, and no caller has entered.
pub fn open_replica(alloc: Global, pairs: &[Pair], words: u64) -> Result<Replica, AllocError>
    requires opens { CanOpen pairs.now words }
    ensures mirrors { IfOk result (λ replica. Mirrors replica (start pairs.now words)) }
{
    let count = pairs.len() as u64;
    let first = u64::from(FIRST_ROW);
    let mut replica = Replica {
        words,
        next: first + ideal_words(count),
        callers: 0,
        anchor: tree_word(first, count),
        leaves: BTreeMap::new(alloc),
        inners: BTreeMap::new(alloc),
        changes: BTreeMap::new(alloc),
        rebuilds: BTreeMap::new(alloc),
        held: no_rows(alloc),
    };
    put_tree(alloc, &mut replica, first, pairs)?;
    Ok(replica)
}

/// Publishes the rows of the tree of these pairs, from the base on.
#[cycle(laying)]
fn put_tree(
    alloc: Global,
    replica: &mut Replica,
    base: u64,
    pairs: &[Pair],
) -> Result<(), AllocError>
    requires few { length pairs.now < 2 ^ 28 }
    requires fits { FitsAt base (length pairs.now) }
    ensures exact { OnOk result
        (Publishes replica.old replica.new (rows_from base pairs.now)) }
{
    match pairs {
        [] => Ok(()),
        [pair] => put_leaf(
            replica,
            base,
            LeafRow {
                key: pair.key,
                value: pair.value,
            },
        ),
        [_, _, ..] => {
            let row = top_row(alloc, base, pairs)?;
            put_parts(alloc, replica, base, pairs)?;
            put_inner(replica, base, row)
        }
    }
}

/// Publishes the rows of the trees of the parts, which follow an inner row at the base. The last
/// part comes first.
#[cycle(laying)]
fn put_parts(
    alloc: Global,
    replica: &mut Replica,
    base: u64,
    pairs: &[Pair],
) -> Result<(), AllocError>
    requires several { 2 ≤ length pairs.now }
    requires few { length pairs.now < 2 ^ 28 }
    requires fits { FitsAt base (length pairs.now) }
    ensures exact { OnOk result
        (Publishes replica.old replica.new (rows_after base pairs.now 0)) }
{
    let count = pairs.len() as u64;
    let mut at = base + ideal_words(count);
    let mut j = degree(count);
    while j > 0 {
        j -= 1;
        let place = part(count, j);
        at -= ideal_words(place.len);
        let start = place.start as usize;
        let end = start + place.len as usize;
        put_tree(alloc, replica, at, &pairs[start..end])?;
    }
    Ok(())
}

/// Makes the first row of the tree of two pairs or more.
fn top_row(alloc: Global, base: u64, pairs: &[Pair]) -> Result<InnerRow, AllocError>
    requires several { 2 ≤ length pairs.now }
    requires few { length pairs.now < 2 ^ 28 }
    requires fits { FitsAt base (length pairs.now) }
    ensures value { IfOk result (λ row. Inner row ≡ layout.top_row base pairs.now) }
{
    let count = pairs.len() as u64;
    Ok(InnerRow {
        status: OPEN_WORD,
        count: 0,
        degree: degree(count),
        size: count,
        keys: keys_of(alloc, pairs)?,
        slots: slots_of(alloc, base, count)?,
    })
}

/// Returns the first key of each part except the first.
fn keys_of(alloc: Global, pairs: &[Pair]) -> Result<Words, AllocError>
    requires several { 2 ≤ length pairs.now }
    requires fits { length pairs.now < 2 ^ 32 }
    ensures value { IfOk result (λ keys. keys
        ≡ cuts.first_keys (λ pair. pair.key) (drop 1 (cuts.parts pairs.now))) }
{
    let count = pairs.len() as u64;
    let mut keys = Vec::new(alloc);
    for j in 1..degree(count) {
        let start = part(count, j).start as usize;
        keys.push(pairs[start].key)?;
    }
    Ok(Words::from_vec(keys))
}

/// Returns the words for the trees of the parts of `count` pairs, below an inner row at the base.
fn slots_of(alloc: Global, base: u64, count: u64) -> Result<Words, AllocError>
    requires several { 2 ≤ count }
    requires few { count < 2 ^ 28 }
    requires fits { FitsAt base count }
    ensures value { IfOk result (λ slots. (pairs : List APair) → length pairs ≡ count
        → slots ≡ map (λ part. the_word (tree_at part.0 part.1)) (placed_parts base pairs)) }
{
    let children = degree(count);
    let mut at = base + inner_words(children);
    let mut slots = Vec::new(alloc);
    for j in 0..children {
        let len = part(count, j).len;
        slots.push(tree_word(at, len))?;
        at += ideal_words(len);
    }
    Ok(Words::from_vec(slots))
}
