//! Leaves of a finished row by their numbers, and the ideal subtree over all of them.
ghost use Rattle.std.specs.Prelude.{◌≡◌, ◌≤◌, ◌<◌, IsTrue};
ghost use Rattle.test_rebuilds.specs.Steps.{HasMarkedTarget};
ghost use Rattle.ist_core.specs.Shapes.{share_from};
ghost use Rattle.ist_rows.specs.Going.{IsReady};
ghost use Rattle.ist_rows.specs.Rows.{IsAtTable};
ghost use Rattle.ist_rule.specs.Learning.{now};

use crate::callers::{Marked, begin, enter_call, mark, see_row};
use crate::judging::same;
use crate::tables::{Opened, all_words, are_alike, numbered, open_numbered, word_at};
use ist_build::{build_part, leaf_at};
use ist_core::{Full, Pair};
use ist_layout::Ref;
use ist_math::SHARE_FROM;
use ist_math::laws::shared_roots_have_several_keys;
use ist_rebuild::Started;
use ist_rows::Caller;
use ist_rule::{TreeTable, TreeToken, know};
use ist_tree::OpenFault;
use std::alloc::{AllocError, Global};

// Returns the base of the leaf that the reference names.
fn base_of(reference: Ref) -> u32 {
    match reference {
        Ref::Leaf { base } => base,
        _ => 0,
    }
}

// Returns the base of the leaf number `i` of the finished target.
fn leaf_base(table: &TreeTable, who: &mut Caller, rebuild: u32, marked: Marked, i: u64) -> u32
    requires ready { IsAtTable table.now IsReady who.old }
    requires marked { HasMarkedTarget (now who.old.token.view) rebuild marked.target marked.keys }
    requires within { i < marked.keys }
    ensures ready { IsAtTable table.now IsReady who.new }
    ensures marked { HasMarkedTarget (now who.new.token.view) rebuild marked.target marked.keys }
{
    know(&who.token);
    let leaf = leaf_at(table, &mut who.token, marked.target, i);
    base_of(leaf)
}

/// Are the leaves of the finished target these pairs, in this order, and no more?
pub(crate) fn are_pairs(
    table: &TreeTable,
    maker: &mut TreeToken,
    who: &mut Caller,
    rebuild: u32,
    marked: Marked,
    pairs: &[Pair],
) -> bool
    requires maker_table { maker.old.view.table ≡ table.now.table }
    requires ready { IsAtTable table.now IsReady who.old }
    requires marked { HasMarkedTarget (now who.old.token.view) rebuild marked.target marked.keys }
    ensures maker_table { maker.new.view.table ≡ table.now.table }
    ensures ready { IsAtTable table.now IsReady who.new }
    ensures marked { HasMarkedTarget (now who.new.token.view) rebuild marked.target marked.keys }
{
    let mut right = pairs.len() as u64 == marked.keys;
    for i in 0..marked.keys {
        let base = u64::from(leaf_base(table, who, rebuild, marked, i));
        let key = word_at(table, maker, base);
        let value = word_at(table, maker, base + 1);
        right = right && pairs.get(i as usize) == Some(&Pair { key, value });
    }
    right
}

// Builds the ideal subtree over all leaves of the finished target, in rows that stay the caller's.
fn part(table: &TreeTable, who: &mut Caller, rebuild: u32, marked: Marked) -> Result<Ref, Full>
    requires ready { IsAtTable table.now IsReady who.old }
    requires marked { HasMarkedTarget (now who.old.token.view) rebuild marked.target marked.keys }
    requires few { marked.keys < share_from }
{
    build_part(table, who, marked.target, 0, marked.keys)
}

// Is the root over this many keys built whole?
fn are_few(keys: u64) -> bool
    ensures few { IsTrue result → keys < share_from }
{
    shared_roots_have_several_keys();
    keys < SHARE_FROM
}

/// Is the ideal subtree over all leaves of the finished target, which the caller builds, the tree of the image?
pub(crate) fn is_part(
    table: &TreeTable,
    alloc: Global,
    maker: &mut TreeToken,
    who: &mut Caller,
    rebuild: u32,
    marked: Marked,
    image: &[u64],
) -> Result<bool, AllocError>
    requires maker_table { maker.old.view.table ≡ table.now.table }
    requires ready { IsAtTable table.now IsReady who.old }
    requires marked { HasMarkedTarget (now who.old.token.view) rebuild marked.target marked.keys }
    ensures maker_table { maker.new.view.table ≡ table.now.table }
{
    if !are_few(marked.keys) {
        return Ok(false);
    }
    let Ok(Ref::Inner { base }) = part(table, who, rebuild, marked) else {
        return Ok(false);
    };
    let words = all_words(alloc, table, maker)?;
    let roots = (*image.get(3).unwrap_or(&0), u64::from(base) * 8 + 2);
    are_alike(alloc, image, words.as_slice(), roots)
}

// Is the leaf of each number its key's, and the part over them the tree of the image?
fn agree_in(
    table: &TreeTable,
    alloc: Global,
    maker: &mut TreeToken,
    who: &mut Caller,
    last: u64,
    image: &[u64],
) -> Result<(bool, bool), OpenFault>
    requires maker_table { maker.old.view.table ≡ table.now.table }
    requires ready { IsAtTable table.now IsReady who.old }
    requires few { last ≤ 100000 }
{
    let Some(target) = see_row(table, who) else {
        return Ok((false, false));
    };
    let Ok(Started::Yes { rebuild }) = begin(table, who, target) else {
        return Ok((false, false));
    };
    let marked = mark(table, who, rebuild);
    if marked.keys != last || marked.target != target {
        return Ok((false, false));
    }
    let pairs = numbered(alloc, last)?;
    let right = are_pairs(table, maker, who, rebuild, marked, pairs.as_slice());
    let part = is_part(table, alloc, maker, who, rebuild, marked, image)?;
    Ok((right, part))
}

// The same in a new table of this many pairs.
fn agree(alloc: Global, last: u64) -> Result<(bool, bool), OpenFault> {
    if last > 200 {
        return Ok((false, false));
    }
    let Opened {
        table,
        mut maker,
        image,
    } = open_numbered(alloc, last, 20_000)?;
    let mut who = enter_call(&table, &mut maker);
    agree_in(&table, alloc, &mut maker, &mut who, last, image.as_slice())
}

#[test]
fn leaves_are_numbered_by_their_keys_and_the_part_over_them_is_ideal(rt: HostRuntime) {
    for last in [2, 3, 16, 17, 100, 200] {
        same(&rt, &agree(rt.alloc(), last), &Ok((true, true)), last);
    }
}
