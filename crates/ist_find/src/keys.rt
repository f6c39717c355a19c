//! In which child of a node a key lies.
ghost use Rattle.std.specs.Prelude.{◌≡◌, ◌+◌, ◌-◌, ◌<◌, ◌≤◌, length, slice_index};
ghost use Rattle.ist_core.specs.RowLayout.{place_limit};
ghost use Rattle.ist_core.specs.Arithmetic.{child_count};
ghost use Rattle.ist_rule.specs.Learning.{GoesOnTo};
ghost use Rattle.ist_math.specs.Guess.{guess_in};
ghost use Rattle.ist_rule.specs.Faces.{IsViewAt};
ghost use Rattle.ist_find.specs.Searches.{IsRow, keys_at};
ghost use Rattle.ist_find.specs.Looks.{FindsChild};

use crate::answers::Counted;
use ist_layout::{INNER_DEGREE_OFFSET, key_place};
use ist_math::{FEW_KEYS, Gallop, guess};
use ist_rule::{TreeTable, TreeToken, know, load};

/// Returns how many keys an inner row has.
pub(crate) fn key_count(table: &TreeTable, token: &mut TreeToken, node: u32) -> u64
    requires row { IsViewAt table.now (λ v. IsRow v node) token.old.view }
    ensures seen { GoesOnTo token.old.view token.new.view }
    ensures loads { token.new.view.loaded ≡ token.old.view.loaded + 1 }
    ensures value { result ≡ length (keys_at token.old.view node) }
    ensures low { result + 1 < place_limit }
{
    know(token);
    let degree = load(table, token, u64::from(node) + INNER_DEGREE_OFFSET);
    degree - 1
}

/// Returns key `j` of an inner row, counted from 0.
pub(crate) fn key_at(table: &TreeTable, token: &mut TreeToken, node: u32, j: u64) -> u64
    requires row { IsViewAt table.now (λ v. IsRow v node) token.old.view }
    requires within { j < length (keys_at token.old.view node) }
    ensures seen { GoesOnTo token.old.view token.new.view }
    ensures loads { token.new.view.loaded ≡ token.old.view.loaded + 1 }
    ensures value { result ≡ slice_index (keys_at token.old.view node) j }
{
    know(token);
    load(table, token, key_place(node, j + 1))
}

// The keys at both ends of a row.
#[derive(Clone, Copy, Drop)]
struct EndKeys {
    first: u64,
    last: u64,
}

// The keys at both ends of a row that has keys.
fn end_keys(table: &TreeTable, token: &mut TreeToken, node: u32, count: u64) -> EndKeys
    requires row { IsViewAt table.now (λ v. IsRow v node) token.old.view }
    requires count { count ≡ length (keys_at token.old.view node) }
    requires some { 1 ≤ count }
    ensures seen { GoesOnTo token.old.view token.new.view }
    ensures loads { token.new.view.loaded ≡ token.old.view.loaded + 2 }
    ensures first { result.first ≡ slice_index (keys_at token.old.view node) 0 }
    ensures last { let keys = keys_at token.old.view node in
        result.last ≡ slice_index keys (length keys - 1) }
{
    let first = key_at(table, token, node, 0);
    let last = key_at(table, token, node, count - 1);
    EndKeys { first, last }
}

// How many keys of a row are at most `key`, found by a look at each.
fn count_through(table: &TreeTable, token: &mut TreeToken, node: u32, count: u64, key: u64) -> u64
    requires row { IsViewAt table.now (λ v. IsRow v node) token.old.view }
    requires count { count ≡ length (keys_at token.old.view node) }
    ensures seen { GoesOnTo token.old.view token.new.view }
    ensures loads { token.new.view.loaded ≡ token.old.view.loaded + count }
    ensures value { result ≡ child_count (keys_at token.old.view node) key }
{
    know(token);
    let mut found = 0;
    for j in 0..count {
        if key_at(table, token, node, j) <= key {
            found += 1;
        }
    }
    found
}

// The child for a key between the end keys, found by a gallop from a guess, and its loads.
fn gallop_from(
    table: &TreeTable,
    token: &mut TreeToken,
    node: u32,
    count: u64,
    from: u64,
    key: u64,
) -> Counted<u64>
    requires row { IsViewAt table.now (λ v. IsRow v node) token.old.view }
    requires count { count ≡ length (keys_at token.old.view node) }
    requires fits { count < place_limit }
    requires some { 1 ≤ from }
    requires within { from < count }
    requires first { slice_index (keys_at token.old.view node) 0 ≤ key }
    requires last { let keys = keys_at token.old.view node in
        key < slice_index keys (length keys - 1) }
    ensures finds { FindsChild token.old.view token.new.view node key count from 0 result.value
        result.loads }
{
    know(token);
    let mut gallop = Gallop::begin(count, from, key_at(table, token, node, from) > key);
    let mut loads = 1;
    while gallop.is_open() {
        let at = gallop.probe();
        gallop = gallop.told(at, key_at(table, token, node, at) > key);
        loads += 1;
    }
    Counted {
        value: gallop.high,
        loads,
    }
}

// The child in a row of more than four keys, and the loads of its keys.
#[inline(always)]
fn child_among_many(
    table: &TreeTable,
    token: &mut TreeToken,
    node: u32,
    count: u64,
    key: u64,
) -> Counted<u64>
    requires row { IsViewAt table.now (λ v. IsRow v node) token.old.view }
    requires count { count ≡ length (keys_at token.old.view node) }
    requires fits { count < place_limit }
    requires many { 4 < count }
    ensures finds { let guess = guess_in (keys_at token.old.view node) key in
        FindsChild token.old.view token.new.view node key count guess 2 result.value result.loads }
{
    know(token);
    let ends = end_keys(table, token, node, count);
    if key < ends.first {
        return Counted { value: 0, loads: 2 };
    }
    if ends.last <= key {
        let value = count;
        return Counted { value, loads: 2 };
    }
    let from = guess(ends.first, ends.last, count, key);
    let child = gallop_from(table, token, node, count, from, key);
    let loads = child.loads + 2;
    let value = child.value;
    Counted { value, loads }
}

/// Returns the child of an inner row for the key, which is the number of its keys that are at most
/// `key`, and how many loads this took.
#[inline(always)]
pub(crate) fn child_for(
    table: &TreeTable,
    token: &mut TreeToken,
    node: u32,
    count: u64,
    key: u64,
) -> Counted<u64>
    requires row { IsViewAt table.now (λ v. IsRow v node) token.old.view }
    requires count { count ≡ length (keys_at token.old.view node) }
    requires fits { count < place_limit }
    ensures finds { let guess = guess_in (keys_at token.old.view node) key in
        FindsChild token.old.view token.new.view node key count guess 2 result.value result.loads }
{
    if count <= FEW_KEYS {
        let value = count_through(table, token, node, count, key);
        let loads = count;
        return Counted { value, loads };
    }
    child_among_many(table, token, node, count, key)
}
