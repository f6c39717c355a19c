//! The child of a node for a key, with what its slot holds.
ghost use Rattle.std.specs.Prelude.{◌≡◌, ℕ, ◌+◌, ◌*◌, ◌<◌, ◌≤◌, ◌^◌, length};
ghost use Rattle.ist_core.specs.RowLayout.{anchor};
ghost use Rattle.ist_core.specs.Slots.{SlotHolds, IsChildFor};
ghost use Rattle.ist_layout.specs.Meanings.{ref_meant};
ghost use Rattle.ist_rule.specs.Conditions.{MayWalk};
ghost use Rattle.ist_rule.specs.Learning.{now, GoesOnTo};
ghost use Rattle.ist_math.specs.Guess.{guess_in, distance};
ghost use Rattle.ist_rule.specs.Watching.{IsNode};
ghost use Rattle.ist_rule.specs.Faces.{IsViewAt};
ghost use Rattle.ist_find.specs.Searches.{IsRow, keys_at};
ghost use Rattle.ist_find.specs.Looks.{ReadsChild};
ghost use Rattle.ist_find.specs.Turns.{IsSlotForKey};

use crate::answers::{Child, Counted, Look, Place};
use crate::keys::{child_for, key_count};
use crate::reading::{past_change, past_rebuild};
use ist_layout::{ANCHOR, slot_place};
use ist_rule::{TreeTable, TreeToken, know, load, load_top};

/// Returns the slot for the key of an inner row, and how many loads this took.
#[inline(always)]
pub(crate) fn place_in_row(
    table: &TreeTable,
    token: &mut TreeToken,
    node: u32,
    key: u64,
) -> Counted<Place>
    requires row { IsViewAt table.now (λ v. IsRow v node) token.old.view }
    ensures seen { GoesOnTo token.old.view token.new.view }
    ensures at { let place = result.value in
        IsSlotForKey token.new.view node key place.index place.count }
    ensures counted { token.new.view.loaded ≡ token.old.view.loaded + result.loads }
    ensures loads { let guess = guess_in (keys_at token.old.view node) key in
        result.loads ≤ distance guess result.value.index + 6 }
    ensures loads_far { let guess = guess_in (keys_at token.old.view node) key in
        (k : ℕ) → distance guess result.value.index < 2 ^ k → result.loads ≤ 2 * k + 5 }
    ensures fits { result.loads + 1 < 2 ^ 30 }
    ensures within { result.value.index ≤ result.value.count }
{
    let count = key_count(table, token, node);
    let index = child_for(table, token, node, count, key);
    Counted {
        value: Place {
            count,
            index: index.value,
        },
        loads: index.loads + 1,
    }
}

/// Returns the word in a slot of an inner row.
#[inline(always)]
pub(crate) fn slot_of_row(
    table: &TreeTable,
    token: &mut TreeToken,
    node: u32,
    count: u64,
    index: u64,
) -> u64
    requires row { IsViewAt table.now (λ v. IsRow v node) token.old.view }
    requires count { count ≡ length (keys_at token.old.view node) }
    requires within { index ≤ count }
    ensures seen { GoesOnTo token.old.view token.new.view }
    ensures loads { token.new.view.loaded ≡ token.old.view.loaded + 1 }
    ensures word { SlotHolds (now token.new.view) node index result }
{
    know(token);
    load(table, token, slot_place(node, count + 1, index))
}

/// Returns the child for the key of an inner row that is published in the caller's log, and the
/// word that its slot holds at the last step of this call.
///
/// If the row has at most four keys, it loads each. Otherwise it looks first where linear
/// interpolation between the end keys points, and gallops from there: it goes on by steps of one,
/// two, four, .. keys, and halves what lies between once it passed the child.
///
/// Source: Perl, Itai and Avni, "Interpolation search", CACM 1978.
pub fn child_at(table: &TreeTable, token: &mut TreeToken, node: u32, key: u64) -> Child
    requires same_table { token.old.view.table ≡ table.now.table }
    requires row { IsRow token.old.view node }
    ensures index { IsChildFor (now token.new.view) node key result.index }
    ensures word { SlotHolds (now token.new.view) node result.index result.word }
    ensures seen { GoesOnTo token.old.view token.new.view }
    ensures loads { let guess = guess_in (keys_at token.old.view node) key in
        token.new.view.loaded ≤ token.old.view.loaded + distance guess result.index + 7 }
    ensures loads_far { let guess = guess_in (keys_at token.old.view node) key in
        (k : ℕ) → distance guess result.index < 2 ^ k
        → token.new.view.loaded ≤ token.old.view.loaded + 2 * k + 6 }
{
    child_and_loads(table, token, node, key).value
}

// The same, with its loads.
#[inline(always)]
fn child_and_loads(table: &TreeTable, token: &mut TreeToken, node: u32, key: u64) -> Counted<Child>
    requires row { IsViewAt table.now (λ v. IsRow v node) token.old.view }
    ensures index { IsChildFor (now token.new.view) node key result.value.index }
    ensures word { SlotHolds (now token.new.view) node result.value.index result.value.word }
    ensures seen { GoesOnTo token.old.view token.new.view }
    ensures counted { token.new.view.loaded ≡ token.old.view.loaded + result.loads }
    ensures loads { let guess = guess_in (keys_at token.old.view node) key in
        result.loads ≤ distance guess result.value.index + 7 }
    ensures loads_far { let guess = guess_in (keys_at token.old.view node) key in
        (k : ℕ) → distance guess result.value.index < 2 ^ k → result.loads ≤ 2 * k + 6 }
    ensures fits { result.loads < 2 ^ 30 }
{
    let place = place_in_row(table, token, node, key);
    let index = place.value.index;
    let word = slot_of_row(table, token, node, place.value.count, index);
    know(token);
    Counted {
        value: Child { index, word },
        loads: place.loads + 1,
    }
}

/// The same, also for the anchor, whose one child is for all keys. A walk begins there.
#[inline(always)]
pub(crate) fn slot_for(
    table: &TreeTable,
    token: &mut TreeToken,
    node: u32,
    key: u64,
) -> Counted<Child>
    requires node { IsViewAt table.now (λ v. IsNode (now v) node) token.old.view }
    requires top { node ≡ anchor → MayWalk token.old.view }
    ensures index { IsChildFor (now token.new.view) node key result.value.index }
    ensures word { SlotHolds (now token.new.view) node result.value.index result.value.word }
    ensures seen { GoesOnTo token.old.view token.new.view }
    ensures counted { token.new.view.loaded ≡ token.old.view.loaded + result.loads }
    ensures anchor_loads { node ≡ anchor → result.loads ≤ 1 }
    ensures row_loads { IsRow token.old.view node →
        let guess = guess_in (keys_at token.old.view node) key in
        result.loads ≤ distance guess result.value.index + 7 }
    ensures fits { result.loads < 2 ^ 30 }
{
    if node == ANCHOR {
        know(token);
        let word = load_top(table, token);
        return Counted {
            value: Child { index: 0, word },
            loads: 1,
        };
    }
    child_and_loads(table, token, node, key)
}

/// What the slot of a node for the key reads as, after its change and its rebuild are followed.
#[inline(always)]
pub(crate) fn read_child(
    table: &TreeTable,
    token: &mut TreeToken,
    node: u32,
    key: u64,
) -> Counted<Look>
    requires node { IsViewAt table.now (λ v. IsNode (now v) node) token.old.view }
    requires top { node ≡ anchor → MayWalk token.old.view }
    ensures read { let look = result.value in ReadsChild token.old.view token.new.view node key
        look.index result.loads (ref_meant look.reference) }
{
    know(token);
    let child = slot_for(table, token, node, key);
    know(token);
    let side = past_change(table, token, child.value.word);
    let reference = past_rebuild(table, token, side.value);
    Counted {
        value: Look {
            index: child.value.index,
            reference: reference.value,
        },
        loads: child.loads + side.loads + reference.loads,
    }
}
