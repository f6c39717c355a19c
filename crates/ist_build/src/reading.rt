//! Reading the leaves of a finished target, in the order of their keys.
ghost use Rattle.std.specs.Prelude.{◌≡◌, ◌+◌, ◌<◌, ◌≤◌, ℕ, Some, List, [], ◌∷◌, length};
ghost use Rattle.ist_core.specs.Leaves.{PlacedLeaf, HasLeaves};
ghost use Rattle.ist_core.specs.Marking.{IsFrozen};
ghost use Rattle.ist_core.specs.Rebuilding.{IsFinishedWith};
ghost use Rattle.ist_core.specs.References.{InnerAt};
ghost use Rattle.ist_core.specs.Slots.{SlotHolds, logical};
ghost use Rattle.laws_links.specs.Linking.{IsFinished};
ghost use Rattle.ist_rule.specs.Learning.{now, GoesOnTo};
ghost use Rattle.ist_rule.specs.Faces.{IsViewAt};
ghost use Rattle.ist_build.specs.Reading.{HasSlots, IsUnder, HasRead};

use crate::below::FinishedChild;
use ist_dcss::{change_in, target_of};
use ist_layout::{CHANGE_FROM_OFFSET, INNER_DEGREE_OFFSET, INNER_STATUS_OFFSET, Ref, slot_place};
use ist_rule::{TreeTable, TreeToken, know, load};

// How far the reading is: how many leaves must still be skipped, and how many were written.
#[derive(Clone, Copy, Drop)]
pub(crate) struct Cursor {
    pub(crate) skip: u64,
    pub(crate) count: usize,
}

// Returns the word with which the slot was passed, and how many loads it took. If a change is in the
// slot, it came too late: the word is the one that it would take out. Inlined, so that callers who
// ignore the number of loads don't count them.
#[inline(always)]
fn passed_word(
    table: &TreeTable,
    token: &mut TreeToken,
    node: u32,
    degree: u64,
    index: u64,
) -> (u64, u64)
    requires slots { IsViewAt table.now (λ v. HasSlots v node degree) token.old.view }
    requires within { index < degree }
    ensures seen { GoesOnTo token.old.view token.new.view }
    ensures frozen { IsFrozen token.new.view.log node index result.0 }
    ensures counted { token.new.view.loaded ≡ token.old.view.loaded + result.1 }
    ensures few { result.1 ≤ 2 }
{
    know(token);
    let word = load(table, token, slot_place(node, degree, index));
    match change_in(word) {
        Some(change) => (
            load(table, token, u64::from(change) + CHANGE_FROM_OFFSET),
            2,
        ),
        None => (word, 1),
    }
}

// Returns the number of keys with which the node is finished.
pub(crate) fn keys_of(table: &TreeTable, token: &mut TreeToken, node: u32) -> u64
    requires finished { IsViewAt table.now (λ v. IsFinished (now v) node) token.old.view }
    ensures seen { GoesOnTo token.old.view token.new.view }
    ensures finished { IsFinishedWith (now token.new.view) node result }
    ensures counted { token.new.view.loaded ≡ token.old.view.loaded + 1 }
{
    know(token);
    // A finished status is 4 * keys + 3.
    load(table, token, u64::from(node) + INNER_STATUS_OFFSET) / 4
}

// Returns what hangs below a slot of the finished node, and how many loads it took to find out. Inlined
// as `passed_word` is.
#[inline(always)]
pub(crate) fn look_below(
    table: &TreeTable,
    token: &mut TreeToken,
    node: u32,
    degree: u64,
    index: u64,
) -> (FinishedChild, u64)
    requires slots { IsViewAt table.now (λ v. HasSlots v node degree) token.old.view }
    requires within { index < degree }
    ensures seen { GoesOnTo token.old.view token.new.view }
    ensures under { IsUnder token.new.view node index result.0 }
    ensures counted { token.new.view.loaded ≡ token.old.view.loaded + result.1 }
    ensures few { result.1 ≤ 4 }
{
    let passed = passed_word(table, token, node, degree, index);
    know(token);
    match Ref::from_word(passed.0) {
        Some(Ref::Empty) => (FinishedChild::Nothing, passed.1),
        Some(Ref::Leaf { base }) => (FinishedChild::Leaf { base }, passed.1),
        Some(Ref::Inner { base }) => {
            let keys = keys_of(table, token, base);
            (FinishedChild::Row { base, keys }, passed.1 + 1)
        }
        Some(Ref::Rebuild { base }) => {
            let target = target_of(table, token, base);
            let keys = keys_of(table, token, target);
            (FinishedChild::Row { base: target, keys }, passed.1 + 2)
        }
        Some(Ref::Unset) => unreachable!(),
        Some(Ref::Change { base: _ }) => unreachable!(),
        None => unreachable!(),
    }
}

// Takes one leaf, unless it must be skipped or there is no room.
fn take_leaf(base: u32, into: &mut [u32], at: Cursor) -> Cursor
    requires within { at.count ≤ length into.old }
    ensures within { result.count ≤ length into.new }
    ensures read { (leaf : PlacedLeaf) → leaf.base ≡ base
        → HasRead into.old at (leaf ∷ []) into.new result }
{
    if at.skip > 0 {
        return Cursor {
            skip: at.skip - 1,
            count: at.count,
        };
    }
    if at.count == into.len() {
        return at;
    }
    into[at.count] = base;
    Cursor {
        skip: 0,
        count: at.count + 1,
    }
}

// Returns the number of slots of the finished node.
pub(crate) fn degree_of(table: &TreeTable, token: &mut TreeToken, node: u32) -> u64
    requires finished { IsViewAt table.now (λ v. IsFinished (now v) node) token.old.view }
    ensures seen { GoesOnTo token.old.view token.new.view }
    ensures slots { HasSlots token.new.view node result }
    ensures counted { token.new.view.loaded ≡ token.old.view.loaded + 1 }
{
    know(token);
    load(table, token, u64::from(node) + INNER_DEGREE_OFFSET)
}

// Reads the leaves below one slot.
#[cycle(reading)]
fn read_slot(
    table: &TreeTable,
    token: &mut TreeToken,
    node: u32,
    degree: u64,
    index: u64,
    into: &mut [u32],
    at: Cursor,
) -> Cursor
    requires slots { IsViewAt table.now (λ v. HasSlots v node degree) token.old.view }
    requires index_within { index < degree }
    requires within { at.count ≤ length into.old }
    ensures seen { GoesOnTo token.old.view token.new.view }
    ensures within { result.count ≤ length into.new }
    ensures read { (word : ℕ) (leaves : List PlacedLeaf)
        → SlotHolds (now token.old.view) node index word
        → HasLeaves (now token.old.view).pieces (logical (now token.old.view).pieces word) leaves
        → HasRead into.old at leaves into.new result }
{
    know(token);
    match look_below(table, token, node, degree, index).0 {
        FinishedChild::Nothing => at,
        FinishedChild::Leaf { base } => take_leaf(base, into, at),
        FinishedChild::Row { base, keys } => {
            if at.skip >= keys {
                return Cursor {
                    skip: at.skip - keys,
                    count: at.count,
                };
            }
            read_leaves(table, token, base, into, at)
        }
    }
}

// Reads the leaves of a finished node in the order of their keys: skips as many as the cursor says,
// and writes the bases of the others after those that were written before, as far as there is room.
#[cycle(reading)]
pub(crate) fn read_leaves(
    table: &TreeTable,
    token: &mut TreeToken,
    node: u32,
    into: &mut [u32],
    at: Cursor,
) -> Cursor
    requires finished { IsViewAt table.now (λ v. IsFinished (now v) node) token.old.view }
    requires within { at.count ≤ length into.old }
    ensures seen { GoesOnTo token.old.view token.new.view }
    ensures within { result.count ≤ length into.new }
    ensures read { (leaves : List PlacedLeaf)
        → HasLeaves (now token.old.view).pieces (Some (InnerAt node)) leaves
        → HasRead into.old at leaves into.new result }
{
    know(token);
    let degree = degree_of(table, token, node);
    let mut at = at;
    for index in 0..degree {
        if at.count == into.len() {
            return at;
        }
        at = read_slot(table, token, node, degree, index, into, at);
    }
    at
}
