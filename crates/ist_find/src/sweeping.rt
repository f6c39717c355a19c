//! A sweep: it reads the slots of a range of keys in order, each inner row once.
ghost use Rattle.std.specs.Prelude.{◌≡◌, ℕ, ◌+◌, ◌≤◌, ◌++◌, length, OnOk};
ghost use Rattle.ist_core.specs.RowLayout.{anchor};
ghost use Rattle.ist_core.specs.Slots.{SlotHolds, IsChildFor};
ghost use Rattle.ist_layout.specs.Meanings.{ref_meant};
ghost use Rattle.ist_rule.specs.Conditions.{MayWalk};
ghost use Rattle.ist_rule.specs.Learning.{now, GoesOnTo};
ghost use Rattle.ist_rule.specs.Watching.{IsNode};
ghost use Rattle.ist_rule.specs.Faces.{IsViewAt};
ghost use Rattle.ist_find.specs.Searches.{keys_at};
ghost use Rattle.ist_find.specs.Reads.{IsFoundAs, IsEnd};
ghost use Rattle.ist_find.specs.Sweeps.{WereLed, HasSwept, SweptBetween, LookedSince, starting, one_of};
ghost use Rattle.ist_find.specs.Turns.{IsSlotForKey, SlotEnds, HasReadSlot, LeadsBelow, HasReadEnd, HasSweptSlot};

use crate::answers::{KeyRange, Place};
use crate::children::{place_in_row, slot_of_row};
use crate::reading::{past_change, past_rebuild};
use crate::spans::{end_pair, last_of, pair_within};
use ist_core::Pair;
use ist_layout::{ANCHOR, Ref};
use ist_rule::{TreeTable, TreeToken, know, load_top};
use std::alloc::AllocError;

// What a slot of a node read as, and the last of its keys.
#[derive(Clone, Copy, Drop)]
struct SlotRead {
    reference: Ref,
    to: u64,
}

// The slot of a node for the key. The anchor has no keys, and one slot.
fn first_slot(table: &TreeTable, token: &mut TreeToken, node: u32, key: u64) -> Place
    requires node { IsViewAt table.now (λ v. IsNode (now v) node) token.old.view }
    ensures seen { GoesOnTo token.old.view token.new.view }
    ensures loads { token.new.view.loaded ≤ token.old.view.loaded + starting token.old.view node key }
    ensures at { IsSlotForKey token.new.view node key result.index result.count }
    ensures stays { node ≡ anchor → token.new.view ≡ token.old.view }
{
    know(token);
    if node == ANCHOR {
        return Place { count: 0, index: 0 };
    }
    place_in_row(table, token, node, key).value
}

// The greatest key up to `last` that has the same slot as `from`.
fn slot_end(
    table: &TreeTable,
    token: &mut TreeToken,
    node: u32,
    place: Place,
    from: u64,
    last: u64,
) -> u64
    requires at { IsViewAt table.now
        (λ v. IsSlotForKey v node from place.index place.count) token.old.view }
    requires some { from ≤ last }
    ensures seen { GoesOnTo token.old.view token.new.view }
    ensures loads { token.new.view.loaded ≤ token.old.view.loaded + 1 }
    ensures ends { SlotEnds token.old.view node from result last place.index place.count }
    ensures stays { node ≡ anchor → token.new.view ≡ token.old.view }
{
    know(token);
    if node == ANCHOR {
        return last;
    }
    last_of(table, token, node, place.count, place.index, from, last)
}

// The word in a slot of a node.
fn slot_word(table: &TreeTable, token: &mut TreeToken, node: u32, place: Place) -> u64
    requires node { IsViewAt table.now (λ v. IsNode (now v) node) token.old.view }
    requires count { place.count ≡ length (keys_at token.old.view node) }
    requires within { place.index ≤ place.count }
    requires top { node ≡ anchor → MayWalk token.old.view }
    ensures seen { GoesOnTo token.old.view token.new.view }
    ensures loads { token.new.view.loaded ≡ token.old.view.loaded + 1 }
    ensures holds { SlotHolds (now token.new.view) node place.index result }
{
    know(token);
    if node == ANCHOR {
        return load_top(table, token);
    }
    slot_of_row(table, token, node, place.count, place.index)
}

// What a slot of a node reads as, by loads that are a look for each key of that slot.
fn read_slot(table: &TreeTable, token: &mut TreeToken, node: u32, place: Place) -> Ref
    requires node { IsViewAt table.now (λ v. IsNode (now v) node) token.old.view }
    requires count { place.count ≡ length (keys_at token.old.view node) }
    requires within { place.index ≤ place.count }
    requires top { node ≡ anchor → MayWalk token.old.view }
    ensures seen { GoesOnTo token.old.view token.new.view }
    ensures loads { token.new.view.loaded ≤ token.old.view.loaded + 4 }
    ensures found { IsFoundAs token.new.view (ref_meant result) }
    ensures looked { (key least : ℕ) → least ≤ length token.old.view.log
        → IsChildFor (now token.old.view) node key place.index
        → LookedSince token.new.view key least node place.index (ref_meant result) }
{
    know(token);
    let word = slot_word(table, token, node, place);
    know(token);
    let side = past_change(table, token, word);
    let reference = past_rebuild(table, token, side.value);
    reference.value
}

// Reads the slot of the key `from`, and which keys up to `last` share it.
fn read_from(
    table: &TreeTable,
    token: &mut TreeToken,
    node: u32,
    place: Place,
    from: u64,
    last: u64,
) -> SlotRead
    requires at { IsViewAt table.now
        (λ v. IsSlotForKey v node from place.index place.count) token.old.view }
    requires some { from ≤ last }
    requires top { node ≡ anchor → MayWalk token.old.view }
    ensures read { HasReadSlot token.old.view token.new.view node from result.to last
        place.index place.count (ref_meant result.reference) }
{
    know(token);
    let to = slot_end(table, token, node, place, from, last);
    let reference = read_slot(table, token, node, place);
    SlotRead { reference, to }
}

// Adds the pair to what was found, if there is one.
fn push_pair(found: &mut Vec<Pair>, pair: Option<Pair>) -> Result<(), AllocError>
    ensures found { OnOk result (found.new.items ≡ found.old.items ++ one_of pair) }
{
    match pair {
        Some(pair) => {
            found.push(pair)?;
            Ok(())
        }
        None => Ok(()),
    }
}

// Adds the pair of a slot that holds no row, if its key is one of those that are asked for.
fn sweep_end(
    table: &TreeTable,
    token: &mut TreeToken,
    from: u64,
    read: SlotRead,
    found: &mut Vec<Pair>,
) -> Result<(), AllocError>
    requires end { IsViewAt table.now (λ v. IsEnd v (ref_meant read.reference)) token.old.view }
    ensures seen { GoesOnTo token.old.view token.new.view }
    ensures read { OnOk result (HasReadEnd token.old.view token.new.view from read.to
        (ref_meant read.reference) found.old.items found.new.items) }
{
    let pair = end_pair(table, token, read.reference);
    let ends = KeyRange {
        first: from,
        last: read.to,
    };
    push_pair(found, pair_within(pair, ends))
}

// Sweeps the keys of one slot, which begin at `from`: below its row, if it holds one.
#[cycle(sweeping)]
fn sweep_slot(
    table: &TreeTable,
    token: &mut TreeToken,
    node: u32,
    from: u64,
    read: SlotRead,
    found: &mut Vec<Pair>,
) -> Result<(), AllocError>
    requires below { IsViewAt table.now
        (λ v. LeadsBelow v node from read.to (ref_meant read.reference)) token.old.view }
    requires some { from ≤ read.to }
    ensures seen { GoesOnTo token.old.view token.new.view }
    ensures swept { OnOk result (HasSweptSlot token.old.view token.new.view from read.to
        (ref_meant read.reference) found.old.items found.new.items) }
{
    match read.reference {
        Ref::Inner { base } => sweep_below(table, token, base, from, read.to, found),
        _ => sweep_end(table, token, from, read, found),
    }
}

// Sweeps the keys from `first` to `last`, each of which led to the node. It ends, since bases rise on
// the way down.
#[cycle(sweeping)]
fn sweep_below(
    table: &TreeTable,
    token: &mut TreeToken,
    node: u32,
    first: u64,
    last: u64,
    found: &mut Vec<Pair>,
) -> Result<(), AllocError>
    requires led { IsViewAt table.now (λ v. WereLed v first last node) token.old.view }
    requires some { first ≤ last }
    requires top { node ≡ anchor → MayWalk token.old.view }
    ensures seen { GoesOnTo token.old.view token.new.view }
    ensures swept { OnOk result (HasSwept token.old.view token.new.view first (last + 1) last node 0
        (starting token.old.view node first) found.old.items found.new.items) }
{
    know(token);
    let mut place = first_slot(table, token, node, first);
    let mut from = first;
    'slots: loop {
        let read = read_from(table, token, node, place, from, last);
        sweep_slot(table, token, node, from, read, found)?;
        if read.to == last {
            return Ok(());
        }
        from = read.to + 1;
        place = Place {
            count: place.count,
            index: place.index + 1,
        };
    }
}

/// Reads the keys from `first` to `last` upwards by loads only, and appends their pairs to `found`.
///
/// Right after a read was begun it goes down from the anchor, once, and reads each slot of these keys once, in their order. Each key
/// has the value that the pairs give it at a position of its own during the call, and none at an earlier
/// one than a lesser key: also where a row is replaced meanwhile. Never blocks. If allocation fails
/// it returns an error; `found` then has some of the pairs.
pub fn sweep(
    table: &TreeTable,
    token: &mut TreeToken,
    first: u64,
    last: u64,
    found: &mut Vec<Pair>,
) -> Result<(), AllocError>
    requires same_table { token.old.view.table ≡ table.now.table }
    requires may_walk { MayWalk token.old.view }
    requires some { first ≤ last }
    ensures seen { GoesOnTo token.old.view token.new.view }
    ensures swept { OnOk result (SweptBetween token.old.view token.new.view first last
        found.old.items found.new.items) }
{
    know(token);
    sweep_below(table, token, ANCHOR, first, last, found)
}
