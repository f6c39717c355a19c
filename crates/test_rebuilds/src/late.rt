//! Puts whose change is filled while the node is open, and installed whenever the test says.
ghost use Rattle.std.specs.Prelude.{◌≡◌, true, ℕ, Some, None, IfOk, IfSome};
ghost use Rattle.test_rebuilds.specs.Late.{put_of, row_of_put, HasBoth, HasReachedSlot, IsFilled, WasAt};
ghost use Rattle.ist_core.specs.declared.commands.Command.TheVariants.{Put};
ghost use Rattle.ist_core.specs.Installing.{HasRoomFor, IsLeafOf};
ghost use Rattle.ist_core.specs.References.{ref_of, InnerAt, IsGoodBase};
ghost use Rattle.ist_dcss.specs.declared.decisions.Installed.TheVariants.{Yes};
ghost use Rattle.ist_dcss.specs.Helping.{MayHelp};
ghost use Rattle.ist_dcss.specs.Installing.{rows_of, Filling};
ghost use Rattle.ist_find.specs.Searches.{SeesLeaf};
ghost use Rattle.ist_rows.specs.Building.{HasRefused};
ghost use Rattle.ist_rows.specs.Rows.{IsCaller, IsAtTable, row_of, spares_of, with_spare};
ghost use Rattle.ist_rule.specs.Conditions.{StoredAll};
ghost use Rattle.ist_rule.specs.Learning.{now, GoesOnTo};
ghost use Rattle.ist_tree.specs.Insides.{IsPass};
ghost use Rattle.ist_updates.specs.Asking.{IsAsked};
ghost use Rattle.ist_updates.specs.Changing.{Prepares};
ghost use Rattle.ist_rows.specs.Going.{HasGone};
ghost use Rattle.ist_rows.specs.Filling.{with_own};
ghost use Rattle.ist_updates.specs.Trying.{IsAtSlot};

use crate::updates::ask;
use ist_core::{ChangeRow, Full};
use ist_dcss::{Installed, install, is_open};
use ist_find::step_down;
use ist_layout::{ANCHOR, LEAF_KEY_OFFSET, PUT_KIND, Ref, UNDECIDED};
use ist_rows::{Caller, Kind, fill_row, reserve};
use ist_rule::{TreeTable, TreeToken, begin_search, know, load};

/// A slot of a row below the anchor, and the word that it held.
#[derive(Clone, Copy, Drop)]
pub(crate) struct Slot {
    pub(crate) node: u32,
    pub(crate) index: u64,
    pub(crate) word: u64,
}

/// A put's change, with the bases of its row and of its leaf.
#[derive(Clone, Copy, Drop)]
pub(crate) struct LatePut {
    pub(crate) change: u32,
    pub(crate) leaf: u32,
    pub(crate) row: ChangeRow,
}

// Returns the inner row that the word names, if it names one.
fn inner_in(word: u64) -> Option<u32>
    ensures inner { (base : ℕ) → result ≡ Some base → ref_of word ≡ Some (InnerAt base) }
    ensures no_inner { result ≡ None → (base : ℕ) → ¬ (ref_of word ≡ Some (InnerAt base)) }
{
    match Ref::from_word(word) {
        Some(Ref::Inner { base }) => Some(base),
        _ => None,
    }
}

// Walks to the slot of the key in the row below the anchor, if there is such a row, and no row
// below it.
fn walk(table: &TreeTable, token: &mut TreeToken, key: u64) -> Option<Slot>
    requires same_table { token.old.view.table ≡ table.now.table }
    ensures walked { IfSome result (λ slot.
        HasReachedSlot token.old.view key slot.node slot.index slot.word token.new.view) }
{
    know(token);
    begin_search(table, token);
    let top = step_down(table, token, ANCHOR, key);
    let Some(node) = inner_in(top.word) else {
        return None;
    };
    let child = step_down(table, token, node, key);
    match inner_in(child.word) {
        Some(_) => None,
        None => Some(Slot {
            node,
            index: child.index,
            word: child.word,
        }),
    }
}

// Returns the key of the leaf at the base.
fn leaf_key(table: &TreeTable, token: &mut TreeToken, base: u32) -> u64
    requires same_table { token.old.view.table ≡ table.now.table }
    requires leaf { SeesLeaf token.old.view base }
    ensures seen { GoesOnTo token.old.view token.new.view }
    ensures key { IsLeafOf (now token.new.view) base result }
{
    know(token);
    load(table, token, u64::from(base) + LEAF_KEY_OFFSET)
}

// Returns whether the slot held a leaf of the key.
fn has_leaf(table: &TreeTable, token: &mut TreeToken, slot: Slot, key: u64) -> bool
    requires same_table { token.old.view.table ≡ table.now.table }
    requires at { IsAtSlot token.old.view key slot.node slot.index slot.word }
    ensures seen { GoesOnTo token.old.view token.new.view }
    ensures room { result ≡ true → HasRoomFor (now token.new.view) key slot.word }
{
    know(token);
    let Some(Ref::Leaf { base }) = Ref::from_word(slot.word) else {
        return false;
    };
    let found = leaf_key(table, token, base);
    if found != key {
        return false;
    }
    true
}

// Returns the row of this kind that the caller holds, or a fresh one.
fn take(table: &TreeTable, who: &mut Caller, kind: Kind) -> Result<u32, Full>
    requires caller { IsAtTable table.now IsCaller who.old }
    requires refused { HasRefused who.old }
    ensures gone { HasGone Prepares who.old who.new }
    ensures held { IfOk result (λ base. row_of kind (spares_of who.new) ≡ Some base) }
    ensures rows { IfOk result (λ base.
        spares_of who.new ≡ with_spare kind base (spares_of who.old)) }
{
    know(&who.token);
    let taken = reserve(table, who, kind);
    know(&who.token);
    taken
}

// Takes the rows of a put of a leaf into the slot, and returns what to fill them with.
fn plan(
    table: &TreeTable,
    who: &mut Caller,
    slot: Slot,
    key: u64,
    value: u64,
) -> Result<LatePut, Full>
    requires caller { IsAtTable table.now IsCaller who.old }
    requires refused { HasRefused who.old }
    ensures gone { IfOk result (λ put. HasGone Prepares who.old who.new) }
    ensures rows { IfOk result (λ put. HasBoth who.new put.change put.leaf) }
    ensures good { IfOk result (λ put. IsGoodBase put.leaf) }
    ensures row { IfOk result (λ put. put.row
        ≡ row_of_put key value slot.node slot.index slot.word put.leaf who.new.number) }
{
    let leaf = take(table, who, Kind::Leaf)?;
    let change = take(table, who, Kind::Change)?;
    let row = ChangeRow {
        decision: UNDECIDED,
        kind: PUT_KIND,
        node: u64::from(slot.node),
        index: slot.index,
        from: slot.word,
        to: Ref::Leaf { base: leaf }.to_word(),
        owner: u64::from(who.number),
        key,
        value,
    };
    Ok(LatePut { change, leaf, row })
}

// Fills both rows of the put.
fn fill_both(table: &TreeTable, who: &mut Caller, put: LatePut)
    requires caller { IsAtTable table.now IsCaller who.old }
    requires rows { HasBoth who.old put.change put.leaf }
    ensures caller { IsCaller who.new }
    ensures same { who.new ≡ with_own who.old who.new.token.view.own }
    ensures stored { StoredAll who.new.token.view
        (rows_of (put_of put.leaf put.row) put.change) }
{
    know(&who.token);
    let row = put.row;
    fill_row(table, who, Kind::Leaf, put.leaf, &[row.key, row.value]);
    know(&who.token);
    let words = [
        row.decision,
        row.kind,
        row.node,
        row.index,
        row.from,
        row.to,
        row.owner,
        row.key,
        row.value,
    ];
    fill_row(table, who, Kind::Change, put.change, &words);
}

// Reads the status of the node, and if it is open fills a put's change for its slot.
fn fill_for(
    table: &TreeTable,
    who: &mut Caller,
    slot: Slot,
    key: u64,
    value: u64,
) -> Option<LatePut>
    requires asked { IsAtTable table.now (λ x. IsAsked x (Put key value)) who.old }
    requires at_slot { WasAt who.old.token.view key slot.node slot.index slot.word }
    requires room { HasRoomFor (now who.old.token.view) key slot.word }
    ensures filled { IfSome result (λ put.
        IsAtTable table.now (λ x. IsFilled x put.change put.leaf put.row) who.new) }
{
    if !is_open(table, &mut who.token, slot.node) {
        return None;
    }
    let Ok(put) = plan(table, who, slot, key, value) else {
        return None;
    };
    fill_both(table, who, put);
    know(&who.token);
    Some(put)
}

/// Begins a put of the value at the key, whose leaf is in a slot of the row below the anchor. Makes all
/// steps before the install, and no further step.
pub(crate) fn prepare(table: &TreeTable, who: &mut Caller, key: u64, value: u64) -> Option<LatePut>
    requires pass { IsAtTable table.now IsPass who.old }
    ensures filled { IfSome result (λ put.
        IsAtTable table.now (λ x. IsFilled x put.change put.leaf put.row) who.new) }
{
    ask(table, who, key, Some(value));
    let Some(slot) = walk(table, &mut who.token, key) else {
        return None;
    };
    know(&who.token);
    if !has_leaf(table, &mut who.token, slot, key) {
        return None;
    }
    fill_for(table, who, slot, key, value)
}

/// Installs the change.
pub(crate) fn install_late(table: &TreeTable, who: &mut Caller, put: LatePut) -> Installed
    ghost filling: { Filling }
    requires is_put { filling ≡ put_of put.leaf put.row }
    requires filled { IsAtTable table.now (λ x. IsFilled x put.change put.leaf put.row) who.old }
    ensures may_help { result ≡ Yes
        → IsAtTable table.now (λ x. MayHelp x.token.view put.change) who.new }
{
    know(&who.token);
    install(table, &mut who.token, put.change)
}
