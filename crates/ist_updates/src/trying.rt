//! Trying an update at the slot of its key.
ghost use Rattle.std.specs.Prelude.{◌≡◌, ◌≢◌, true, false, Some, None, Ok, IfOk};
ghost use Rattle.ist_updates.specs.declared.updates.When.{When as WhenOf};
ghost use Rattle.ist_updates.specs.declared.updates.Outcome.TheVariants.{Unmet};
ghost use Rattle.ist_core.specs.Changes.{value_in};
ghost use Rattle.ist_core.specs.Pieces.{Leaf};
ghost use Rattle.ist_core.specs.References.{Empty, LeafAt, ChangeAt, RebuildAt, ref_of};
ghost use Rattle.ist_rule.specs.Learning.{now, GoesOnTo};
ghost use Rattle.ist_find.specs.Searches.{SeesLeaf};
ghost use Rattle.ist_updates.specs.Answering.{HasTried, just_took};
ghost use Rattle.ist_updates.specs.Changing.{WasAtSlot};
ghost use Rattle.ist_rule.specs.Faces.{word_count_of};
ghost use Rattle.ist_rows.specs.Rows.{IsAtTable};
ghost use Rattle.ist_updates.specs.Asking.{command_for, IsAsked};
ghost use Rattle.ist_updates.specs.Ending.{IsWalk};
ghost use Rattle.ist_updates.specs.Meeting.{IsMetBy, IsMissedBy, RepliesWith, IsTryMet, HasMissed};
ghost use Rattle.ist_updates.specs.Trying.{IsAtSlot};

use crate::changing::change_slot;
use crate::plans::{Aim, SlotPlan};
use crate::updates::{Applied, Outcome, Update, When};
use ist_core::{Full, LeafRow, Reply};
use ist_dcss::help;
use ist_find::{Child, leaf_pair};
use ist_layout::Ref;
use ist_rebuild::help_rebuild;
use ist_rows::Caller;
use ist_rule::{TreeTable, TreeToken, know};

// The result of a try is `None` if the walk must begin again.

// What a try returns if its change was decided so.
fn answer(taken: bool, reply: Reply) -> Option<Outcome>
    ensures took { taken ≡ true → result ≡ Some (just_took reply) }
    ensures again { taken ≡ false → result ≡ None }
    ensures replies { RepliesWith reply result }
{
    if taken {
        Some(Outcome::Took(Applied { reply, due: None }))
    } else {
        None
    }
}

// Whether the update should take effect if the key has this value.
fn meets(when: When, had: Reply) -> bool
    ensures met { result ≡ true → IsMetBy when had }
    ensures missed { result ≡ false → IsMissedBy when had }
{
    match when {
        When::Always => true,
        When::Had(value) => had == value,
    }
}

// The value that the leaf gives the key.
fn had_in(leaf: LeafRow, key: u64) -> Reply
    ensures value { result ≡ value_in (Some (Leaf leaf)) key }
{
    if leaf.key == key {
        Some(leaf.value)
    } else {
        None
    }
}

// The leaf at the base.
fn read_leaf(table: &TreeTable, token: &mut TreeToken, base: u32) -> LeafRow
    requires same_table { token.old.view.table ≡ table.now.table }
    requires leaf { SeesLeaf token.old.view base }
    ensures seen { GoesOnTo token.old.view token.new.view }
    ensures published { (now token.new.view).pieces base ≡ Some (Leaf result) }
{
    let pair = leaf_pair(table, token, base);
    LeafRow {
        key: pair.key,
        value: pair.value,
    }
}

// Tries the update at an empty slot.
fn try_empty(
    table: &TreeTable,
    who: &mut Caller,
    aim: Aim,
    update: Update,
) -> Result<Option<Outcome>, Full>
    requires asked { IsAtTable table.now
        (λ x. IsAsked x (command_for aim.key update.value)) who.old }
    requires at_slot { WasAtSlot who.old.token.view aim }
    requires empty { ref_of aim.word ≡ Some Empty }
    ensures tried { HasTried who.old aim update.value (word_count_of table.now) result who.new }
    ensures met { IfOk result (IsTryMet update.when) }
    ensures missed { result ≡ Ok (Some Unmet)
        → HasMissed who.old.token.view who.new.token.view aim.key update.when }
{
    know(&who.token);
    if !meets(update.when, None) {
        return Ok(Some(Outcome::Unmet));
    }
    match update.value {
        Some(value) => {
            let taken = change_slot(table, who, aim, SlotPlan::Leaf { value })?;
            Ok(answer(taken, None))
        }
        None => Ok(Some(Outcome::Nothing)),
    }
}

// Puts the value into a slot that holds a leaf.
fn put_at(
    table: &TreeTable,
    who: &mut Caller,
    aim: Aim,
    value: u64,
    base: u32,
    leaf: LeafRow,
) -> Result<Option<Outcome>, Full>
    requires asked { IsAtTable table.now
        (λ x. IsAsked x (command_for aim.key (Some value))) who.old }
    requires at_slot { WasAtSlot who.old.token.view aim }
    requires leaf { ref_of aim.word ≡ Some (LeafAt base) }
    requires stands { (now who.old.token.view).pieces base ≡ Some (Leaf leaf) }
    ensures tried { HasTried who.old aim (Some value) (word_count_of table.now) result who.new }
    ensures had { IfOk result (RepliesWith (value_in (Some (Leaf leaf)) aim.key)) }
{
    if leaf.key == aim.key {
        let taken = change_slot(table, who, aim, SlotPlan::Leaf { value })?;
        return Ok(answer(taken, Some(leaf.value)));
    }
    let way = SlotPlan::Pair {
        value,
        other: base,
        other_key: leaf.key,
    };
    let beside = change_slot(table, who, aim, way)?;
    Ok(answer(beside, None))
}

// Removes the key from a slot that holds a leaf.
fn remove_at(
    table: &TreeTable,
    who: &mut Caller,
    aim: Aim,
    base: u32,
    leaf: LeafRow,
) -> Result<Option<Outcome>, Full>
    requires asked { IsAtTable table.now (λ x. IsAsked x (command_for aim.key None)) who.old }
    requires at_slot { WasAtSlot who.old.token.view aim }
    requires leaf { ref_of aim.word ≡ Some (LeafAt base) }
    requires stands { (now who.old.token.view).pieces base ≡ Some (Leaf leaf) }
    ensures tried { HasTried who.old aim None (word_count_of table.now) result who.new }
    ensures had { IfOk result (RepliesWith (value_in (Some (Leaf leaf)) aim.key)) }
{
    know(&who.token);
    if leaf.key != aim.key {
        return Ok(Some(Outcome::Nothing));
    }
    let removed = change_slot(table, who, aim, SlotPlan::Clear)?;
    Ok(answer(removed, Some(leaf.value)))
}

// Tries the update at a slot that holds a leaf.
#[tactic(auto, using(crate::proofs::PlanLemmas::slot_loads, crate::proofs::TriedLemmas::loads_asked))]
fn try_leaf(
    table: &TreeTable,
    who: &mut Caller,
    aim: Aim,
    update: Update,
    base: u32,
) -> Result<Option<Outcome>, Full>
    requires asked { IsAtTable table.now
        (λ x. IsAsked x (command_for aim.key update.value)) who.old }
    requires at_slot { WasAtSlot who.old.token.view aim }
    requires leaf { ref_of aim.word ≡ Some (LeafAt base) }
    ensures tried { HasTried who.old aim update.value (word_count_of table.now) result who.new }
    ensures met { IfOk result (IsTryMet update.when) }
    ensures missed { result ≡ Ok (Some Unmet)
        → HasMissed who.old.token.view who.new.token.view aim.key update.when }
{
    know(&who.token);
    let leaf = read_leaf(table, &mut who.token, base);
    know(&who.token);
    if !meets(update.when, had_in(leaf, aim.key)) {
        return Ok(Some(Outcome::Unmet));
    }
    match update.value {
        Some(value) => put_at(table, who, aim, value, base, leaf),
        None => remove_at(table, who, aim, base, leaf),
    }
}

// Helps the change in the slot.
fn help_change(
    table: &TreeTable,
    who: &mut Caller,
    aim: Aim,
    update: Update,
    base: u32,
) -> Option<Outcome>
    requires asked { IsAtTable table.now
        (λ x. IsAsked x (command_for aim.key update.value)) who.old }
    requires at_slot { IsAtSlot who.old.token.view aim.key aim.node aim.index aim.word }
    requires change { ref_of aim.word ≡ Some (ChangeAt base) }
    ensures again { result ≡ None }
    ensures tried { let words = word_count_of table.now in
        HasTried who.old aim update.value words (Ok result) who.new }
{
    know(&who.token);
    // Okay, Decide and Resolve. Meets another helper's, and a mark of the node.
    help(table, &mut who.token, base);
    None
}

// Helps the rebuild in the slot.
fn help_target(
    table: &TreeTable,
    who: &mut Caller,
    aim: Aim,
    update: Update,
    base: u32,
) -> Result<Option<Outcome>, Full>
    requires asked { IsAtTable table.now
        (λ x. IsAsked x (command_for aim.key update.value)) who.old }
    requires at_slot { IsAtSlot who.old.token.view aim.key aim.node aim.index aim.word }
    requires rebuild { ref_of aim.word ≡ Some (RebuildAt base) }
    ensures tried { HasTried who.old aim update.value (word_count_of table.now) result who.new }
    ensures met { (when : WhenOf) → IfOk result (IsTryMet when) }
    ensures unmissed { result ≢ Ok (Some Unmet) }
{
    know(&who.token);
    // Only steps of its help, and of installs only the finish's. Meets other helpers of the rebuild.
    help_rebuild(table, who, base)?;
    Ok(None)
}

/// Tries the update once, at the slot at which its walk ended.
///
/// If the slot holds a change or a rebuild, it is helped, and the walk must begin again. The walk must
/// also begin again if the node isn't open, if the slot holds another word by then, and if the update
/// was decided no.
#[tactic(auto, using(crate::proofs::WayLemmas::slot_here))]
pub(crate) fn try_slot(
    table: &TreeTable,
    who: &mut Caller,
    update: Update,
    node: u32,
    child: Child,
) -> Result<Option<Outcome>, Full>
    requires asked { IsAtTable table.now
        (λ x. IsAsked x (command_for update.key update.value)) who.old }
    requires at_slot { IsAtSlot who.old.token.view update.key node child.index child.word }
    ensures walk { IsWalk who.old update.key update.value update.when node (word_count_of table.now)
        result who.new }
{
    know(&who.token);
    let aim = Aim {
        node,
        index: child.index,
        word: child.word,
        key: update.key,
    };
    match Ref::from_word(aim.word) {
        Some(Ref::Empty) => try_empty(table, who, aim, update),
        Some(Ref::Leaf { base }) => try_leaf(table, who, aim, update, base),
        Some(Ref::Change { base }) => Ok(help_change(table, who, aim, update, base)),
        Some(Ref::Rebuild { base }) => help_target(table, who, aim, update, base),
        // No walk ends at such a word.
        Some(Ref::Inner { base: _ }) => Ok(None),
        Some(Ref::Unset) => Ok(None),
        None => Ok(None),
    }
}
