//! Changing a slot: rows are reserved and filled, and the change is installed and helped.
ghost use Rattle.std.specs.Prelude.{◌≡◌, ◌<◌, ◌≤◌, ◌⊎◌, ◌∷◌, ℕ, true, false, Some, IfOk, IfErr};
ghost use Rattle.ist_core.specs.Installing.{IsUnrefused};
ghost use Rattle.ist_core.specs.Rebuilding.{IsUpdate};
ghost use Rattle.ist_rule.specs.Faces.{word_count_of};
ghost use Rattle.ist_rule.specs.Learning.{now, GoesOnTo};
ghost use Rattle.ist_rule.specs.Watching.{IsNode};
ghost use Rattle.ist_updates.specs.Further.{HoldsElse};
ghost use Rattle.ist_rows.specs.Building.{HasRefused};
ghost use Rattle.ist_rows.specs.CallerLaws.{without_rows};
ghost use Rattle.ist_rows.specs.declared.kinds.Kind.TheVariants as kind;
ghost use Rattle.ist_rows.specs.Kinds.{kind_words};
ghost use Rattle.ist_rows.specs.Rows.{IsCaller, IsAtTable, spares_of, row_of, with_spare};
ghost use Rattle.ist_dcss.specs.Installing.{Filling, IsInstallable, IsInstalled};
ghost use Rattle.ist_rows.specs.Going.{HasGone};
ghost use Rattle.ist_updates.specs.Answering.{HasCarried, HasChanged};
ghost use Rattle.ist_updates.specs.Asking.{IsAsked};
ghost use Rattle.ist_updates.specs.Changing.{WasAtSlot, Prepares, HasRows};
ghost use Rattle.ist_updates.specs.Changing.{MayReplace, MayAskFor, IsRowShort, IsPlanned, row_for};
ghost use Rattle.ist_updates.specs.Changing.{command_by, filling_of, kinds_of};
ghost use Rattle.ist_updates.specs.declared.plans.SlotPlan.TheVariants as way;

use crate::filling::fill_rows;
use crate::plans::{Aim, Fresh, PlannedChange, SlotPlan};
use ist_core::{ChangeRow, Full};
use ist_dcss::{Decision, Installed, help, install, is_open};
use ist_layout::{EMPTY_WORD, PUT_KIND, REMOVE_KIND, Ref, UNDECIDED};
use ist_rows::{Caller, Kind, drop_pair, reserve};
use ist_rule::{TreeTable, know};

// ---- rows

// The row of this kind that the caller holds, or a fresh one.
fn take(table: &TreeTable, who: &mut Caller, kind: Kind) -> Result<u32, Full>
    requires caller { IsAtTable table.now IsCaller who.old }
    requires refused { HasRefused who.old }
    ensures gone { HasGone Prepares who.old who.new }
    ensures held { IfOk result (λ base. row_of kind (spares_of who.new) ≡ Some base) }
    ensures rows { IfOk result (λ base.
        spares_of who.new ≡ with_spare kind base (spares_of who.old)) }
    ensures high { IfOk result (λ base. (row_of kind (spares_of who.old) ≡ Some base)
        ⊎ ((now who.old.token.view).next ≤ base)) }
    ensures full { let v = who.old.token.view in IfErr result (λ full.
        IsRowShort (λ n. n ≡ kind_words kind) v (word_count_of table.now) full who.new.token.view) }
{
    know(&who.token);
    // Reserve, if the caller holds none. Meets another caller's.
    let taken = reserve(table, who, kind);
    know(&who.token);
    taken
}

// Whether there is a pair row, and it lies below the node.
fn is_below(pair: Option<u32>, node: u32) -> bool
    ensures yes { result ≡ true → (base : ℕ) × (pair ≡ Some base) × (base < node) }
    ensures no { result ≡ false → (base : ℕ) → pair ≡ Some base → node ≤ base }
{
    match pair {
        Some(base) => base < node,
        None => false,
    }
}

// Gives up the pair row that the caller holds, if it lies below the node.
fn drop_below(table: &TreeTable, who: &mut Caller, node: u32)
    requires caller { IsAtTable table.now IsCaller who.old }
    requires refused { HasRefused who.old }
    requires node { IsNode (now who.old.token.view) node }
    ensures gone { HasGone Prepares who.old who.new }
    ensures others { (who.new.leaf ≡ who.old.leaf) × (who.new.change ≡ who.old.change) }
    ensures above { (base : ℕ) → who.new.pair ≡ Some base → node < base }
{
    know(&who.token);
    if !is_below(who.pair, node) {
        return;
    }
    // Lose. Meets no other's step: only the caller knows the row.
    drop_pair(table, who, node);
}

// A pair row above the node: the one that the caller holds, or a fresh one.
fn take_pair(table: &TreeTable, who: &mut Caller, node: u32) -> Result<u32, Full>
    requires caller { IsAtTable table.now IsCaller who.old }
    requires refused { HasRefused who.old }
    requires node { IsNode (now who.old.token.view) node }
    ensures gone { HasGone Prepares who.old who.new }
    ensures held { IfOk result (λ base. who.new.pair ≡ Some base) }
    ensures others { IfOk result (λ base.
        (who.new.leaf ≡ who.old.leaf) × (who.new.change ≡ who.old.change)) }
    ensures above { IfOk result (λ base. node < base) }
    ensures full { let v = who.old.token.view in IfErr result (λ full.
        IsRowShort (λ n. n ≡ kind_words kind.Pair) v (word_count_of table.now) full
        who.new.token.view) }
{
    know(&who.token);
    drop_below(table, who, node);
    let base = take(table, who, Kind::Pair)?;
    Ok(base)
}

// ---- plans

// The change that puts a word into the slot.
fn change_for(aim: Aim, kind: u64, value: u64, to: u64, owner: u32) -> ChangeRow
    ensures value { result ≡ row_for aim kind value to owner }
{
    ChangeRow {
        decision: UNDECIDED,
        kind,
        node: u64::from(aim.node),
        index: aim.index,
        from: aim.word,
        to,
        owner: u64::from(owner),
        key: aim.key,
        value,
    }
}

// A plan to put a leaf into a slot that is empty or holds a leaf of the key.
fn plan_leaf(
    table: &TreeTable,
    who: &mut Caller,
    aim: Aim,
    value: u64,
) -> Result<PlannedChange, Full>
    requires caller { IsAtTable table.now IsCaller who.old }
    requires refused { HasRefused who.old }
    requires at_slot { WasAtSlot who.old.token.view aim }
    requires room { MayReplace who.old.token.view aim.key aim.word (way.Leaf value) }
    ensures gone { HasGone Prepares who.old who.new }
    ensures planned { IfOk result (λ plan. IsPlanned who.new aim (way.Leaf value) plan) }
    ensures full { IfErr result (λ full. IsRowShort (MayAskFor (way.Leaf value))
        who.old.token.view (word_count_of table.now) full who.new.token.view) }
{
    know(&who.token);
    let leaf = take(table, who, Kind::Leaf)?;
    let base = take(table, who, Kind::Change)?;
    know(&who.token);
    let to = Ref::Leaf { base: leaf }.to_word();
    let row = change_for(aim, PUT_KIND, value, to, who.number);
    let fresh = Fresh::Leaf { base: leaf };
    Ok(PlannedChange { base, row, fresh })
}

// A plan to replace a leaf of another key by a pair row.
fn plan_pair(
    table: &TreeTable,
    who: &mut Caller,
    aim: Aim,
    value: u64,
    other: u32,
    other_key: u64,
) -> Result<PlannedChange, Full>
    requires caller { IsAtTable table.now IsCaller who.old }
    requires refused { HasRefused who.old }
    requires at_slot { WasAtSlot who.old.token.view aim }
    requires room { MayReplace who.old.token.view aim.key aim.word (way.Pair value other other_key) }
    ensures gone { HasGone Prepares who.old who.new }
    ensures planned { IfOk result (λ plan.
        IsPlanned who.new aim (way.Pair value other other_key) plan) }
    ensures full { IfErr result (λ full. IsRowShort (MayAskFor (way.Pair value other other_key))
        who.old.token.view (word_count_of table.now) full who.new.token.view) }
{
    know(&who.token);
    let leaf = take(table, who, Kind::Leaf)?;
    know(&who.token);
    let pair = take_pair(table, who, aim.node)?;
    let base = take(table, who, Kind::Change)?;
    know(&who.token);
    let to = Ref::Inner { base: pair }.to_word();
    let row = change_for(aim, PUT_KIND, value, to, who.number);
    let fresh = Fresh::Pair {
        base: pair,
        leaf,
        other,
        other_key,
    };
    Ok(PlannedChange { base, row, fresh })
}

// A plan to remove the leaf of the key.
fn plan_clear(table: &TreeTable, who: &mut Caller, aim: Aim) -> Result<PlannedChange, Full>
    requires caller { IsAtTable table.now IsCaller who.old }
    requires refused { HasRefused who.old }
    requires at_slot { WasAtSlot who.old.token.view aim }
    requires room { MayReplace who.old.token.view aim.key aim.word way.Clear }
    ensures gone { HasGone Prepares who.old who.new }
    ensures planned { IfOk result (λ plan. IsPlanned who.new aim way.Clear plan) }
    ensures full { IfErr result (λ full. IsRowShort (MayAskFor way.Clear)
        who.old.token.view (word_count_of table.now) full who.new.token.view) }
{
    know(&who.token);
    let base = take(table, who, Kind::Change)?;
    know(&who.token);
    let row = change_for(aim, REMOVE_KIND, 0, EMPTY_WORD, who.number);
    let fresh = Fresh::Nothing;
    Ok(PlannedChange { base, row, fresh })
}

// Reserves the rows that the change needs, and plans how they will be filled.
fn plan_for(
    table: &TreeTable,
    who: &mut Caller,
    aim: Aim,
    way: SlotPlan,
) -> Result<PlannedChange, Full>
    requires caller { IsAtTable table.now IsCaller who.old }
    requires refused { HasRefused who.old }
    requires at_slot { WasAtSlot who.old.token.view aim }
    requires room { MayReplace who.old.token.view aim.key aim.word way }
    ensures gone { HasGone Prepares who.old who.new }
    ensures planned { IfOk result (λ plan. IsPlanned who.new aim way plan) }
    ensures full { IfErr result (λ full. IsRowShort (MayAskFor way)
        who.old.token.view (word_count_of table.now) full who.new.token.view) }
{
    match way {
        SlotPlan::Leaf { value } => plan_leaf(table, who, aim, value),
        SlotPlan::Pair {
            value,
            other,
            other_key,
        } => plan_pair(table, who, aim, value, other, other_key),
        SlotPlan::Clear => plan_clear(table, who, aim),
    }
}

// ---- the change

// Takes the rows of the plan from those that the caller holds.
fn give_away(who: &mut Caller, fresh: Fresh)
    ensures same { (who.new.token ≡ who.old.token) × (who.new.number ≡ who.old.number) }
    ensures rows { let kinds = kind.Change ∷ kinds_of fresh in
        spares_of who.new ≡ without_rows kinds (spares_of who.old) }
{
    match fresh {
        Fresh::Nothing => {}
        Fresh::Leaf { base: _ } => who.leaf = None,
        Fresh::Pair {
            base: _,
            leaf: _,
            other: _,
            other_key: _,
        } => {
            who.leaf = None;
            who.pair = None;
        }
    }
    who.change = None;
}

// Installs the change of the plan. If this succeeds, the caller no longer holds the rows.
fn install_plan(table: &TreeTable, who: &mut Caller, plan: PlannedChange) -> bool
    ghost filling: { Filling }
    requires caller { IsAtTable table.now IsCaller who.old }
    requires refused { HasRefused who.old }
    requires rows { HasRows who.old plan }
    requires may_install { IsInstallable who.old.token.view plan.base filling }
    requires filled { filling ≡ filling_of plan }
    ensures caller { IsCaller who.new }
    ensures number { who.new.number ≡ who.old.number }
    ensures refused { HasRefused who.new }
    ensures yes { result ≡ true
        → IsInstalled who.old.token.view plan.base filling who.new.token.view }
    ensures no { result ≡ false → GoesOnTo who.old.token.view who.new.token.view }
    ensures other { result ≡ false → HoldsElse (now who.new.token.view) plan.row }
{
    // Install, if the slot still holds the word. Meets another caller's, and what a helper left
    // there.
    match install(table, &mut who.token, plan.base) {
        Installed::Yes => {
            give_away(who, plan.fresh);
            true
        }
        Installed::Other(_) => false,
    }
}

// Installs the change of the plan and helps it. Returns whether it took effect.
fn carry_out(table: &TreeTable, who: &mut Caller, plan: PlannedChange) -> bool
    requires caller { IsAtTable table.now IsCaller who.old }
    requires refused { HasRefused who.old }
    requires rows { HasRows who.old plan }
    requires update { IsUpdate plan.row.kind }
    requires may_install { IsInstallable who.old.token.view plan.base (filling_of plan) }
    ensures carried { HasCarried who.old plan result who.new }
{
    know(&who.token);
    if !install_plan(table, who, plan) {
        return false;
    }
    know(&who.token);
    // Okay, Decide and Resolve. Meets another helper's, and a mark of the node.
    match help(table, &mut who.token, plan.base) {
        Decision::Yes => true,
        Decision::No => false,
    }
}

/// Changes the slot in this way, if its node is open and the slot still holds the word.
///
/// Returns whether the change took effect, or `Full` if the table has too few words for a row of it.
pub(crate) fn change_slot(
    table: &TreeTable,
    who: &mut Caller,
    aim: Aim,
    way: SlotPlan,
) -> Result<bool, Full>
    requires asked { IsAtTable table.now (λ x. IsAsked x (command_by aim.key way)) who.old }
    requires at_slot { WasAtSlot who.old.token.view aim }
    requires room { MayReplace who.old.token.view aim.key aim.word way }
    ensures changed { HasChanged who.old aim way (word_count_of table.now) result who.new }
{
    know(&who.token);
    // A load. Meets a mark of the node.
    if !is_open(table, &mut who.token, aim.node) {
        return Ok(false);
    }
    change_open(table, who, aim, way)
}

// The same if its node was open, and no change of the caller there was decided no.
fn change_open(table: &TreeTable, who: &mut Caller, aim: Aim, way: SlotPlan) -> Result<bool, Full>
    requires asked { IsAtTable table.now (λ x. IsAsked x (command_by aim.key way)) who.old }
    requires at_slot { WasAtSlot who.old.token.view aim }
    requires room { MayReplace who.old.token.view aim.key aim.word way }
    requires unrefused { IsUnrefused (now who.old.token.view) who.old.number aim.node }
    ensures changed { HasChanged who.old aim way (word_count_of table.now) result who.new }
{
    let plan = plan_for(table, who, aim, way)?;
    know(&who.token);
    fill_rows(table, who, plan);
    know(&who.token);
    Ok(carry_out(table, who, plan))
}
