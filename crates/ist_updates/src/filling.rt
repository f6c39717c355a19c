//! Filling the rows of a plan.
ghost use Rattle.std.specs.Prelude.{◌≡◌, Some};
ghost use Rattle.ist_core.specs.Pieces.{words_of, Change};
ghost use Rattle.ist_core.specs.References.{IsGoodBase};
ghost use Rattle.ist_core.specs.Snapshots.{bases_of};
ghost use Rattle.ist_core.specs.Installing.{new_leaf, pair_row};
ghost use Rattle.ist_rule.specs.Conditions.{StoredAll};
ghost use Rattle.ist_rows.specs.CallerLaws.{AreBasesOf};
ghost use Rattle.ist_rows.specs.Filling.{with_own, StandAt};
ghost use Rattle.ist_rows.specs.Rows.{IsCaller, IsAtTable, spares_of};
ghost use Rattle.ist_dcss.specs.Installing.{rows_of};
ghost use Rattle.ist_updates.specs.Changing.{HasRows, AreGood, filling_of, fresh_rows, kinds_of};
ghost use Rattle.ist_updates.specs.Filling.{KeepsOthers};

use crate::plans::{Fresh, PlannedChange};
use ist_core::ChangeRow;
use ist_layout::{OPEN_WORD, Ref};
use ist_rows::{Caller, Kind, fill_row};
use ist_rule::{TreeTable, know};

// Fills the row of a leaf, which no other caller knows yet.
fn fill_leaf(table: &TreeTable, who: &mut Caller, base: u32, row: ChangeRow)
    requires caller { IsAtTable table.now IsCaller who.old }
    requires row { who.old.leaf ≡ Some base }
    ensures caller { IsCaller who.new }
    ensures same { who.new ≡ with_own who.old who.new.token.view.own }
    ensures stands { StandAt who.new.token.view.own base (words_of (new_leaf row)) }
    ensures others { KeepsOthers (λ at. at ≡ base) who.old who.new }
{
    know(&who.token);
    fill_row(table, who, Kind::Leaf, base, &[row.key, row.value]);
}

// Fills the row of a pair over the fresh leaf and the other one: the smaller key is on the left.
fn fill_pair(
    table: &TreeTable,
    who: &mut Caller,
    base: u32,
    key: u64,
    leaf: u32,
    other_key: u64,
    other: u32,
)
    requires caller { IsAtTable table.now IsCaller who.old }
    requires row { who.old.pair ≡ Some base }
    requires leaf_good { IsGoodBase leaf }
    requires other_good { IsGoodBase other }
    ensures caller { IsCaller who.new }
    ensures same { who.new ≡ with_own who.old who.new.token.view.own }
    ensures stands { let words = words_of (pair_row key leaf other_key other) in
        StandAt who.new.token.view.own base words }
    ensures others { KeepsOthers (λ at. at ≡ base) who.old who.new }
{
    know(&who.token);
    let this = Ref::Leaf { base: leaf }.to_word();
    let that = Ref::Leaf { base: other }.to_word();
    if other_key < key {
        fill_row(
            table,
            who,
            Kind::Pair,
            base,
            &[OPEN_WORD, 0, 2, 2, key, that, this],
        );
        return;
    }
    fill_row(
        table,
        who,
        Kind::Pair,
        base,
        &[OPEN_WORD, 0, 2, 2, other_key, this, that],
    );
}

// Fills the row of the change.
fn fill_change(table: &TreeTable, who: &mut Caller, base: u32, row: ChangeRow)
    requires caller { IsAtTable table.now IsCaller who.old }
    requires row { who.old.change ≡ Some base }
    ensures caller { IsCaller who.new }
    ensures same { who.new ≡ with_own who.old who.new.token.view.own }
    ensures stands { StandAt who.new.token.view.own base (words_of (Change row)) }
    ensures others { KeepsOthers (λ at. at ≡ base) who.old who.new }
{
    know(&who.token);
    let words = [
        row.decision,
        row.kind,
        row.node,
        row.index,
        row.from,
        row.to,
        row.owner,
        row.key,
        row.value,
    ];
    fill_row(table, who, Kind::Change, base, &words);
}

// Fills the rows that are published with the change.
fn fill_fresh(table: &TreeTable, who: &mut Caller, row: ChangeRow, fresh: Fresh)
    requires caller { IsAtTable table.now IsCaller who.old }
    requires rows { let bases = bases_of (fresh_rows row fresh) in
        AreBasesOf (kinds_of fresh) (spares_of who.old) bases }
    requires good { AreGood fresh }
    ensures caller { IsCaller who.new }
    ensures same { who.new ≡ with_own who.old who.new.token.view.own }
    ensures stored { StoredAll who.new.token.view (fresh_rows row fresh) }
{
    know(&who.token);
    match fresh {
        Fresh::Nothing => {}
        Fresh::Leaf { base } => fill_leaf(table, who, base, row),
        Fresh::Pair {
            base,
            leaf,
            other,
            other_key,
        } => {
            fill_leaf(table, who, leaf, row);
            fill_pair(table, who, base, row.key, leaf, other_key, other);
        }
    }
}

/// Fills every word of every row of the plan, which the caller holds.
pub(crate) fn fill_rows(table: &TreeTable, who: &mut Caller, plan: PlannedChange)
    requires caller { IsAtTable table.now IsCaller who.old }
    requires rows { HasRows who.old plan }
    requires good { AreGood plan.fresh }
    ensures caller { IsCaller who.new }
    ensures same { who.new ≡ with_own who.old who.new.token.view.own }
    ensures stored { StoredAll who.new.token.view (rows_of (filling_of plan) plan.base) }
{
    know(&who.token);
    fill_fresh(table, who, plan.row, plan.fresh);
    fill_change(table, who, plan.base, plan.row);
}
