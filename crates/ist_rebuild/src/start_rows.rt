//! The rows of a start: reserving them, and filling them.
ghost use Rattle.std.specs.Prelude.{◌≡◌, IfOk, IfErr};
ghost use Rattle.ist_core.specs.Installing.{IsUnrefused};
ghost use Rattle.ist_core.specs.References.{IsGoodBase};
ghost use Rattle.ist_rule.specs.Faces.{word_count_of};
ghost use Rattle.ist_rule.specs.Learning.{now};
ghost use Rattle.ist_rows.specs.Rows.{IsCaller, IsAtTable};
ghost use Rattle.ist_rows.specs.Going.{IsQuiet};
ghost use Rattle.ist_rebuild.specs.Lacking.{LacksKind};
ghost use Rattle.ist_rebuild.specs.Starting.{MayStart, IsStartRefused};
ghost use Rattle.ist_rebuild.specs.StartSteps.{HasReserved, HasStartRows, IsStartReady};
ghost use Rattle.ist_rebuild.specs.StartSteps.{filled_start, start_filling};

use ist_core::Full;
use ist_layout::{Ref, START_KIND, UNDECIDED};
use ist_rows::{Caller, Kind, fill_row, reserve};
use ist_rule::{TreeTable, know};

/// The rows of a start: the rebuild's and the change's, by their bases.
#[derive(Clone, Copy, Drop)]
pub(crate) struct StartRows {
    pub(crate) rebuild: u32,
    pub(crate) change: u32,
}

// Reserves the rows of a start, if the caller doesn't hold them.
fn reserve_rows(table: &TreeTable, who: &mut Caller) -> Result<StartRows, Full>
    requires caller { IsAtTable table.now IsCaller who.old }
    requires quiet { IsQuiet who.old }
    ensures reserved { HasReserved who.old who.new }
    ensures rows { IfOk result (λ rows. HasStartRows who.new rows.rebuild rows.change) }
    ensures full { IfErr result (λ full.
        IsStartRefused who.old.token.view (word_count_of table.now) full who.new.token.view) }
    ensures lacks { IfErr result (λ full. LacksKind who.new full.asked) }
{
    know(&who.token);
    // Reserve. Meets another caller's.
    let rebuild = reserve(table, who, Kind::Rebuild)?;
    // Reserve. Meets another caller's.
    let change = reserve(table, who, Kind::Change)?;
    Ok(StartRows { rebuild, change })
}

// Fills the rows of a start. It writes each word again, since rows that stayed held are used again.
fn fill_rows(
    table: &TreeTable,
    who: &mut Caller,
    rows: StartRows,
    parent: u32,
    index: u64,
    target: u32,
)
    requires caller { IsAtTable table.now IsCaller who.old }
    requires rows { HasStartRows who.old rows.rebuild rows.change }
    requires target { IsGoodBase target }
    ensures caller { IsCaller who.new }
    ensures filled { who.new ≡ filled_start who.old rows.rebuild rows.change parent index target }
{
    know(&who.token);
    let StartRows { rebuild, change } = rows;
    let node = u64::from(parent);
    let unset = Ref::Unset.to_word();
    let from = Ref::Inner { base: target }.to_word();
    let to = Ref::Rebuild { base: rebuild }.to_word();
    let owner = u64::from(who.number);
    let row = [u64::from(target), node, index, unset, 0];
    fill_row(table, who, Kind::Rebuild, rebuild, &row);
    let row = [UNDECIDED, START_KIND, node, index, from, to, owner, 0, 0];
    fill_row(table, who, Kind::Change, change, &row);
}

/// Reserves the rows of a start and fills them, so that its change may be installed.
pub(crate) fn prepare(
    table: &TreeTable,
    who: &mut Caller,
    parent: u32,
    index: u64,
    target: u32,
) -> Result<StartRows, Full>
    requires caller { IsAtTable table.now IsCaller who.old }
    requires quiet { IsQuiet who.old }
    requires may_start { MayStart who.old.token.view parent index target }
    requires unrefused { IsUnrefused (now who.old.token.view) who.old.number parent }
    ensures reserved { HasReserved who.old who.new }
    ensures ready { let number = who.new.number in
        IfOk result (λ rows. IsStartReady who.new rows.rebuild rows.change
        (start_filling number parent index target rows.rebuild)) }
    ensures full { IfErr result (λ full.
        IsStartRefused who.old.token.view (word_count_of table.now) full who.new.token.view) }
    ensures lacks { IfErr result (λ full. LacksKind who.new full.asked) }
{
    know(&who.token);
    let rows = reserve_rows(table, who)?;
    fill_rows(table, who, rows, parent, index, target);
    know(&who.token);
    Ok(rows)
}
