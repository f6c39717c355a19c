//! Puts that are installed.
ghost use Rattle.std.specs.Prelude.{◌≡◌, ◌+◌, ◌<◌, ◌≤◌, None, Some, true};
ghost use Rattle.ist_core.specs.RowLayout.{place_limit};
ghost use Rattle.ist_rows.specs.Rows.{IsCaller, IsAtTable, spares_of, no_spares};
ghost use Rattle.ist_dcss.specs.declared.decisions.Installed.TheVariants.{Yes};
ghost use Rattle.ist_dcss.specs.Helping.{MayHelp};
ghost use Rattle.ist_dcss.specs.Installing.{Filling};
ghost use Rattle.test_parts.specs.Samples.{sample_put};

use ist_core::Command;
use ist_dcss::{Installed, install};
use ist_layout::{PUT_KIND, Ref, UNDECIDED};
use ist_rows::{Caller, Kind, fill_row, reserve};
use ist_rule::{TreeTable, begin_call, know};

/// Fills a put of the value at the key 1 into both rows, and installs it in the anchor's slot, if that slot
/// is empty.
pub(crate) fn install_put(
    table: &TreeTable,
    who: &mut Caller,
    leaf: u32,
    change: u32,
    value: u64,
) -> Installed
    ghost filling: { Filling }
    requires caller { IsAtTable table.now IsCaller who.old }
    requires is_put { filling ≡ sample_put who.old.number leaf value }
    requires rows { (who.old.leaf ≡ Some leaf) × (who.old.change ≡ Some change) }
    requires apart { leaf + 2 ≤ change }
    requires within { (4 ≤ leaf) × (change < place_limit) }
    requires in_none { who.old.token.view.pending ≡ None }
    ensures may_help { result ≡ Yes
        → IsAtTable table.now (λ x. MayHelp x.token.view change) who.new }
{
    let from = Ref::Empty.to_word();
    let to = Ref::Leaf { base: leaf }.to_word();
    let owner = u64::from(who.number);
    fill_row(table, who, Kind::Leaf, leaf, &[1, value]);
    fill_row(
        table,
        who,
        Kind::Change,
        change,
        &[UNDECIDED, PUT_KIND, 2, 0, from, to, owner, 1, value],
    );
    know(&who.token);
    begin_call(table, &mut who.token, Some(Command::Put { key: 1, value }));
    install(table, &mut who.token, change)
}

/// Reserves a leaf row and a change row, and installs a put with them, if the caller is the first
/// and the rows lie at 4 and 6. Returns whether it is installed.
pub(crate) fn begin_put(table: &TreeTable, who: &mut Caller) -> bool
    requires caller { IsAtTable table.now IsCaller who.old }
    requires no_rows { spares_of who.old ≡ no_spares }
    requires in_none { who.old.token.view.pending ≡ None }
    ensures may_help { result ≡ true → IsAtTable table.now (λ x. MayHelp x.token.view 6) who.new }
{
    if reserve(table, who, Kind::Leaf) != Ok(4) {
        return false;
    }
    if reserve(table, who, Kind::Change) != Ok(6) {
        return false;
    }
    if who.number != 0 || who.leaf != Some(4) || who.change != Some(6) {
        return false;
    }
    match install_put(table, who, 4, 6, 1) {
        Installed::Yes => true,
        Installed::Other(_) => false,
    }
}
