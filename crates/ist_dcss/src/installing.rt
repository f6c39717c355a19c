//! Installing a change in its slot.
ghost use Rattle.std.specs.Prelude.{◌≡◌, ◌<◌, ℕ, List, length, slice_get, Some};
ghost use Rattle.ist_dcss.specs.declared.decisions.Installed.TheVariants.{Yes, Other};
ghost use Rattle.ist_rule.specs.Learning.{GoesOnTo};
ghost use Rattle.ist_dcss.specs.Installing.{Filling, IsInstallable, IsInstalled, IsOther};
ghost use Rattle.ist_dcss.specs.HelpEvents.{HasFilled, IsAimed};

use crate::decisions::Installed;
use crate::slots::slot_at;
use ist_layout::{CHANGE_FROM_OFFSET, CHANGE_INDEX_OFFSET, CHANGE_NODE_OFFSET, Ref};
use ist_rule::{TreeTable, TreeToken, exchange, know, load};

// Loads a word of a row that the caller holds and has filled.
fn own_word(table: &TreeTable, token: &mut TreeToken, base: u32, offset: u64) -> u64
    ghost words: { List ℕ }
    requires same_table { token.old.view.table ≡ table.now.table }
    requires filled { HasFilled token.old.view base words }
    requires within { offset < length words }
    ensures seen { GoesOnTo token.old.view token.new.view }
    ensures value { slice_get words offset ≡ Some result }
{
    know(token);
    load(table, token, u64::from(base) + offset)
}

// The place of a change's slot, and the word that the change expects there.
#[derive(Clone, Copy, Drop)]
struct InstallAim {
    place: u64,
    from: u64,
}

// Reads from the filled row of a change what its install aims at.
fn aim_of(table: &TreeTable, token: &mut TreeToken, change: u32) -> InstallAim
    ghost filling: { Filling }
    requires same_table { token.old.view.table ≡ table.now.table }
    requires may_install { IsInstallable token.old.view change filling }
    ensures aimed { IsAimed token.old.view filling result.place result.from token.new.view }
{
    let node = own_word(table, token, change, CHANGE_NODE_OFFSET);
    let index = own_word(table, token, change, CHANGE_INDEX_OFFSET);
    let from = own_word(table, token, change, CHANGE_FROM_OFFSET);
    let place = slot_at(table, token, node, index);
    InstallAim { place, from }
}

/// Installs a change whose row is filled, if its slot holds the word that it expects.
///
/// Returns `Yes` exactly if the slot held that word at the last step of the call: the slot then
/// holds the change, and none of its rows is held any more. Otherwise returns the word that the
/// slot held; no word changes, and the rows stay held.
pub fn install(table: &TreeTable, token: &mut TreeToken, change: u32) -> Installed
    ghost filling: { Filling }
    requires same_table { token.old.view.table ≡ table.now.table }
    requires may_install { IsInstallable token.old.view change filling }
    ensures same_table { token.new.view.table ≡ token.old.view.table }
    ensures yes { result ≡ Yes → IsInstalled token.old.view change filling token.new.view }
    ensures other { (word : ℕ) → result ≡ Other word
        → IsOther token.old.view change filling word token.new.view }
{
    know(token);
    let InstallAim { place, from } = aim_of(table, token, change);
    know(token);
    let word = Ref::Change { base: change }.to_word();
    // Install. Meets another caller's in the slot, and what a helper left there.
    let found = exchange(table, token, place, from, word);
    if found == from {
        Installed::Yes
    } else {
        Installed::Other(found)
    }
}
