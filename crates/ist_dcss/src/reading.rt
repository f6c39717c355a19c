//! Which change a word names, and which node a rebuild replaces.
ghost use Rattle.std.specs.Prelude.{◌≡◌, ◌+◌, None, Some, IfSome};
ghost use Rattle.ist_core.specs.Marking.{HasTarget};
ghost use Rattle.ist_core.specs.References.{ChangeAt, ref_of};
ghost use Rattle.ist_rule.specs.Learning.{now, GoesOnTo};
ghost use Rattle.ist_dcss.specs.Reading.{IsNoChange, IsRebuildRow};

use ist_layout::{REBUILD_TARGET_OFFSET, Ref};
use ist_rule::{TreeTable, TreeToken, know, load};

/// Returns the change that the word names, if it names one.
pub fn change_in(word: u64) -> Option<u32>
    ensures change { IfSome result (λ change. ref_of word ≡ Some (ChangeAt change)) }
    ensures no_change { result ≡ None → IsNoChange word }
{
    match Ref::from_word(word) {
        Some(Ref::Change { base }) => Some(base),
        _ => None,
    }
}

/// Returns the node that a rebuild replaces or will replace, by one load.
pub fn target_of(table: &TreeTable, token: &mut TreeToken, rebuild: u32) -> u32
    requires same_table { token.old.view.table ≡ table.now.table }
    requires published { IsRebuildRow (now token.old.view) rebuild }
    ensures seen { GoesOnTo token.old.view token.new.view }
    ensures target { HasTarget (now token.new.view) rebuild result }
    ensures counted { token.new.view.loaded ≡ token.old.view.loaded + 1 }
{
    know(token);
    // A load. The word never changes.
    load(table, token, u64::from(rebuild) + REBUILD_TARGET_OFFSET) as u32
}
