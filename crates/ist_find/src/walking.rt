//! One step of an update's search, which reads each word as it is, changes and rebuilds included.
ghost use Rattle.std.specs.Prelude.{◌≡◌, ◌≢◌, ◌++◌, ◌∷◌, ◌<◌, [], List, Some, ℕ};
ghost use Rattle.ist_core.specs.RowLayout.{anchor};
ghost use Rattle.ist_core.specs.References.{InnerAt, Unset, ref_of};
ghost use Rattle.ist_core.specs.Slots.{SlotHolds, IsChildFor};
ghost use Rattle.ist_rule.specs.Conditions.{MayWalk};
ghost use Rattle.ist_rule.specs.Learning.{now, GoesOnTo};
ghost use Rattle.ist_find.specs.Searches.{HasCome, Came, Names};

use crate::answers::Child;
use crate::children::slot_for;
use ist_rule::{TreeTable, TreeToken, know};

/// Returns the child for the key of a node that the caller's search has reached, and the word that
/// its slot held at the last step of this call.
///
/// The node may be the anchor, whose one child is for all keys: a walk begins there, so that a search
/// must have begun just before. If the word names an inner row, the
/// search has reached that row too, by one more row, and it lies above the node. Any other word,
/// which may name a change or a rebuild, ends the walk: the search has come as far as the node. The
/// word is never Unset.
pub fn step_down(table: &TreeTable, token: &mut TreeToken, node: u32, key: u64) -> Child
    requires same_table { token.old.view.table ≡ table.now.table }
    requires come { Came token.old.view key node }
    requires top { node ≡ anchor → MayWalk token.old.view }
    ensures index { IsChildFor (now token.new.view) node key result.index }
    ensures word { SlotHolds (now token.new.view) node result.index result.word }
    ensures seen { GoesOnTo token.old.view token.new.view }
    ensures named { Names token.new.view (ref_of result.word) }
    ensures set { ref_of result.word ≢ Some Unset }
    ensures stays { (rows : List ℕ) → HasCome token.old.view key node rows
        → HasCome token.new.view key node rows }
    ensures down { (rows : List ℕ) (child : ℕ) → HasCome token.old.view key node rows
        → ref_of result.word ≡ Some (InnerAt child)
        → HasCome token.new.view key child (rows ++ child ∷ []) }
    ensures above { (child : ℕ) → ref_of result.word ≡ Some (InnerAt child) → node < child }
{
    know(token);
    let child = slot_for(table, token, node, key);
    know(token);
    child.value
}
