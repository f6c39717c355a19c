//! The walk of an update: down to the slot of its key, and back up, counting.
ghost use Rattle.std.specs.Prelude.{◌≡◌, ◌≢◌, ℕ, None, Some};
ghost use Rattle.ist_core.specs.References.{InnerAt, ref_of};
ghost use Rattle.ist_core.specs.RowLayout.{anchor};
ghost use Rattle.ist_rule.specs.Conditions.{MayWalk};
ghost use Rattle.ist_rule.specs.Faces.{word_count_of};
ghost use Rattle.ist_rows.specs.Rows.{IsAtTable};
ghost use Rattle.ist_find.specs.Searches.{Came};
ghost use Rattle.ist_updates.specs.Asking.{command_for, IsAsked};
ghost use Rattle.ist_updates.specs.Ending.{IsWalk};

use crate::counting::count_update;
use crate::trying::try_slot;
use crate::updates::{Outcome, Update};
use ist_core::Full;
use ist_find::step_down;
use ist_layout::Ref;
use ist_rows::Caller;
use ist_rule::TreeTable;

// The base of the inner row that the word names, if it names one.
fn inner_in(word: u64) -> Option<u32>
    ensures inner { (base : ℕ) → result ≡ Some base → ref_of word ≡ Some (InnerAt base) }
    ensures no_inner { result ≡ None → (base : ℕ) → ref_of word ≢ Some (InnerAt base) }
{
    match Ref::from_word(word) {
        Some(Ref::Inner { base }) => Some(base),
        _ => None,
    }
}

/// Goes down from a node that the caller's search has reached, and tries the update at the slot of
/// its key. If the update took effect, it is counted at each row on the way back. Returns `None` if the
/// walk must begin again.
///
/// From the anchor it goes right after a search was begun, which counts the walk. It ends, since bases rise on the way down. It takes no memory.
pub(crate) fn descend(
    table: &TreeTable,
    who: &mut Caller,
    update: Update,
    node: u32,
) -> Result<Option<Outcome>, Full>
    requires asked { IsAtTable table.now
        (λ x. IsAsked x (command_for update.key update.value)) who.old }
    requires came { Came who.old.token.view update.key node }
    requires top { node ≡ anchor → MayWalk who.old.token.view }
    ensures walk { IsWalk who.old update.key update.value update.when node (word_count_of table.now)
        result who.new }
{
    let child = step_down(table, &mut who.token, node, update.key);
    let Some(row) = inner_in(child.word) else {
        return try_slot(table, who, update, node, child);
    };
    match descend(table, who, update, row)? {
        Some(outcome) => match outcome {
            Outcome::Took(below) => {
                let done = count_update(table, who, node, child.index, row, below);
                Ok(Some(Outcome::Took(done)))
            }
            _ => Ok(Some(outcome)),
        },
        None => Ok(None),
    }
}
