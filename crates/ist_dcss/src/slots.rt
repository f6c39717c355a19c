//! The places of slots.
ghost use Rattle.std.specs.Prelude.{◌≡◌};
ghost use Rattle.ist_core.specs.Writing.{place_of_slot};
ghost use Rattle.ist_rule.specs.Learning.{now, GoesOnTo};
ghost use Rattle.ist_dcss.specs.HelpEvents.{IsSlot};

use ist_layout::{ANCHOR, ANCHOR_SLOT_PLACE, INNER_DEGREE_OFFSET, slot_place};
use ist_rule::{TreeTable, TreeToken, know, load};

/// Returns the place of slot `index` of the node. The anchor has one slot, in a word of its own.
pub fn slot_at(table: &TreeTable, token: &mut TreeToken, node: u64, index: u64) -> u64
    requires same_table { token.old.view.table ≡ table.now.table }
    requires slot { IsSlot token.old.view node index }
    ensures seen { GoesOnTo token.old.view token.new.view }
    ensures place { result ≡ place_of_slot (now token.new.view) node index }
{
    know(token);
    if node == u64::from(ANCHOR) {
        return ANCHOR_SLOT_PLACE;
    }
    let degree = load(table, token, node + INNER_DEGREE_OFFSET);
    slot_place(node as u32, degree, index)
}
