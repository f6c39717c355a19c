//! Whether a node is open.
ghost use Rattle.std.specs.Prelude.{◌≡◌, ◌↔◌, ℕ, IsTrue};
ghost use Rattle.ist_core.specs.Installing.{IsUnrefused};
ghost use Rattle.ist_core.specs.Slots.{IsOpen};
ghost use Rattle.ist_core.specs.Writing.{place_of_status};
ghost use Rattle.ist_rule.specs.Learning.{now, GoesOnTo};
ghost use Rattle.ist_rule.specs.Watching.{IsNode};

use ist_layout::{ANCHOR, ANCHOR_STATUS_PLACE, Status};
use ist_rule::{TreeTable, TreeToken, know, load};

/// Returns the place of the node's status.
pub(crate) fn status_place(node: u64) -> u64
    ensures value { result ≡ place_of_status node }
{
    if node == u64::from(ANCHOR) {
        ANCHOR_STATUS_PLACE
    } else {
        node
    }
}

/// Returns whether the node is open, by a load of its status. The anchor always is.
///
/// This is so in the log that the caller has seen after the load. A node that isn't open is never
/// open again (`laws::nodes_close_once`). If it is open, none of the caller's changes on it was
/// decided no.
pub fn is_open(table: &TreeTable, token: &mut TreeToken, node: u32) -> bool
    requires same_table { token.old.view.table ≡ table.now.table }
    requires node { IsNode (now token.old.view) node }
    ensures seen { GoesOnTo token.old.view token.new.view }
    ensures open { IsTrue result ↔ IsOpen (now token.new.view) node }
    ensures unrefused { (number : ℕ) → IsTrue result
        → IsUnrefused (now token.new.view) number node }
{
    know(token);
    // A load. Meets a mark of the node.
    load(table, token, status_place(u64::from(node))) == Status::Clear.to_word()
}
