//! Single writes to a replica: each does what the definitions say of the snapshot.
ghost use Rattle.std.specs.Prelude.{◌≡◌, ◌<◌, ◌^◌, Some};
ghost use Rattle.std.specs.Ordering.{nat_cmp};
ghost use Rattle.std.specs.BTreeMap as tree;
ghost use Rattle.ist_core.specs.declared.states.InnerRow.{InnerRow};
ghost use Rattle.ist_core.specs.declared.states.RebuildRow.{RebuildRow};
ghost use Rattle.ist_core.specs.Pieces as pieces;
ghost use Rattle.ist_core.specs.Pieces.{changed_at, with_status, with_decision};
ghost use Rattle.ist_core.specs.Snapshots.{Snapshot};
ghost use Rattle.ist_core.specs.Snapshots as snapshots;
ghost use Rattle.check_events.specs.Mirroring.{Mirrors};

use check_events::Replica;
use ist_layout::ANCHOR;

/// Gives the inner row at the base, if there is one, this status.
pub fn set_status(replica: &mut Replica, node: u64, status: u64)
    ensures exact { (t : Snapshot) → Mirrors replica.old t
        → Mirrors replica.new (record t { pieces = changed_at t.pieces node (with_status status) }) }
{
    if let Some(row) = replica.inners.get_mut(&node) {
        row.status = status;
    }
}

/// Counts one more change at the inner row at the base, if there is one.
pub fn count_at(replica: &mut Replica, node: u64)
    requires low { (r : InnerRow) → tree.get nat_cmp replica.old.inners node ≡ Some r
        → r.count < 2 ^ 63 }
    ensures exact { (t : Snapshot) → Mirrors replica.old t
        → Mirrors replica.new (record t { pieces = changed_at t.pieces node pieces.counted }) }
{
    if let Some(row) = replica.inners.get_mut(&node) {
        row.count += 1;
    }
}

/// Gives the change at the base, if there is one, this decision.
pub fn decide(replica: &mut Replica, base: u64, decision: u64)
    ensures exact { (t : Snapshot) → Mirrors replica.old t
        → Mirrors replica.new
        (record t { pieces = changed_at t.pieces base (with_decision decision) }) }
{
    if let Some(row) = replica.changes.get_mut(&base) {
        row.decision = decision;
    }
}

/// Gives the rebuild at the base, if there is one, this root.
pub fn set_root(replica: &mut Replica, base: u64, word: u64)
    ensures exact { (t : Snapshot) → Mirrors replica.old t
        → Mirrors replica.new
        (record t { pieces = changed_at t.pieces base (pieces.with_root word) }) }
{
    if let Some(row) = replica.rebuilds.get_mut(&base) {
        row.root = word;
    }
}

/// Draws one more part of the rebuild at the base, if there is one.
pub fn draw(replica: &mut Replica, base: u64)
    requires low { (r : RebuildRow) → tree.get nat_cmp replica.old.rebuilds base ≡ Some r
        → r.draw < 2 ^ 63 }
    ensures exact { (t : Snapshot) → Mirrors replica.old t
        → Mirrors replica.new (record t { pieces = changed_at t.pieces base pieces.drawn }) }
{
    if let Some(row) = replica.rebuilds.get_mut(&base) {
        row.draw += 1;
    }
}

/// Writes the word into slot `i` of the node, which is the anchor with its one slot or an inner
/// row.
pub fn set_slot(replica: &mut Replica, node: u64, i: u64, word: u64)
    ensures exact { (t : Snapshot) → Mirrors replica.old t
        → Mirrors replica.new (snapshots.with_slot_at t node i word) }
{
    if node == u64::from(ANCHOR) {
        replica.anchor = word;
    }
    set_row_slot(replica, node, i, word);
}

/// Writes the word into slot `i` of the inner row at the base, if there is one.
pub fn set_row_slot(replica: &mut Replica, base: u64, i: u64, word: u64)
    ensures exact { (t : Snapshot) → Mirrors replica.old t
        → Mirrors replica.new
        (record t { pieces = changed_at t.pieces base (pieces.with_slot i word) }) }
{
    if let Some(row) = replica.inners.get_mut(&base) {
        if i < row.slots.as_slice().len() as u64 {
            row.slots.set(i as usize, word);
        }
    }
}
