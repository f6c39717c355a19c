//! Whether rows of an event have the right words, and are held by its caller.
ghost use Rattle.std.specs.Prelude.{◌≡◌, ◌↔◌, ◌∷◌, [], ℕ, IsTrue, Some};
ghost use Rattle.ist_core.specs.Pieces as pieces;
ghost use Rattle.ist_core.specs.Snapshots.{Snapshot, HoldsRow, HoldsRows};
ghost use Rattle.check_events.specs.Mirroring.{Mirrors};

use crate::held::{has_row, size_held};
use crate::replicas::Replica;
use ist_core::{ChangeRow, HeldRow, Row};

/// Returns whether the row has this base and these words.
pub fn is_row(row: &Row, base: u64, words: &[u64]) -> bool
    ensures exact { IsTrue result ↔ (row.now ≡ record { base = base; words = words.now }) }
{
    row.base == base && row.words.as_slice() == words
}

/// Returns whether this is one row, with this base and these words.
pub fn is_one_row(rows: &[Row], base: u64, words: &[u64]) -> bool
    ensures exact { IsTrue result ↔ (rows.now ≡ record { base = base; words = words.now } ∷ []) }
{
    if rows.len() != 1 {
        return false;
    }
    is_row(&rows[0], base, words)
}

/// Returns whether the caller holds a row of this size at the base.
pub fn holds_row(replica: &Replica, caller: u64, base: u64, size: u64) -> bool
    ensures exact { (t : Snapshot) → Mirrors replica.now t
        → (IsTrue result ↔ HoldsRow t caller base size) }
{
    has_row(&replica.held, HeldRow { caller, base, size })
}

/// Returns the length of the row that the caller holds at the base, if it holds one.
pub fn size_at(replica: &Replica, caller: u64, base: u64) -> Option<u64>
    ensures exact { (t : Snapshot) → Mirrors replica.now t → (size : ℕ)
        → (result ≡ Some size ↔ HoldsRow t caller base size) }
{
    size_held(&replica.held, caller, base)
}

/// Returns whether the caller holds each of these rows.
pub fn holds_rows(replica: &Replica, caller: u64, rows: &[Row]) -> bool
    ensures exact { (t : Snapshot) → Mirrors replica.now t
        → (IsTrue result ↔ HoldsRows t caller rows.now) }
{
    match rows {
        [] => true,
        [row, more @ ..] => {
            if !holds_row(replica, caller, row.base, row.words.as_slice().len() as u64) {
                return false;
            }
            holds_rows(replica, caller, more)
        }
    }
}

/// Returns the change with these words.
pub fn change_of_words(words: &[u64]) -> Option<ChangeRow>
    ensures value { result ≡ pieces.change_of words.now }
{
    match words {
        [decision, kind, node, index, from, to, owner, key, value] => Some(ChangeRow {
            decision: *decision,
            kind: *kind,
            node: *node,
            index: *index,
            from: *from,
            to: *to,
            owner: *owner,
            key: *key,
            value: *value,
        }),
        _ => None,
    }
}
