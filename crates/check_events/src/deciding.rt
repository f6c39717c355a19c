//! Whether the outcome of a change may be fixed, and whether the change may leave its slot.
ghost use Rattle.std.specs.Prelude.{◌≡◌, ◌↔◌, IsTrue};
ghost use Rattle.ist_core.specs.Logs.{Log};
ghost use Rattle.ist_core.specs.References.{ChangeAt, word_of};
ghost use Rattle.ist_core.specs.Snapshots.{Snapshot};
ghost use Rattle.ist_core.specs.Deciding.{CanOkay, CanDecide, CanResolve};
ghost use Rattle.check_events.specs.Mirroring.{Mirrors};
ghost use Rattle.check_events.specs.Remembering.{KnowsOkays};

use crate::nodes::{is_open, slot_holds};
use crate::pasts::Past;
use crate::replicas::Replica;
use ist_layout::UNDECIDED;

/// Returns whether the caller may record that the change's node is open.
pub fn can_okay(replica: &Replica, caller: u64, change: u64) -> bool
    ensures exact { (t : Snapshot) → Mirrors replica.now t
        → (IsTrue result ↔ CanOkay t caller change) }
{
    if caller >= replica.callers {
        return false;
    }
    match replica.changes.get(&change) {
        None => false,
        Some(row) => row.decision == UNDECIDED && is_open(replica, row.node),
    }
}

/// Returns whether the change may be decided this way.
pub fn can_decide(replica: &Replica, past: &Past, caller: u64, change: u64, yes: bool) -> bool
    ensures exact { (t : Snapshot) (log : Log) → Mirrors replica.now t
        → KnowsOkays past.now.okayed log
        → (IsTrue result ↔ CanDecide t log caller change yes) }
{
    if caller >= replica.callers {
        return false;
    }
    match replica.changes.get(&change) {
        None => false,
        Some(row) => {
            if row.decision != UNDECIDED {
                return false;
            }
            if yes {
                past.okayed.contains(&change)
            } else {
                !is_open(replica, row.node)
            }
        }
    }
}

/// Returns whether the change may leave its slot.
pub fn can_resolve(replica: &Replica, caller: u64, change: u64) -> bool
    ensures exact { (t : Snapshot) → Mirrors replica.now t
        → (IsTrue result ↔ CanResolve t caller change) }
{
    if caller >= replica.callers {
        return false;
    }
    match replica.changes.get(&change) {
        None => false,
        Some(row) => {
            if row.decision == UNDECIDED {
                return false;
            }
            slot_holds(replica, row.node, row.index, change_word(change))
        }
    }
}

/// Returns the word of a change, also of one whose base is too large for a word.
fn change_word(base: u64) -> u128
    ensures value { result ≡ word_of (ChangeAt base) }
{
    u128::from(base) * 8 + 3
}
