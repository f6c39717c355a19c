//! Whether a put or remove may be counted at a row of its chain.
ghost use Rattle.std.specs.Prelude.{◌↔◌, IsTrue};
ghost use Rattle.ist_core.specs.Snapshots.{Snapshot};
ghost use Rattle.ist_core.specs.Logs.{Log, state};
ghost use Rattle.ist_core.specs.Deciding.{CanCount};
ghost use Rattle.check_events.specs.Mirroring.{Mirrors};
ghost use Rattle.check_events.specs.Remembering.{KnowsSlots, KnowsUpdates, KnowsWays};

use crate::climbing::was_on_chain;
use crate::pasts::Past;
use crate::replicas::Replica;

/// Returns whether the caller may count its last put or remove at the node.
pub fn can_count(replica: &Replica, past: &Past, caller: u64, node: u64) -> bool
    ensures exact { (first : Snapshot) (log : Log) → Mirrors replica.now (state first log)
        → KnowsUpdates past.now.updates (state first log) log → KnowsSlots past.now.slots first log
        → KnowsWays past.now.ways first log
        → (IsTrue result ↔ CanCount first log caller node) }
{
    if caller >= replica.callers {
        return false;
    }
    match past.updates.get(&caller) {
        None => false,
        Some(last) => {
            if last.counted.contains(&node) {
                return false;
            }
            match replica.changes.get(&last.change) {
                None => false,
                Some(row) => was_on_chain(past, row.node, node),
            }
        }
    }
}
