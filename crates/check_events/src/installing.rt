//! Whether a change may be installed.
ghost use Rattle.std.specs.Prelude.{◌↔◌, IsTrue};
ghost use Rattle.ist_core.specs.Snapshots.{Snapshot};
ghost use Rattle.ist_core.specs.Logs.{Log, state};
ghost use Rattle.ist_core.specs.Installing.{CanInstall, FitsKind, IsUnrefused};
ghost use Rattle.check_events.specs.Mirroring.{Mirrors};
ghost use Rattle.check_events.specs.Remembering.{KnowsSlots, KnowsWays, KnowsRefusals, KnowsStarts};
ghost use Rattle.check_events.specs.InstallRows.{MayStand, FitsByKey};
ghost use Rattle.check_events.specs.Ways.{KeysStay};

use crate::climbing::was_linked;
use crate::kinds::{comes_by_key, finishes, puts_leaf, puts_pair, removes, starts};
use crate::nodes::slot_holds;
use crate::pasts::{Past, pair_key};
use crate::replicas::Replica;
use crate::rows::{change_of_words, holds_rows};
use ist_core::{ChangeRow, Row};
use ist_layout::UNDECIDED;

/// Returns whether the change at the base may be installed with these rows.
pub fn can_install(replica: &Replica, past: &Past, caller: u64, base: u64, rows: &[Row]) -> bool
    ensures exact { (first : Snapshot) (log : Log) → Mirrors replica.now (state first log)
        → KnowsSlots past.now.slots first log → KnowsWays past.now.ways first log
        → KnowsRefusals past.now.refused (state first log)
        → KnowsStarts past.now.started (state first log) → KeysStay first log
        → (IsTrue result ↔ CanInstall first log caller base rows.now) }
{
    if caller >= replica.callers {
        return false;
    }
    match rows {
        [] => false,
        [row, fresh @ ..] => {
            if row.base != base {
                return false;
            }
            match change_of_words(row.words.as_slice()) {
                None => false,
                Some(change) => {
                    if !holds_rows(replica, caller, rows) {
                        return false;
                    }
                    if !may_stand(replica, past, caller, &change) {
                        return false;
                    }
                    fits_kind(replica, past, &change, fresh)
                }
            }
        }
    }
}

/// Returns whether the change meets what is required of a change of any kind.
fn may_stand(replica: &Replica, past: &Past, caller: u64, change: &ChangeRow) -> bool
    ensures exact { (first : Snapshot) (log : Log) → Mirrors replica.now (state first log)
        → KnowsSlots past.now.slots first log → KnowsRefusals past.now.refused (state first log)
        → (IsTrue result ↔ MayStand first log caller change.now) }
{
    if change.owner != caller {
        return false;
    }
    if change.decision != UNDECIDED {
        return false;
    }
    if !slot_holds(replica, change.node, change.index, u128::from(change.from)) {
        return false;
    }
    if !was_linked(past, change.node) {
        return false;
    }
    is_unrefused(past, caller, change.node)
}

/// Returns whether no change of the caller on the node was decided no.
fn is_unrefused(past: &Past, caller: u64, node: u64) -> bool
    ensures exact { (t : Snapshot) → KnowsRefusals past.now.refused t
        → (IsTrue result ↔ IsUnrefused t caller node) }
{
    !past.refused.contains(&pair_key(caller, node))
}

/// Returns whether the change meets the condition of its kind.
fn fits_kind(replica: &Replica, past: &Past, change: &ChangeRow, fresh: &[Row]) -> bool
    ensures exact { (first : Snapshot) (log : Log) → Mirrors replica.now (state first log)
        → KnowsSlots past.now.slots first log → KnowsWays past.now.ways first log
        → KnowsStarts past.now.started (state first log)
        → KeysStay first log → (IsTrue result ↔ FitsKind first log change.now fresh.now) }
{
    if fits_by_key(replica, past, change, fresh) {
        return true;
    }
    if starts(replica, change, fresh) {
        return true;
    }
    finishes(replica, past, change, fresh)
}

/// Returns whether the change is a put or a remove, and meets its condition.
fn fits_by_key(replica: &Replica, past: &Past, change: &ChangeRow, fresh: &[Row]) -> bool
    ensures exact { (first : Snapshot) (log : Log) → Mirrors replica.now (state first log)
        → KnowsSlots past.now.slots first log → KnowsWays past.now.ways first log
        → KeysStay first log → (IsTrue result ↔ FitsByKey first log change.now fresh.now) }
{
    if !comes_by_key(replica, past, change) {
        return false;
    }
    if puts_leaf(replica, change, fresh) {
        return true;
    }
    if puts_pair(replica, change, fresh) {
        return true;
    }
    removes(replica, change, fresh)
}
