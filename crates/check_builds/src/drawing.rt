//! Whether a part of a shared root may be drawn.
ghost use Rattle.std.specs.Prelude.{◌↔◌, ◌<◌, ℕ, IsTrue};
ghost use Rattle.ist_core.specs.Snapshots.{Snapshot};
ghost use Rattle.ist_core.specs.Logs.{Log, Happened, Draws};
ghost use Rattle.ist_core.specs.Building.{CanDraw};
ghost use Rattle.check_events.specs.Mirroring.{Mirrors};
ghost use Rattle.check_events.specs.Remembering.{KnowsDraws};

use check_events::{Past, Replica, finished_keys, pair_key};
use check_fairness::degree_of;
use ist_math::SHARE_FROM;

/// The word of a part of a shared root that isn't built yet.
const UNSET_WORD: u64 = 7;

/// Returns whether the caller may draw this part of the rebuild.
pub fn can_draw(replica: &Replica, past: &Past, caller: u64, rebuild: u64, part: u64) -> bool
    ensures exact { (t : Snapshot) (log : Log) → Mirrors replica.now t
        → KnowsDraws past.now.drawn log
        → (IsTrue result ↔ CanDraw t log caller rebuild part) }
{
    if caller >= replica.callers {
        return false;
    }
    match replica.rebuilds.get(&rebuild) {
        None => false,
        Some(row) => {
            if row.root == UNSET_WORD || row.draw != part {
                return false;
            }
            match finished_keys(replica, row.target) {
                None => false,
                Some(keys) => {
                    if keys < SHARE_FROM {
                        return false;
                    }
                    is_within(past, caller, rebuild, degree_of(keys))
                }
            }
        }
    }
}

/// Returns whether each part that the caller drew of the rebuild is below the limit.
fn is_within(past: &Past, caller: u64, rebuild: u64, limit: u64) -> bool
    ensures exact { (log : Log) → KnowsDraws past.now.drawn log
        → (IsTrue result ↔ ((part : ℕ) → Happened (Draws caller rebuild part) log → part < limit)) }
{
    match past.drawn.get(&pair_key(caller, rebuild)) {
        None => true,
        Some(most) => *most < limit,
    }
}
