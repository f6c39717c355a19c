//! Whether a caller may enter, and whether a row may be reserved.
ghost use Rattle.std.specs.Prelude.{◌↔◌, IsTrue, IfOk};
ghost use Rattle.ist_core.specs.Snapshots.{Snapshot};
ghost use Rattle.ist_core.specs.Enabled.{CanEnter, CanReserve};
ghost use Rattle.check_events.specs.Mirroring.{Mirrors};
ghost use Rattle.check_fairness.specs.Knowing.{KnowsLists};

use crate::held::sizes_held;
use crate::pasts::Past;
use crate::replicas::Replica;
use check_fairness::is_fair_for;
use std::alloc::{AllocError, Global};

/// Callers have numbers below this one.
const CALLER_LIMIT: u64 = (1 << 32) - 1;

/// Returns whether a caller with this number may enter.
pub fn can_enter(replica: &Replica, caller: u64) -> bool
    ensures exact { (t : Snapshot) → Mirrors replica.now t → (IsTrue result ↔ CanEnter t caller) }
{
    caller == replica.callers && caller < CALLER_LIMIT
}

/// Returns whether the caller may reserve a row of this size at the base.
pub fn can_reserve(
    alloc: Global,
    replica: &Replica,
    past: &Past,
    caller: u64,
    base: u64,
    size: u64,
) -> Result<bool, AllocError>
    ensures exact { IfOk result (λ may. (t : Snapshot) → Mirrors replica.now t
        → KnowsLists past.now.building t
        → (IsTrue may ↔ CanReserve t caller base size)) }
{
    if caller >= replica.callers || base != replica.next {
        return Ok(false);
    }
    if replica.next > replica.words || size > replica.words - replica.next {
        return Ok(false);
    }
    let room = replica.words - replica.next;
    let mut sizes = sizes_held(alloc, &replica.held, caller)?;
    sizes.push(size)?;
    is_fair_for(alloc, &past.building, room, caller, sizes.as_slice())
}
