//! Whether what a caller holds is fair.
ghost use Rattle.std.specs.Prelude.{◌≡◌, ◌↔◌, ◌+◌, IsTrue, IfOk, map};
ghost use Rattle.ist_core.specs.Snapshots.{Snapshot};
ghost use Rattle.ist_core.specs.Fairness.{IsFair};
ghost use Rattle.check_fairness.specs.Searching.{AreBuilding};
ghost use Rattle.check_fairness.specs.Knowing.{KnowsLists};

use crate::keeping::goes_on;
use crate::lists::BuildingLists;
use crate::readings::{first_readings, read_further};
use crate::spares::are_all_spare;
use std::alloc::{AllocError, Global};

/// Returns whether the caller may fairly hold rows of these sizes, in the order of reserving, if
/// there is room for `room` words.
///
/// As far as the sizes are those whose readings are kept, none is read again.
pub fn is_fair_for(
    alloc: Global,
    building: &BuildingLists,
    room: u64,
    caller: u64,
    sizes: &[u64],
) -> Result<bool, AllocError>
    ensures exact { IfOk result (λ fair. (t : Snapshot) → KnowsLists building.now t
        → t.words ≡ t.next + room → (IsTrue fair ↔ IsFair t sizes.now)) }
{
    if are_all_spare(sizes) {
        return Ok(true);
    }
    if goes_on(alloc, building, caller, sizes)? {
        return Ok(true);
    }
    is_fair(alloc, building.lists.as_slice(), room, sizes)
}

/// Returns whether the sizes are fair, if these are the building lists and there is room for `room`
/// words.
fn is_fair(alloc: Global, lists: &[Vec<u64>], room: u64, sizes: &[u64]) -> Result<bool, AllocError>
    ensures exact { IfOk result (λ fair. (t : Snapshot)
        → AreBuilding t (map (λ v. v.items) lists.now)
        → t.words ≡ t.next + room → (IsTrue fair ↔ IsFair t sizes.now)) }
{
    let first = first_readings(alloc, lists)?;
    let readings = read_further(alloc, lists, room, first.as_slice(), sizes)?;
    Ok(!readings.is_empty())
}
