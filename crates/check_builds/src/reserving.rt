//! The readings of the sizes that a caller holds, which the checker keeps and extends with each
//! row.
ghost use Rattle.std.specs.Prelude.{◌≡◌, ◌++◌, ◌∷◌, [], ℕ, OnOk};
ghost use Rattle.ist_core.specs.declared.events.Event.TheVariants.{Reserve};
ghost use Rattle.ist_core.specs.Snapshots.{Snapshot, sizes_held};
ghost use Rattle.check_fairness.specs.Knowing.{KnowsLists, KeepsSizes};
ghost use Rattle.check_events.specs.Mirroring.{Mirrors};

use check_events::{Replica, sizes_held as held_sizes};
use check_fairness::{BuildingLists, keep_readings};
use ist_core::Event;
use std::alloc::{AllocError, Global};

/// Keeps the readings of the sizes that a caller holds, together with the row that it reserves. The
/// replica must show the state before the event.
pub fn remember_sizes(
    alloc: Global,
    replica: &Replica,
    building: &mut BuildingLists,
    event: &Event,
) -> Result<(), AllocError>
    ensures exact { OnOk result ((t : Snapshot) → KnowsLists building.old t
        → KnowsLists building.new t) }
    ensures kept { OnOk result ((t : Snapshot) (caller base size : ℕ) → Mirrors replica.now t
        → KnowsLists building.old t → event.now ≡ Reserve caller base size
        → KeepsSizes building.new caller (sizes_held t caller ++ size ∷ [])) }
{
    match event {
        Event::Reserve { caller, size, .. } => {
            let mut sizes = held_sizes(alloc, &replica.held, *caller)?;
            sizes.push(*size)?;
            keep_readings(alloc, building, *caller, sizes.as_slice())
        }
        _ => Ok(()),
    }
}
