//! Removes held rows that an event takes away.
ghost use Rattle.std.specs.Prelude.{OnOk};
ghost use Rattle.ist_core.specs.Snapshots.{Snapshot, without, bases_of};
ghost use Rattle.check_events.specs.Mirroring.{Mirrors};

use check_events::{Replica, let_go};
use ist_core::Row;
use std::alloc::{AllocError, Global};

/// Removes the held rows at these bases.
pub fn give_up(replica: &mut Replica, bases: &[u64])
    ensures exact { (t : Snapshot) → Mirrors replica.old t
        → Mirrors replica.new (record t { held = without bases.now t.held }) }
{
    let_go(&mut replica.held, bases);
}

/// Removes the held rows at the bases of these rows.
pub fn give_up_rows(alloc: Global, replica: &mut Replica, rows: &[Row]) -> Result<(), AllocError>
    ensures exact { OnOk result ((t : Snapshot) → Mirrors replica.old t
        → Mirrors replica.new (record t { held = without (bases_of rows.now) t.held })) }
{
    let bases: Vec<u64> = rows.iter().map(|row| row.base).collect(alloc)?;
    give_up(replica, bases.as_slice());
    Ok(())
}
