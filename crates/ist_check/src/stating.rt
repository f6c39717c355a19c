//! The state that a replica shows.
ghost use Rattle.std.specs.Prelude.{◌≡◌, IfOk, map as each_of};
ghost use Rattle.std.specs.List.Sorted.{IsStrictlyIncreasing};
ghost use Rattle.ist_core.specs.Snapshots.{Snapshot, Shows};
ghost use Rattle.check_events.specs.Mirroring.{Mirrors};

use check_events::{Replica, rows_held};
use ist_core::{Changes, HeldRows, Inners, Leaves, Rebuilds, State};
use std::alloc::{AllocError, Global};
use std::collections::BTreeMap;

/// Returns the state that the replica mirrors.
pub(crate) fn state_of(alloc: Global, replica: Replica) -> Result<State, AllocError>
    ensures shown { IfOk result (λ state. (t : Snapshot) → Mirrors replica t → Shows state t) }
{
    Ok(State {
        words: replica.words,
        next: replica.next,
        callers: replica.callers,
        anchor: replica.anchor,
        leaves: Leaves::from_vec(entries_of(alloc, replica.leaves)?),
        inners: Inners::from_vec(entries_of(alloc, replica.inners)?),
        changes: Changes::from_vec(entries_of(alloc, replica.changes)?),
        rebuilds: Rebuilds::from_vec(entries_of(alloc, replica.rebuilds)?),
        held: HeldRows::from_vec(rows_held(alloc, replica.held)?),
    })
}

/// Returns the entries of the map, in increasing order of keys.
fn entries_of<X: Drop>(alloc: Global, map: BTreeMap<u64, X>) -> Result<Vec<(u64, X)>, AllocError>
    ensures value { IfOk result (λ entries. entries.items ≡ map.entries) }
    ensures rising { IfOk result (λ entries.
        IsStrictlyIncreasing (each_of (λ e. e.0) entries.items)) }
{
    map.into_iter().collect(alloc)
}
