//! Brings a replica forward by an event.
ghost use Rattle.std.specs.Prelude.{◌+◌, ◌^◌, ◌<◌, ◌++◌, ◌∷◌, [], OnOk};
ghost use Rattle.ist_core.specs.Snapshots.{Snapshot};
ghost use Rattle.ist_core.specs.Snapshots as snapshots;
ghost use Rattle.ist_core.specs.After as after;
ghost use Rattle.ist_core.specs.Pieces.{as_change, as_rebuild};
ghost use Rattle.ist_core.specs.Pieces as pieces;
ghost use Rattle.check_events.specs.Holding.{LiesBelow};
ghost use Rattle.check_events.specs.Mirroring.{Mirrors};
ghost use Rattle.check_state.specs.Room.{HasRoom};
ghost use Rattle.check_state.specs.Advancing.{TakesNoRows};

use crate::holding::{give_up, give_up_rows};
use crate::installing::install;
use crate::publishing::put_inners;
use crate::writes::{count_at, decide, draw, set_root, set_row_slot, set_slot, set_status};
use check_events::{Replica, hold, inner_of_word};
use ist_core::{Event, HeldRow, RebuildRow, Row};
use ist_layout::{DECIDED_NO, DECIDED_YES};
use std::alloc::{AllocError, Global};

/// The status of a marked node that isn't finished.
const MARKED_WORD: u64 = 1;

/// Brings the replica forward by the event: it then mirrors the snapshot after the event.
pub fn advance(alloc: Global, replica: &mut Replica, event: &Event) -> Result<(), AllocError>
    requires room { HasRoom replica.old event.now }
    ensures exact { OnOk result ((t : Snapshot) → Mirrors replica.old t
        → Mirrors replica.new (after.after t event.now)) }
{
    match event {
        Event::Reserve { caller, base, size } => { reserve(alloc, replica, *caller, *base, *size) }
        Event::Install { change, rows, .. } => {
            install(alloc, replica, *change, rows.as_slice())?;
            give_up_rows(alloc, replica, rows.as_slice())
        }
        Event::Root {
            rebuild,
            word,
            rows,
            ..
        } => { root(alloc, replica, *rebuild, *word, rows.as_slice()) }
        Event::Place {
            rebuild,
            part,
            word,
            rows,
            ..
        } => { place(alloc, replica, *rebuild, *part, *word, rows.as_slice()) }
        Event::Lose { bases, .. } => {
            give_up(replica, bases.as_slice());
            Ok(())
        }
        _ => {
            write_word(replica, event);
            Ok(())
        }
    }
}

/// Brings the replica forward by an event that takes no rows: it writes at most one word.
fn write_word(replica: &mut Replica, event: &Event)
    requires room { HasRoom replica.old event.now }
    ensures exact { TakesNoRows event.now → (t : Snapshot) → Mirrors replica.old t
        → Mirrors replica.new (after.after t event.now) }
{
    match event {
        Event::Enter { .. } => replica.callers += 1,
        Event::Decide { change, yes, .. } => {
            decide(
                replica,
                *change,
                if *yes { DECIDED_YES } else { DECIDED_NO },
            );
        }
        Event::Resolve { change, .. } => resolve(replica, *change),
        Event::Count { node, .. } => count_at(replica, *node),
        Event::Mark { node, .. } => set_status(replica, *node, MARKED_WORD),
        Event::Finish { node, keys, .. } => set_status(replica, *node, 4 * *keys + 3),
        Event::Draw { rebuild, .. } => draw(replica, *rebuild),
        _ => {}
    }
}

/// Reserves `size` words of the free ones, for the caller to hold.
fn reserve(
    alloc: Global,
    replica: &mut Replica,
    caller: u64,
    base: u64,
    size: u64,
) -> Result<(), AllocError>
    requires room { base + size < 2 ^ 64 }
    requires above { LiesBelow replica.old.held base }
    ensures exact { OnOk result ((t : Snapshot) → Mirrors replica.old t
        → Mirrors replica.new (record t {
          next = base + size;
          held = t.held ++ record { caller = caller; base = base; size = size } ∷ [];
        })) }
{
    replica.next = base + size;
    hold(alloc, &mut replica.held, HeldRow { caller, base, size })
}

/// Takes the change at the base, if there is one, out of its slot.
fn resolve(replica: &mut Replica, base: u64)
    ensures exact { (t : Snapshot) → Mirrors replica.old t
        → Mirrors replica.new (after.resolved t (as_change (t.pieces base))) }
{
    let found = replica.changes.get(&base).copied();
    if let Some(change) = found {
        let side = if change.decision == DECIDED_YES {
            change.to
        } else {
            change.from
        };
        set_slot(replica, change.node, change.index, side);
    }
}

/// Publishes the rows, and gives the rebuild its root.
fn root(
    alloc: Global,
    replica: &mut Replica,
    rebuild: u64,
    word: u64,
    rows: &[Row],
) -> Result<(), AllocError>
    ensures exact { OnOk result ((t : Snapshot) → Mirrors replica.old t
        → Mirrors replica.new (record t {
          pieces = pieces.changed_at (pieces.with_inners t.pieces rows.now) rebuild
              (pieces.with_root word);
          held = snapshots.without (snapshots.bases_of rows.now) t.held;
        })) }
{
    put_inners(alloc, replica, rows)?;
    set_root(replica, rebuild, word);
    give_up_rows(alloc, replica, rows)
}

/// Publishes the rows, and puts the word into the slot of the rebuild's root.
fn place(
    alloc: Global,
    replica: &mut Replica,
    rebuild: u64,
    part: u64,
    word: u64,
    rows: &[Row],
) -> Result<(), AllocError>
    ensures exact { OnOk result ((t : Snapshot) → Mirrors replica.old t
        → Mirrors replica.new (record t {
          pieces = after.placed (pieces.with_inners t.pieces rows.now)
              (as_rebuild (t.pieces rebuild)) part word;
          held = snapshots.without (snapshots.bases_of rows.now) t.held;
        })) }
{
    let found = replica.rebuilds.get(&rebuild).copied();
    put_inners(alloc, replica, rows)?;
    put_part(replica, found, part, word);
    give_up_rows(alloc, replica, rows)
}

/// Puts the word into the slot of the rebuild's root, if there is a rebuild with a root.
fn put_part(replica: &mut Replica, found: Option<RebuildRow>, part: u64, word: u64)
    ensures exact { (t : Snapshot) → Mirrors replica.old t
        → Mirrors replica.new (record t { pieces = after.placed t.pieces found part word }) }
{
    match found {
        None => {}
        Some(row) => match inner_of_word(row.root) {
            None => {}
            Some(root) => set_row_slot(replica, root, part, word),
        },
    }
}
