//! What an Install publishes.
ghost use Rattle.std.specs.Prelude.{◌≡◌, ◌<◌, ◌^◌, ◌==◌, if◌then◌else◌, OnOk};
ghost use Rattle.ist_core.specs.declared.states.ChangeRow.{ChangeRow};
ghost use Rattle.ist_core.specs.Pieces.{with_row, leaf_of, rebuild_of};
ghost use Rattle.ist_core.specs.Statuses as statuses;
ghost use Rattle.ist_core.specs.Snapshots.{Snapshot};
ghost use Rattle.ist_core.specs.After.{with_fresh, installed};
ghost use Rattle.check_events.specs.Mirroring.{Mirrors};

use crate::publishing::{put_as_inner, put_as_leaf, put_as_rebuild, put_change};
use crate::writes::set_slot;
use check_events::{Replica, change_of_words};
use ist_core::{ChangeRow, Row};
use ist_layout::START_KIND;
use std::alloc::{AllocError, Global};

/// Publishes a change at the base with its fresh rows, all given by their words, and puts it into
/// its slot.
pub fn install(
    alloc: Global,
    replica: &mut Replica,
    base: u64,
    rows: &[Row],
) -> Result<(), AllocError>
    requires room { base < 2 ^ 28 }
    ensures exact { OnOk result ((t : Snapshot) → Mirrors replica.old t
        → Mirrors replica.new (installed t base rows.now)) }
{
    match rows {
        [] => Ok(()),
        [row, fresh @ ..] => match change_of_words(row.words.as_slice()) {
            None => Ok(()),
            Some(change) => {
                put_fresh(alloc, replica, change.kind, fresh)?;
                put_change(replica, base, change)?;
                set_slot(replica, change.node, change.index, base * 8 + 3);
                Ok(())
            }
        },
    }
}

/// Publishes the rows that come with a change of this kind.
fn put_fresh(
    alloc: Global,
    replica: &mut Replica,
    kind: u64,
    fresh: &[Row],
) -> Result<(), AllocError>
    ensures exact { OnOk result ((t : Snapshot) (change : ChangeRow) → change.kind ≡ kind
        → Mirrors replica.old t
        → Mirrors replica.new (record t { pieces = with_fresh t.pieces change fresh.now })) }
{
    match fresh {
        [pair, leaf] => {
            put_as_leaf(replica, leaf.base, leaf.words.as_slice())?;
            put_as_inner(alloc, replica, pair.base, pair.words.as_slice())
        }
        [row] => put_one(replica, kind, row),
        _ => Ok(()),
    }
}

/// Publishes the one row that comes with a change of this kind: a rebuild with a start, otherwise a
/// leaf.
fn put_one(replica: &mut Replica, kind: u64, row: &Row) -> Result<(), AllocError>
    ensures exact { OnOk result ((t : Snapshot) → Mirrors replica.old t
        → Mirrors replica.new
        (record t {
          pieces = with_row t.pieces row.now.base
              (if kind == statuses.start_kind then rebuild_of row.now.words
              else leaf_of row.now.words);
        })) }
{
    if kind == START_KIND {
        put_as_rebuild(replica, row.base, row.words.as_slice())
    } else {
        put_as_leaf(replica, row.base, row.words.as_slice())
    }
}
