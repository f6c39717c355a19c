//! Publishes rows that an event brings.
ghost use Rattle.std.specs.Prelude.{◌≡◌, ◌-◌, min, Some, OnOk, IfOk};
ghost use Rattle.ist_core.specs.Pieces as pieces;
ghost use Rattle.ist_core.specs.Pieces.{Leaf, Inner, Change, Rebuild, with_row, with_inners, leaf_of, inner_of, rebuild_of};
ghost use Rattle.ist_core.specs.Snapshots.{Snapshot};
ghost use Rattle.check_events.specs.Mirroring.{Mirrors};

use check_events::Replica;
use ist_core::{ChangeRow, HeldRow, InnerRow, LeafRow, RebuildRow, Row, Words};
use std::alloc::{AllocError, Global};

/// Publishes a leaf.
pub fn put_leaf(replica: &mut Replica, base: u64, row: LeafRow) -> Result<(), AllocError>
    ensures exact { OnOk result ((t : Snapshot) → Mirrors replica.old t
        → Mirrors replica.new
        (record t { pieces = with_row t.pieces base (Some (Leaf row)) })) }
{
    replica.inners.remove(&base);
    replica.changes.remove(&base);
    replica.rebuilds.remove(&base);
    replica.leaves.insert(base, row)?;
    Ok(())
}

/// Publishes an inner row.
pub fn put_inner(replica: &mut Replica, base: u64, row: InnerRow) -> Result<(), AllocError>
    ensures exact { OnOk result ((t : Snapshot) → Mirrors replica.old t
        → Mirrors replica.new
        (record t { pieces = with_row t.pieces base (Some (Inner row)) })) }
{
    replica.leaves.remove(&base);
    replica.changes.remove(&base);
    replica.rebuilds.remove(&base);
    replica.inners.insert(base, row)?;
    Ok(())
}

/// Publishes a change.
pub fn put_change(replica: &mut Replica, base: u64, row: ChangeRow) -> Result<(), AllocError>
    ensures exact { OnOk result ((t : Snapshot) → Mirrors replica.old t
        → Mirrors replica.new
        (record t { pieces = with_row t.pieces base (Some (Change row)) })) }
{
    replica.leaves.remove(&base);
    replica.inners.remove(&base);
    replica.rebuilds.remove(&base);
    replica.changes.insert(base, row)?;
    Ok(())
}

/// Publishes a rebuild.
pub fn put_rebuild(replica: &mut Replica, base: u64, row: RebuildRow) -> Result<(), AllocError>
    ensures exact { OnOk result ((t : Snapshot) → Mirrors replica.old t
        → Mirrors replica.new
        (record t { pieces = with_row t.pieces base (Some (Rebuild row)) })) }
{
    replica.leaves.remove(&base);
    replica.inners.remove(&base);
    replica.changes.remove(&base);
    replica.rebuilds.insert(base, row)?;
    Ok(())
}

/// Publishes the words as a leaf, if they are the words of a leaf.
pub fn put_as_leaf(replica: &mut Replica, base: u64, words: &[u64]) -> Result<(), AllocError>
    ensures exact { OnOk result ((t : Snapshot) → Mirrors replica.old t
        → Mirrors replica.new
        (record t { pieces = with_row t.pieces base (leaf_of words.now) })) }
{
    match words {
        [key, value] => put_leaf(
            replica,
            base,
            LeafRow {
                key: *key,
                value: *value,
            },
        ),
        _ => Ok(()),
    }
}

/// Publishes the words as a rebuild, if they are the words of a rebuild.
pub fn put_as_rebuild(replica: &mut Replica, base: u64, words: &[u64]) -> Result<(), AllocError>
    ensures exact { OnOk result ((t : Snapshot) → Mirrors replica.old t
        → Mirrors replica.new
        (record t { pieces = with_row t.pieces base (rebuild_of words.now) })) }
{
    match words {
        [target, parent, index, root, draw] => put_rebuild(
            replica,
            base,
            RebuildRow {
                target: *target,
                parent: *parent,
                index: *index,
                root: *root,
                draw: *draw,
            },
        ),
        _ => Ok(()),
    }
}

/// Publishes the words as an inner row, if they are the words of one.
pub fn put_as_inner(
    alloc: Global,
    replica: &mut Replica,
    base: u64,
    words: &[u64],
) -> Result<(), AllocError>
    ensures exact { OnOk result ((t : Snapshot) → Mirrors replica.old t
        → Mirrors replica.new
        (record t { pieces = with_row t.pieces base (inner_of words.now) })) }
{
    match words {
        [status, count, degree, size, rest @ ..] => {
            let end = keys_end(*degree, rest.len());
            let row = InnerRow {
                status: *status,
                count: *count,
                degree: *degree,
                size: *size,
                keys: words_of(alloc, &rest[..end])?,
                slots: words_of(alloc, &rest[end..])?,
            };
            put_inner(replica, base, row)
        }
        _ => Ok(()),
    }
}

/// Returns how many of the `len` words after the fields of a row of this degree are keys.
fn keys_end(degree: u64, len: usize) -> usize
    ensures value { result ≡ min (degree - 1) len }
{
    if degree == 0 {
        return 0;
    }
    if degree - 1 < len as u64 {
        (degree - 1) as usize
    } else {
        len
    }
}

/// Copies the words.
fn words_of(alloc: Global, words: &[u64]) -> Result<Words, AllocError>
    ensures value { IfOk result (λ copy. copy ≡ words.now) }
{
    let copy: Vec<u64> = words.iter().copied().collect(alloc)?;
    Ok(Words::from_vec(copy))
}

/// Publishes inner rows by their words.
pub fn put_inners(alloc: Global, replica: &mut Replica, rows: &[Row]) -> Result<(), AllocError>
    ensures exact { OnOk result ((t : Snapshot) → Mirrors replica.old t
        → Mirrors replica.new (record t { pieces = with_inners t.pieces rows.now })) }
{
    match rows {
        [] => Ok(()),
        [row, more @ ..] => {
            put_inners(alloc, replica, more)?;
            put_as_inner(alloc, replica, row.base, row.words.as_slice())
        }
    }
}
