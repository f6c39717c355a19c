//! What the checker keeps of the leaves of a target while the parts of its rebuild are placed.
ghost use Rattle.std.specs.Prelude.{◌∷◌, ℕ, List, OnOk};
ghost use Rattle.ist_core.specs.declared.pairs.Pair.{Pair as APair};
ghost use Rattle.ist_core.specs.Snapshots.{Snapshot};
ghost use Rattle.ist_core.specs.Rebuilding.{IsFinishedWith};
ghost use Rattle.ist_core.specs.Logs.{Log};
ghost use Rattle.ist_core.specs.Lawful.{Lawful, state_of};
ghost use Rattle.check_events.specs.Mirroring.{Mirrors};
ghost use Rattle.check_events.specs.Remembering.{KnowsLeaves};

use crate::leaves::add_leaves;
use check_events::{FoundLeaf, Replica, finished_keys, rebuild_of_word};
use ist_core::Event;
use ist_layout::FINISH_KIND;
use std::alloc::{AllocError, Global};
use std::collections::BTreeMap;

/// Keeps the leaves of the target of a rebuild of which a part is placed, and drops them when the
/// rebuild is finished. The replica must show the state before the event.
pub fn remember_leaves(
    alloc: Global,
    replica: &Replica,
    kept: &mut BTreeMap<u64, Vec<FoundLeaf>>,
    event: &Event,
) -> Result<(), AllocError>
    ensures exact { OnOk result ((pairs : List APair) → (words : ℕ) → (log : Log)
        → Lawful pairs words (event.now ∷ log)
        → Mirrors replica.now (state_of pairs words log)
        → KnowsLeaves kept.old (state_of pairs words log)
        → KnowsLeaves kept.new (state_of pairs words (event.now ∷ log))) }
{
    match event {
        Event::Place { rebuild, .. } => keep_of_rebuild(alloc, replica, kept, *rebuild),
        Event::Decide { change, .. } => {
            drop_by_finish(replica, kept, *change);
            Ok(())
        }
        _ => Ok(()),
    }
}

/// Drops the leaves of the target of the rebuild that the change finishes, if it finishes one.
fn drop_by_finish(replica: &Replica, kept: &mut BTreeMap<u64, Vec<FoundLeaf>>, change: u64)
    ensures exact { (t : Snapshot) → KnowsLeaves kept.old t → KnowsLeaves kept.new t }
{
    if let Some(row) = replica.changes.get(&change) {
        if row.kind == FINISH_KIND {
            drop_by_word(replica, kept, row.from);
        }
    }
}

/// Drops the leaves of the target of the rebuild that the word names, if it names one.
fn drop_by_word(replica: &Replica, kept: &mut BTreeMap<u64, Vec<FoundLeaf>>, word: u64)
    ensures exact { (t : Snapshot) → KnowsLeaves kept.old t → KnowsLeaves kept.new t }
{
    if let Some(rebuild) = rebuild_of_word(word) {
        if let Some(row) = replica.rebuilds.get(&rebuild) {
            kept.remove(&row.target);
        }
    }
}

/// Keeps the leaves of the target of a rebuild, if there is such a rebuild.
fn keep_of_rebuild(
    alloc: Global,
    replica: &Replica,
    kept: &mut BTreeMap<u64, Vec<FoundLeaf>>,
    rebuild: u64,
) -> Result<(), AllocError>
    ensures exact { OnOk result ((t : Snapshot) → Mirrors replica.now t → KnowsLeaves kept.old t
        → KnowsLeaves kept.new t) }
{
    match replica.rebuilds.get(&rebuild) {
        None => Ok(()),
        Some(row) => keep_leaves(alloc, replica, kept, row.target),
    }
}

/// Keeps the leaves below a finished row, if they aren't kept yet.
fn keep_leaves(
    alloc: Global,
    replica: &Replica,
    kept: &mut BTreeMap<u64, Vec<FoundLeaf>>,
    node: u64,
) -> Result<(), AllocError>
    ensures exact { OnOk result ((t : Snapshot) → Mirrors replica.now t → KnowsLeaves kept.old t
        → KnowsLeaves kept.new t) }
{
    if kept.contains_key(&node) {
        return Ok(());
    }
    match finished_keys(replica, node) {
        None => Ok(()),
        Some(_) => read_leaves(alloc, replica, kept, node),
    }
}

/// Keeps the leaves below a finished row.
fn read_leaves(
    alloc: Global,
    replica: &Replica,
    kept: &mut BTreeMap<u64, Vec<FoundLeaf>>,
    node: u64,
) -> Result<(), AllocError>
    ensures exact { OnOk result ((t : Snapshot) (k : ℕ) → Mirrors replica.now t
        → IsFinishedWith t node k → KnowsLeaves kept.old t → KnowsLeaves kept.new t) }
{
    let mut leaves = Vec::new(alloc);
    if add_leaves(alloc, replica, node, &mut leaves)? {
        kept.insert(node, leaves)?;
    }
    Ok(())
}
