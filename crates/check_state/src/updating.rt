//! What the checker remembers of the last put or remove of each caller that was decided yes.
ghost use Rattle.std.specs.Prelude.{◌↔◌, ◌∷◌, ℕ, IsTrue, List, OnOk};
ghost use Rattle.std.specs.Ordering.{nat_cmp};
ghost use Rattle.std.specs.BTreeMap as tree;
ghost use Rattle.ist_core.specs.declared.pairs.Pair.{Pair as APair};
ghost use Rattle.ist_core.specs.Snapshots.{Snapshot};
ghost use Rattle.ist_core.specs.Logs.{Log};
ghost use Rattle.ist_core.specs.Lawful.{Lawful, state_of};
ghost use Rattle.ist_core.specs.Rebuilding.{IsUpdate};
ghost use Rattle.check_events.specs.Mirroring.{Mirrors};
ghost use Rattle.check_events.specs.Remembering.{KnowsUpdates};
ghost use Rattle.check_state.specs.Entries.{CountsIn, Renews};

use check_events::{LastUpdate, Replica};
use ist_core::Event;
use ist_layout::{PUT_KIND, REMOVE_KIND};
use std::alloc::{AllocError, Global};
use std::collections::{BTreeMap, BTreeSet};

/// Remembers a put or remove that a Decide decides yes, under its owner, and the node of a Count,
/// under the caller that counts. The replica must show the state before the event.
pub fn remember_update(
    alloc: Global,
    replica: &Replica,
    updates: &mut BTreeMap<u64, LastUpdate>,
    event: &Event,
) -> Result<(), AllocError>
    ensures exact { OnOk result ((pairs : List APair) → (words : ℕ) → (log : Log)
        → Lawful pairs words (event.now ∷ log)
        → Mirrors replica.now (state_of pairs words log)
        → KnowsUpdates updates.old (state_of pairs words log) log
        → KnowsUpdates updates.new (state_of pairs words (event.now ∷ log)) (event.now ∷ log)) }
{
    match event {
        Event::Decide { change, yes, .. } => {
            if !*yes {
                return Ok(());
            }
            note_update(alloc, replica, updates, *change)
        }
        Event::Count { caller, node } => note_count(updates, *caller, *node),
        _ => Ok(()),
    }
}

/// Starts a new entry for the change's owner, if the change is a put or remove.
fn note_update(
    alloc: Global,
    replica: &Replica,
    updates: &mut BTreeMap<u64, LastUpdate>,
    change: u64,
) -> Result<(), AllocError>
    ensures exact { OnOk result ((t : Snapshot) → Mirrors replica.now t → (caller : ℕ)
        → Renews t change caller (tree.get nat_cmp updates.old caller)
        (tree.get nat_cmp updates.new caller)) }
{
    match replica.changes.get(&change) {
        None => Ok(()),
        Some(row) => {
            if !is_update(row.kind) {
                return Ok(());
            }
            let last = LastUpdate {
                change,
                counted: BTreeSet::new(alloc),
            };
            updates.insert(row.owner, last)?;
            Ok(())
        }
    }
}

/// Returns whether a change of this kind is a put or a remove.
fn is_update(kind: u64) -> bool
    ensures exact { IsTrue result ↔ IsUpdate kind }
{
    kind == PUT_KIND || kind == REMOVE_KIND
}

/// Adds the node to the caller's entry, if it has one.
fn note_count(
    updates: &mut BTreeMap<u64, LastUpdate>,
    caller: u64,
    node: u64,
) -> Result<(), AllocError>
    ensures exact { OnOk result ((other : ℕ)
        → CountsIn caller node other (tree.get nat_cmp updates.old other)
        (tree.get nat_cmp updates.new other)) }
{
    match updates.get_mut(&caller) {
        None => Ok(()),
        Some(last) => {
            last.counted.insert(node)?;
            Ok(())
        }
    }
}
