//! What the checker remembers of decisions.
ghost use Rattle.std.specs.Prelude.{◌≡◌, ◌↔◌, ◌⊎◌, ◌∷◌, ◌<◌, ◌^◌, ℕ, List, OnOk};
ghost use Rattle.ist_core.specs.declared.pairs.Pair.{Pair as APair};
ghost use Rattle.ist_core.specs.Snapshots.{Snapshot};
ghost use Rattle.ist_core.specs.Logs.{Log};
ghost use Rattle.ist_core.specs.Lawful.{Lawful, state_of};
ghost use Rattle.check_fairness.specs.Answers.{Holds};
ghost use Rattle.check_events.specs.Mirroring.{Mirrors};
ghost use Rattle.check_events.specs.Remembering.{KnowsRefusals, KnowsStarts, pair_key as the_key};
ghost use Rattle.check_state.specs.Remembered.{Refuses, StartsRebuild};

use check_events::{Replica, pair_key, rebuild_of_word};
use ist_core::Event;
use ist_layout::START_KIND;
use std::alloc::AllocError;
use std::collections::BTreeSet;

/// Remembers the rebuild that a Decide starts. The replica must show the state before the event.
pub fn remember_start(
    replica: &Replica,
    started: &mut BTreeSet<u64>,
    event: &Event,
) -> Result<(), AllocError>
    ensures exact { OnOk result ((pairs : List APair) → (words : ℕ) → (log : Log)
        → Lawful pairs words (event.now ∷ log)
        → Mirrors replica.now (state_of pairs words log)
        → KnowsStarts started.old (state_of pairs words log)
        → KnowsStarts started.new (state_of pairs words (event.now ∷ log))) }
{
    match event {
        Event::Decide { change, yes, .. } => {
            if !*yes {
                return Ok(());
            }
            note_start(replica, started, *change)
        }
        _ => Ok(()),
    }
}

/// Remembers the rebuild that the change starts, if it starts one.
fn note_start(replica: &Replica, started: &mut BTreeSet<u64>, change: u64) -> Result<(), AllocError>
    ensures exact { OnOk result ((t : Snapshot) → Mirrors replica.now t → (rebuild : ℕ)
        → (Holds started.new rebuild ↔ (Holds started.old rebuild ⊎ StartsRebuild t change rebuild))) }
{
    match replica.changes.get(&change) {
        None => Ok(()),
        Some(row) => {
            if row.kind != START_KIND {
                return Ok(());
            }
            match rebuild_of_word(row.to) {
                None => Ok(()),
                Some(rebuild) => {
                    started.insert(rebuild)?;
                    Ok(())
                }
            }
        }
    }
}

/// Remembers the caller and the node of a change that a Decide decides no. The replica must show
/// the state before the event.
pub fn remember_refusal(
    replica: &Replica,
    refused: &mut BTreeSet<u128>,
    event: &Event,
) -> Result<(), AllocError>
    ensures exact { OnOk result ((pairs : List APair) → (words : ℕ) → (log : Log)
        → Lawful pairs words (event.now ∷ log)
        → Mirrors replica.now (state_of pairs words log)
        → KnowsRefusals refused.old (state_of pairs words log)
        → KnowsRefusals refused.new (state_of pairs words (event.now ∷ log))) }
{
    match event {
        Event::Decide { change, yes, .. } => {
            if *yes {
                return Ok(());
            }
            note_refusal(replica, refused, *change)
        }
        _ => Ok(()),
    }
}

/// Remembers the caller and the node of the change.
fn note_refusal(
    replica: &Replica,
    refused: &mut BTreeSet<u128>,
    change: u64,
) -> Result<(), AllocError>
    ensures exact { OnOk result ((t : Snapshot) → Mirrors replica.now t
        → (caller : ℕ) → (node : ℕ) → node < 2 ^ 64
        → (Holds refused.new (the_key caller node)
        ↔ (Holds refused.old (the_key caller node) ⊎ Refuses t change caller node))) }
{
    match replica.changes.get(&change) {
        None => Ok(()),
        Some(row) => put_refusal(refused, row.owner, row.node),
    }
}

/// Adds a caller and a node.
fn put_refusal(refused: &mut BTreeSet<u128>, owner: u64, on: u64) -> Result<(), AllocError>
    ensures exact { OnOk result ((caller : ℕ) → (node : ℕ) → node < 2 ^ 64
        → (Holds refused.new (the_key caller node)
        ↔ (Holds refused.old (the_key caller node) ⊎ ((caller ≡ owner) × (node ≡ on))))) }
{
    refused.insert(pair_key(owner, on))?;
    Ok(())
}
