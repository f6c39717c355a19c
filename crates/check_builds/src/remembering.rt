//! What the checker remembers of an event, table by table.
ghost use Rattle.std.specs.Prelude.{◌≡◌, ◌∷◌, ℕ, List, OnOk, IfOk, ◌<◌, ◌≤◌, ◌+◌, ◌^◌};
ghost use Rattle.ist_core.specs.Snapshots as snapshots;
ghost use Rattle.ist_core.specs.Logs.{Log};
ghost use Rattle.ist_core.specs.declared.events.Event.TheVariants.{Draw, Lose, Pass, Root};
ghost use Rattle.check_events.specs.Remembering.{KnowsOkays, KnowsPasses, KnowsDraws, KnowsBuilds};
ghost use Rattle.check_builds.specs.Passed.{PassesAreOne};

use check_events::{BuildTable, pair_key};
use ist_core::{Event, Row};
use std::alloc::{AllocError, Global};
use std::collections::{BTreeMap, BTreeSet};

/// Remembers the change that an Okay names.
pub fn remember_okay(okayed: &mut BTreeSet<u64>, event: &Event) -> Result<(), AllocError>
    ensures exact { OnOk result ((log : Log) → KnowsOkays okayed.old log
        → KnowsOkays okayed.new (event.now ∷ log)) }
{
    match event {
        Event::Okay { change, .. } => {
            okayed.insert(*change)?;
            Ok(())
        }
        _ => Ok(()),
    }
}

/// Remembers the word with which a slot is passed.
pub fn remember_pass(passed: &mut BTreeMap<u128, u64>, event: &Event) -> Result<(), AllocError>
    ensures exact { OnOk result ((log : Log) → PassesAreOne (event.now ∷ log)
        → KnowsPasses passed.old log → KnowsPasses passed.new (event.now ∷ log)) }
{
    match event {
        Event::Pass {
            node,
            index,
            word,
            ..
        } => note_pass(passed, *node, *index, *word),
        _ => Ok(()),
    }
}

/// Remembers the word of one pass.
fn note_pass(
    passed: &mut BTreeMap<u128, u64>,
    node: u64,
    index: u64,
    word: u64,
) -> Result<(), AllocError>
    ensures exact { OnOk result ((log : Log) → (caller : ℕ)
        → PassesAreOne (Pass caller node index word ∷ log)
        → KnowsPasses passed.old log
        → KnowsPasses passed.new (Pass caller node index word ∷ log)) }
{
    passed.insert(pair_key(node, index), word)?;
    Ok(())
}

/// Remembers the greatest part that a caller draws of a rebuild.
pub fn remember_draw(drawn: &mut BTreeMap<u128, u64>, event: &Event) -> Result<(), AllocError>
    ensures exact { OnOk result ((log : Log) → KnowsDraws drawn.old log
        → KnowsDraws drawn.new (event.now ∷ log)) }
{
    match event {
        Event::Draw {
            caller,
            rebuild,
            part,
        } => note_draw(drawn, *caller, *rebuild, *part),
        _ => Ok(()),
    }
}

/// Remembers one draw, unless a greater part is known.
fn note_draw(
    drawn: &mut BTreeMap<u128, u64>,
    caller: u64,
    rebuild: u64,
    part: u64,
) -> Result<(), AllocError>
    ensures exact { OnOk result ((log : Log) → KnowsDraws drawn.old log
        → KnowsDraws drawn.new (Draw caller rebuild part ∷ log)) }
{
    let key = pair_key(caller, rebuild);
    let most = match drawn.get(&key) {
        None => part,
        Some(before) => (*before).max(part),
    };
    drawn.insert(key, most)?;
    Ok(())
}

/// Remembers the sizes of the rows of a Root or a Place, and which caller made it.
pub fn remember_build(
    alloc: Global,
    builds: &mut BuildTable,
    event: &Event,
) -> Result<(), AllocError>
    requires room { builds.old.count < 2 ^ 63 }
    ensures exact { OnOk result ((log : Log) → KnowsBuilds builds.old log
        → KnowsBuilds builds.new (event.now ∷ log)) }
    ensures few { OnOk result (builds.new.count ≤ builds.old.count + 1) }
{
    match event {
        Event::Root { caller, rows, .. } => note_build(alloc, builds, *caller, rows.as_slice()),
        Event::Place { caller, rows, .. } => note_build(alloc, builds, *caller, rows.as_slice()),
        Event::Lose { caller, .. } => note_loss(builds, *caller),
        _ => Ok(()),
    }
}

/// Remembers one build. A Place counts as a Root here.
fn note_build(
    alloc: Global,
    builds: &mut BuildTable,
    caller: u64,
    rows: &[Row],
) -> Result<(), AllocError>
    requires room { builds.old.count < 2 ^ 63 }
    ensures exact { OnOk result ((log : Log) → (rebuild word : ℕ) → KnowsBuilds builds.old log
        → KnowsBuilds builds.new (Root caller rebuild word rows.now ∷ log)) }
    ensures few { OnOk result (builds.new.count ≡ builds.old.count + 1) }
{
    let count = builds.count + 1;
    builds.last.insert(sizes_of(alloc, rows)?, count)?;
    builds.since.insert(caller, count)?;
    builds.count = count;
    Ok(())
}

/// Remembers that the caller gave up rows after all builds so far.
fn note_loss(builds: &mut BuildTable, caller: u64) -> Result<(), AllocError>
    ensures exact { OnOk result ((log : Log) → (bases : List ℕ) → KnowsBuilds builds.old log
        → KnowsBuilds builds.new (Lose caller bases ∷ log)) }
    ensures few { OnOk result (builds.new.count ≡ builds.old.count) }
{
    let count = builds.count;
    builds.since.insert(caller, count)?;
    Ok(())
}

/// Returns the sizes of some rows.
fn sizes_of(alloc: Global, rows: &[Row]) -> Result<Vec<u64>, AllocError>
    ensures value { IfOk result (λ sizes. sizes.items ≡ snapshots.sizes_of rows.now) }
{
    rows.iter()
        .map(|row| row.words.as_slice().len() as u64)
        .collect(alloc)
}
