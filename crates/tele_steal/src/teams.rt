//! Lanes run by a team of workers: each worker has a lane of its own, or they steal lanes from one
//! another.
ghost use Rattle.std.specs.Prelude.{◌≡◌, ◌≤◌, length, map, All, IfOk};
ghost use Rattle.std.specs.List.Sorted.{IsStrictlyIncreasing};
ghost use Rattle.tele_steal.specs.Runs.{IsNewLane, IsRunLane};

use crate::stealing::run_stolen;
use crate::yards::Yard;
use ist_core::Port;
use std::alloc::{AllocError, Global};
use std::sync::Wait;
use std::thread::Threads;
use tele_lanes::{Gate, Lane, run_lanes};

/// How many lanes a team can steal from one another.
const MOST_LANES: u32 = 64;

/// Runs the lanes and hands them back in their order. Each has a thread of its own, or with `steal`
/// as many workers steal the lanes from one another.
///
/// A lane makes the calls of its tasks in order, until one is refused. Fails only if memory runs
/// out, and only with `steal`.
pub fn run_team<R: Threads + Wait + Sync, P: Port + Send + Drop, G: Gate + Sync>(
    rt: &R,
    gate: &G,
    alloc: Global,
    lanes: Vec<Lane<P>>,
    workers: u32,
    steal: bool,
) -> Result<Vec<Lane<P>>, AllocError>
    requires numbers { IsStrictlyIncreasing (map (λ l. l.number) lanes.items) }
    requires few { length lanes.items ≤ MOST_LANES }
    requires fresh { All (IsNewLane P.calls P.refused) lanes.items }
    requires some { 1 ≤ workers }
    requires at_most { workers ≤ 64 }

    // Each lane is handed back once, at its own place.
    ensures tasks { IfOk result (λ v.
        map (λ l. l.tasks) v.items ≡ map (λ l. l.tasks) lanes.items) }
    ensures ties { IfOk result (λ v.
        map (λ l. P.tie l.port) v.items ≡ map (λ l. P.tie l.port) lanes.items) }

    // Each made the calls of its first tasks, and stops only if its port refuses the next.
    ensures ran { IfOk result (λ v. All (IsRunLane P.calls P.refused) v.items) }
{
    if steal {
        let mut yard = Yard::with_room(alloc, workers, MOST_LANES)?;
        Ok(run_stolen(rt, gate, &mut yard, lanes))
    } else {
        Ok(run_apart(rt, gate, lanes))
    }
}

// Runs the lanes side by side, each on a thread of its own, and hands them back.
fn run_apart<R: Threads + Wait + Sync, P: Port + Send, G: Gate + Sync>(
    rt: &R,
    gate: &G,
    lanes: Vec<Lane<P>>,
) -> Vec<Lane<P>>
    requires fresh { All (IsNewLane P.calls P.refused) lanes.items }
    ensures tasks { map (λ l. l.tasks) result.items ≡ map (λ l. l.tasks) lanes.items }
    ensures ties { map (λ l. P.tie l.port) result.items
        ≡ map (λ l. P.tie l.port) lanes.items }
    ensures ran { All (IsRunLane P.calls P.refused) result.items }
{
    let mut lanes = lanes;
    run_lanes(rt, gate, &mut lanes);
    lanes
}
