//! Runs whose workers steal lanes from one another.

use crate::judging::same;
use crate::meetings::{callers, see_meeting};
use crate::running::{Ran, has_pairs, run_over};
use ist_core::Pair;
use std::alloc::{AllocError, Global};
use std::sync::Wait;
use std::sync::atomic::{AtomicU64, Ordering};
use std::thread::Threads;
use tele_generations::NoShelf;
use tele_lanes::{Gate, NoGate};

// Returns whether the run wrote the output, its status, how many callers its last tree had, and
// whether that tree has these pairs.
fn see_last(
    alloc: Global,
    ran: &Ran,
    output: &[u8],
    pairs: &[Pair],
) -> Result<(bool, u8, Option<u64>, bool), AllocError> {
    let last = ran.outcome.last.as_ref();
    let has = has_pairs(alloc, last, pairs)?;
    Ok((
        ran.out.bytes() == output,
        ran.outcome.status,
        last.map(callers),
        has,
    ))
}

// Does the same for a run by two workers, with this option.
fn see_run<R: Threads + Wait + Sync>(
    rt: &R,
    alloc: Global,
    steal: &str,
) -> Result<(bool, u8, Option<u64>, bool), AllocError> {
    let more = ["--workers", "2", steal];
    let input = b"P 2 1\nP 3 1\nP 2 5\nG 2\nI 0 9\n";
    let output = b"1 -\n2 -\n3 1\n4 5\n5 2\n2 5\n3 1\n";
    let pairs = [Pair { key: 2, value: 5 }, Pair { key: 3, value: 1 }];
    let ran = run_over(rt, alloc, &more, input, &NoGate, &mut NoShelf)?;
    see_last(alloc, &ran, output, &pairs)
}

#[test]
fn stealing_shows_in_the_number_of_callers_alone(rt: HostRuntime) {
    let own = see_run(&rt, rt.alloc(), "--steal=0");
    same(&rt, &own, &Ok((true, 0, Some(2), true)), "no stealing");
    let stolen = see_run(&rt, rt.alloc(), "--steal=1");
    same(&rt, &stolen, &Ok((true, 0, Some(64), true)), "stealing");
}

#[test]
fn two_stolen_lanes_run_beside_each_other(rt: HostRuntime) {
    let (input, output) = (b"P 64 1\nP 1 1\n", b"1 -\n2 -\n");
    // with two workers both arrive, and with one only the second finds that the other has arrived
    let two = ["--workers", "2", "--steal", "1"];
    let both = see_meeting(&rt, rt.alloc(), &two, 100_000_000, input, output);
    same(&rt, &both, &Ok((true, 0, (1, 1, 0))), "two workers");
    let one = ["--workers", "1", "--steal", "1"];
    let alone = see_meeting(&rt, rt.alloc(), &one, 1_000, input, output);
    same(&rt, &alone, &Ok((true, 0, (1, 1, 1))), "one worker");
}

/// Sums up 2 to the number of the lane of each call.
#[derive(Drop)]
struct Named {
    lanes: AtomicU64,
}

impl Gate for Named {
    fn before(&self, lane: u32, index: u64) {
        if lane < 64 {
            self.lanes.fetch_add(1u64 << lane, Ordering::SeqCst);
        }
    }

    fn after(&self, lane: u32, index: u64) {}
}

// Returns whether the run over the input by three workers wrote the output, and the sum for its
// lanes.
fn sum_lanes<R: Threads + Wait + Sync>(
    rt: &R,
    alloc: Global,
    input: &[u8],
    output: &[u8],
) -> Result<(bool, u64), AllocError> {
    let gate = Named {
        lanes: AtomicU64::new(0),
    };
    let more = ["--workers", "3", "--steal", "1"];
    let ran = run_over(rt, alloc, &more, input, &gate, &mut NoShelf)?;
    Ok((ran.out.bytes() == output, gate.lanes.load(Ordering::SeqCst)))
}

#[test]
fn the_gate_is_told_of_lanes_by_timestamp_modulo_64(rt: HostRuntime) {
    let input = b"P 640 1\nP 69 1\nG 127\n";
    let seen = sum_lanes(&rt, rt.alloc(), input, b"1 -\n2 -\n3 -\n");
    // lanes 0, 5 and 63
    let sum = 1 + (1u64 << 5) + (1u64 << 63);
    same(&rt, &seen, &Ok((true, sum)), "the lanes");
}
