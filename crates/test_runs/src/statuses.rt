//! A run of each status that bytes, arguments, reads and writes can lead to.

use crate::judging::same;
use crate::running::run_by;
use std::alloc::{AllocError, Global};
use std::process::Abort;
use std::sync::Wait;
use std::thread::Threads;
use tele_generations::NoShelf;
use tele_io::{MemorySink, MemorySource};
use tele_lanes::NoGate;

// The numbers of a read and of a write that fail, if one is to.
type Failing = (Option<u64>, Option<u64>);

const NONE: Failing = (None, None);

const FIRST_READ: Failing = (Some(0), None);

// The number as a list, or none.
fn listed(alloc: Global, number: Option<u64>) -> Result<Vec<u64>, AllocError> {
    let mut list = Vec::new(alloc);
    if let Some(number) = number {
        list.push(number)?;
    }
    Ok(list)
}

// Runs over the input, which comes in one piece, with these arguments after the program's name. Returns whether it wrote
// this text, and its status.
fn run_failing<R: Threads + Wait + Sync>(
    rt: &R,
    alloc: Global,
    more: &[&str],
    input: &[u8],
    failing: Failing,
    text: &[u8],
) -> Result<(bool, u8), AllocError> {
    let fails = listed(alloc, failing.0)?;
    let mut source = MemorySource::new(input.to_vec(alloc)?, 1_000, fails);
    let mut out = MemorySink::new(alloc, listed(alloc, failing.1)?);
    let shelf = &mut NoShelf;
    let outcome = run_by(rt, alloc, more, &mut source, &mut out, &NoGate, shelf)?;
    Ok((out.bytes() == text, outcome.status))
}

// Fails unless the run writes this text, and ends with this status.
fn ends<R: Threads + Wait + Sync + Abort>(
    rt: &R,
    alloc: Global,
    more: &[&str],
    input: &[u8],
    failing: Failing,
    text: &[u8],
    status: u8,
) {
    let seen = run_failing(rt, alloc, more, input, failing, text);
    same(rt, &seen, &Ok((true, status)), status);
}

const FIVE: &[u8] = b"P 5 7\nP 5 9\nG 5\nR 5\nG 5";

const REPLIES: &[u8] = b"1 -\n2 7\n3 9\n4 9\n5 -\n";

const MADE: &[u8] = b"made 2 keys 2 found 0 sum 74222\n";

const USAGE: &[u8] = b"! usage\n";

#[test]
fn each_status_has_its_cause(rt: HostRuntime) {
    let alloc = rt.alloc();
    // the arguments, the input, what fails, the text that is written, the status
    ends(&rt, alloc, &[], b"", NONE, b"", 0);
    ends(&rt, alloc, &[], FIVE, NONE, REPLIES, 0);
    let make = ["--generate", "2", "--seed", "0"];
    ends(&rt, alloc, &make, b"X", FIRST_READ, MADE, 0);
    let no_workers = ["--workers", "0"];
    ends(&rt, alloc, &no_workers, FIVE, FIRST_READ, USAGE, 2);
    ends(&rt, alloc, &["x"], FIVE, FIRST_READ, USAGE, 2);
    let bad = b"P 1 1\nX 2\nP 3 3\n";
    ends(&rt, alloc, &[], bad, NONE, b"1 -\n! 2 letter\n", 3);
    let cut = b"P 1 1\nP 2";
    ends(&rt, alloc, &[], cut, (Some(1), None), b"", 4);
    ends(&rt, alloc, &[], cut, FIRST_READ, b"", 4);
    let two = b"P 1 1\nP 2 2\n";
    ends(&rt, alloc, &[], two, (None, Some(1)), b"1 -\n", 5);
    ends(&rt, alloc, &no_workers, b"", (None, Some(0)), b"", 5);
}
