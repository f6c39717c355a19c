//! Inputs of many lines, with what one thread with a map replies to them.
ghost use Rattle.std.specs.Prelude.{None};

use crate::judging::same;
use crate::running::run_over;
use ist_rest::Closed;
use std::alloc::{AllocError, Global};
use std::sync::Wait;
use std::thread::Threads;
use tele_generations::Shelf;
use tele_lanes::NoGate;

/// The seconds of a day.
const DAY: u64 = 86_400;

/// The second at which the day begins.
const START: u64 = 1_700_000_000;

/// A shelf that counts the trees that it is given.
#[derive(Drop)]
struct Counted {
    given: u64,
}

impl Shelf<Closed> for Counted {
    ghost kept = { λ _. None };

    fn keep(&mut self, closed: Closed) {
        self.given = self.given.wrapping_add(1);
    }
}

// Appends a line of this number, between these words, for each number from `first` to the one before `end`.
fn add_lines(
    alloc: Global,
    bytes: &mut Vec<u8>,
    before: &str,
    first: u64,
    end: u64,
    after: &str,
) -> Result<(), AllocError> {
    for number in first..end {
        let text = format!(in alloc; "{before}{number} {after}\n")?;
        bytes.extend_from_slice(text.as_bytes())?;
    }
    Ok(())
}

/// A reading for each second of the day, followed by an interval line for all.
fn readings(alloc: Global) -> Result<Vec<u8>, AllocError> {
    let mut input = Vec::new(alloc);
    add_lines(alloc, &mut input, "P ", START, START + DAY, "20")?;
    add_lines(alloc, &mut input, "I ", START, START + 1, "1700086399")?;
    Ok(input)
}

/// The output for the readings: no line found a value, and the interval has all.
fn answers(alloc: Global) -> Result<Vec<u8>, AllocError> {
    let mut output = Vec::new(alloc);
    add_lines(alloc, &mut output, "", 1, DAY + 1, "-")?;
    add_lines(alloc, &mut output, "", DAY + 1, DAY + 2, "86400")?;
    add_lines(alloc, &mut output, "", START, START + DAY, "20")?;
    Ok(output)
}

/// Of a run, whether it wrote the output, its status, how many trees of its last round ran full, and whether it has a
/// last tree; and how many trees were given to the shelf.
type DayRun = ((bool, u8, u64, bool), u64);

// Runs over the readings.
fn run_day<R: Threads + Wait + Sync>(rt: &R, alloc: Global) -> Result<DayRun, AllocError> {
    let input = readings(alloc)?;
    let mut shelf = Counted { given: 0 };
    let ran = run_over(rt, alloc, &[], &input, &NoGate, &mut shelf)?;
    let output = answers(alloc)?;
    let wrote = ran.out.bytes() == output.as_slice();
    let ended = (
        wrote,
        ran.outcome.status,
        ran.outcome.fulls,
        ran.outcome.last.is_some(),
    );
    Ok((ended, shelf.given))
}

#[test]
fn a_day_of_readings_takes_six_trees(rt: HostRuntime) {
    // 86,400 lines are five rounds of 16,384 and one of 4,480; the last tree isn't given away
    let wanted = ((true, 0, 0, true), 5);
    same(&rt, &run_day(&rt, rt.alloc()), &Ok(wanted), "the day");
}
