//! How much time went by, and how much of it the processors worked for this program.

use std::rt::Files;
use std::time::{Clock, Instant};
use std::{fs, io};

/// How many nanoseconds a tick of the system's account of processor time has.
const TICK: u64 = 10_000_000;

/// A moment, by both clocks.
#[derive(Clone, Copy, Drop)]
pub(crate) struct Moment {
    at: Instant,
    ticks: u64,
}

/// Nanoseconds between two moments.
#[derive(Clone, Copy, Drop)]
pub(crate) struct Spent {
    pub elapsed: u64,
    /// Of all threads, the system's share too.
    pub processor: u64,
}

/// The ticks in a line of `/proc/self/stat`: its fields 14 and 15. Field 2, which is in brackets, may have blanks.
pub(crate) fn ticks_in(line: &str) -> Option<u64> {
    let (_, following) = line.rsplit_once(')')?;
    let mut fields = following.split_whitespace().skip(11);
    let own = fields.next()?.parse::<u64>().ok()?;
    let system = fields.next()?.parse::<u64>().ok()?;
    own.checked_add(system)
}

impl Moment {
    /// This moment.
    pub(crate) fn now<R: Files + Clock + AllocGlobal>(rt: &R) -> io::Result<Moment> {
        let line = fs::read_to_string(rt, "/proc/self/stat")?;
        Ok(Moment {
            at: Instant::now(rt)?,
            ticks: ticks_in(line.as_str()).unwrap_or(0),
        })
    }

    /// What was spent since.
    pub(crate) fn spent<R: Files + Clock + AllocGlobal>(&self, rt: &R) -> io::Result<Spent> {
        let elapsed = self.at.elapsed(rt)?;
        let line = fs::read_to_string(rt, "/proc/self/stat")?;
        let ticks = ticks_in(line.as_str()).unwrap_or(0);
        Ok(Spent {
            elapsed: u64::try_from(elapsed.as_nanos()).unwrap_or(u64::MAX),
            processor: ticks.saturating_sub(self.ticks).saturating_mul(TICK),
        })
    }
}
