//! Whether the replies that threads got fit an order that keeps real time.

use crate::chains::Chains;
use crate::misfits::Misfit;
use crate::orders::Order;
use crate::telling::{Asked, Told};
use std::alloc::{AllocError, Global};
use std::sync::atomic::{AtomicU64, Ordering};

/// A clock that threads share.
///
/// All its steps are in one order. So one call ended before another began exactly if its `ended` is less
/// than the other's `began`.
#[derive(Drop)]
pub struct Clock {
    ended: AtomicU64,
}

/// When a call began and when it ended.
#[derive(Clone, Copy, Debug, PartialEq, Eq, Drop)]
pub struct When {
    pub began: u64,
    pub ended: u64,
}

/// A call, its reply, and when it was made.
#[derive(Clone, Copy, Debug, PartialEq, Eq, Drop)]
pub struct Timed {
    pub told: Told,
    pub when: When,
}

impl Clock {
    /// A clock by which no call has ended.
    pub fn new() -> Clock {
        Clock {
            ended: AtomicU64::new(1),
        }
    }

    /// Returns the time at which a call begins.
    pub fn begin(&self) -> u64 {
        self.ended.load(Ordering::SeqCst).wrapping_mul(2)
    }

    /// Ends a call that began at this time.
    pub fn end(&self, began: u64) -> When {
        let ended = self.ended.fetch_add(1, Ordering::SeqCst);
        When {
            began,
            ended: ended.wrapping_mul(2).wrapping_add(1),
        }
    }
}

// The step of a life at which a call was: each value is written at an even one and found at the next, and
// a remove is at the one after that.
#[derive(Clone, Copy, Drop)]
struct Step {
    life: usize,
    at: u64,
}

// A call that begins, or one that ends, at a step of its key.
#[derive(Clone, Copy, Drop)]
struct Turn {
    time: u64,
    ends: bool,
    key: u64,
    step: Step,
}

// When a life was there, or a call that found nothing: a call of it had ended at `first`, and one that
// began at `last` was still to come.
#[derive(Clone, Copy, Drop)]
struct Zone {
    key: u64,
    first: u64,
    last: u64,
}

// Returns the step of the call, or `None` if it found nothing and wrote nothing.
fn step_of(chains: &Chains, told: Told) -> Option<Step> {
    let (value, further) = match (told.asked, told.reply) {
        (Asked::Put(_, value), _) => (value, 0),
        (Asked::Find(_), Some(value)) => (value, 1),
        (Asked::Remove(_), Some(value)) => (value, 2),
        _ => return None,
    };
    let place = chains.place(told.asked.key(), value)?;
    Some(Step {
        life: place.life,
        at: place.at.wrapping_mul(2).wrapping_add(further),
    })
}

// Returns the zones of all lives, without their calls: a life from the opening has begun before all
// calls, and one that is left is there after them.
fn zones_of(alloc: Global, chains: &Chains) -> Result<Vec<Zone>, AllocError> {
    let mut zones = Vec::new(alloc);
    for life in 0..chains.count() {
        zones.push(Zone {
            key: chains.key(life),
            first: if chains.opens(life) { 0 } else { u64::MAX },
            last: if chains.is_left(life) { u64::MAX } else { 0 },
        })?;
    }
    Ok(zones)
}

// Adds a call: to the turns and to the zone of its life, or as a zone of its own if it has no step.
fn add(
    chains: &Chains,
    call: Timed,
    turns: &mut Vec<Turn>,
    zones: &mut Vec<Zone>,
) -> Result<(), AllocError> {
    let When { began, ended } = call.when;
    let key = call.told.asked.key();
    let Some(step) = step_of(chains, call.told) else {
        return Ok(zones.push(Zone {
            key,
            first: ended,
            last: began,
        })?);
    };
    for (time, ends) in [(began, false), (ended, true)] {
        turns.push(Turn {
            time,
            ends,
            key,
            step,
        })?;
    }
    if let Some(zone) = zones.get_mut(step.life) {
        zone.first = zone.first.min(ended);
        zone.last = zone.last.max(began);
    }
    Ok(())
}

// Checks the turns in the order of time: no call of a life is at an earlier step than one that ended
// before it began.
fn judge_steps(alloc: Global, lives: usize, turns: &mut Vec<Turn>) -> Result<(), Misfit> {
    turns.sort_by_key(|turn| turn.time)?;
    let mut reached = vec![in alloc; 0u64; lives]?;
    for turn in turns.iter() {
        if let Some(reached) = reached.get_mut(turn.step.life) {
            if turn.ends {
                *reached = turn.step.at.max(*reached);
            } else if turn.step.at < *reached {
                return Err(Misfit::Stale { key: turn.key });
            }
        }
    }
    Ok(())
}

// Checks the zones key by key: of two lives, or a life and a call that found nothing, none is both before
// and after the other. That is so if their times overlap, or those of one are within the other's.
//
// Source: Gibbons and Korach, "Testing shared memories", SIAM Journal on Computing 1997.
fn judge_zones(zones: &mut Vec<Zone>) -> Result<(), Misfit> {
    zones.sort_by_key(|zone| (zone.key, zone.first.min(zone.last)))?;
    let (mut key, mut until) = (0, 0);
    for zone in zones.iter() {
        if zone.key != key {
            key = zone.key;
            until = 0;
        }
        if zone.first < until {
            return Err(Misfit::Stale { key });
        }
        if zone.first < zone.last {
            until = zone.last;
        }
    }
    Ok(())
}

impl Order {
    /// Checks the calls of the threads, which have this order, with their times: for each key there is
    /// an order of its calls that fits their replies, in which each call that ended before another began
    /// comes before that.
    pub fn judge_times(&self, alloc: Global, threads: &[Vec<Timed>]) -> Result<(), Misfit> {
        let chains = self.chains();
        let mut turns = Vec::new(alloc);
        let mut zones = zones_of(alloc, chains)?;
        for calls in threads.iter() {
            for call in calls.iter() {
                add(chains, *call, &mut turns, &mut zones)?;
            }
        }
        judge_steps(alloc, chains.count(), &mut turns)?;
        judge_zones(&mut zones)
    }
}
