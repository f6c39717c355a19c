//! Whether frozen trees show what threads wrote at one moment.

use crate::misfits::Misfit;
use crate::orders::Order;
use crate::telling::{Asked, Told};
use ist_core::Pair;
use std::alloc::Global;
use std::collections::HashMap;

// For each key of a frozen tree, the position of its value.
type Moment = HashMap<u64, (u64, u64)>;

fn moment_of(alloc: Global, order: &Order, pairs: &[Pair]) -> Result<Moment, Misfit> {
    let mut moment = HashMap::new(alloc);
    for pair in pairs {
        let Pair { key, value } = *pair;
        match order.position(key, value) {
            Some(position) => moment.insert(key, position)?,
            None => return Err(Misfit::NeverThere { key, value }),
        };
    }
    Ok(moment)
}

// Returns whether the frozen tree shows what the call changed, if it has a value for the key.
fn shows(order: &Order, moment: &Moment, told: Told) -> Option<bool> {
    let key = told.asked.key();
    let shown = *moment.get(&key)?;
    match told.asked {
        Asked::Put(_, value) => Some(order.position(key, value)? <= shown),
        Asked::Remove(_) => {
            let (life, at) = order.position(key, told.reply?)?;
            Some((life, at.wrapping_add(1)) <= shown)
        }
        Asked::Find(_) => None,
    }
}

// Checks a frozen tree against what one thread did: of its changes, those that are shown came
// first.
fn judge_cut(order: &Order, moment: &Moment, told: &[Told]) -> Result<(), Misfit> {
    let mut missed = false;
    for one in told {
        match shows(order, moment, *one) {
            Some(true) => {
                if missed {
                    return Err(Misfit::Torn {
                        key: one.asked.key(),
                    });
                }
            }
            Some(false) => missed = true,
            None => {}
        }
    }
    Ok(())
}

// Checks two frozen trees: one of them shows no later value at any key than the other does.
fn judge_two(one: &Moment, two: &Moment) -> Result<(), Misfit> {
    let mut earlier = false;
    let mut later = false;
    for (key, position) in one.iter() {
        if let Some(other) = two.get(key) {
            earlier = earlier || *position < *other;
            later = later || *other < *position;
        }
        if earlier && later {
            return Err(Misfit::Crossed);
        }
    }
    Ok(())
}

/// Checks frozen trees, each by its pairs, if each key was removed by only one thread: of each
/// thread's changes, those that a tree shows came first; and of two trees one shows all that the
/// other does.
pub fn judge_moments(
    alloc: Global,
    order: &Order,
    threads: &[Vec<Told>],
    frozen: &[Vec<Pair>],
) -> Result<(), Misfit> {
    let mut moments = Vec::new(alloc);
    for pairs in frozen.iter() {
        let moment = moment_of(alloc, order, pairs)?;
        for told in threads.iter() {
            judge_cut(order, &moment, told)?;
        }
        for other in moments.iter() {
            judge_two(&moment, other)?;
        }
        moments.push(moment)?;
    }
    Ok(())
}
