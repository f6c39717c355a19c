//! Whether each thread saw the lives of each key in order.

use crate::chains::{Chains, Place};
use crate::misfits::Misfit;
use crate::telling::{Asked, Told};
use ist_core::Pair;
use std::alloc::{AllocError, Global};

/// The lives of all keys, in an order in which each thread saw them.
#[derive(Drop)]
pub struct Order {
    chains: Chains,
    // The number of each life in that order.
    ranks: Vec<u64>,
}

/// For each life of a key, the lives that a thread saw after it.
type Following = Vec<Vec<usize>>;

// What a thread has seen of a key: the last value, and whether it has been gone since.
#[derive(Clone, Copy, Drop)]
struct KeySeen {
    key: u64,
    last: Option<Place>,
    gone: bool,
}

impl KeySeen {
    fn nothing_of(key: u64) -> KeySeen {
        KeySeen {
            key,
            last: None,
            gone: false,
        }
    }

    // The thread finds nothing.
    fn miss(&mut self, chains: &Chains) -> Result<(), Misfit> {
        let is_left = match self.last {
            Some(last) => chains.is_left(last.life),
            None => false,
        };
        if is_left || chains.lasts(self.key) {
            return Err(Misfit::NotFound { key: self.key });
        }
        self.gone = true;
        Ok(())
    }

    // Returns whether the thread may find the value at this place, which must be at least `further`
    // places after the last.
    fn may_meet(&self, chains: &Chains, place: Place, further: u64) -> bool {
        match self.last {
            Some(last) => {
                if last.life == place.life {
                    !self.gone && last.at.saturating_add(further) <= place.at
                } else {
                    !chains.is_left(last.life) && !chains.opens(place.life)
                }
            }
            None => !self.gone || !chains.opens(place.life),
        }
    }

    // The thread finds the value; with `further` 1 it writes it.
    fn meet(
        &mut self,
        chains: &Chains,
        value: u64,
        further: u64,
        following: &mut Following,
    ) -> Result<(), Misfit> {
        let key = self.key;
        let Some(place) = chains.place(key, value) else {
            return Err(Misfit::NeverThere { key, value });
        };
        if !self.may_meet(chains, place, further) {
            return Err(Misfit::OutOfOrder { key, value });
        }
        if let Some(last) = self.last {
            if last.life != place.life {
                if let Some(lives) = following.get_mut(last.life) {
                    lives.push(place.life)?;
                }
            }
        }
        self.last = Some(place);
        self.gone = false;
        Ok(())
    }

    // The thread gets this reply.
    fn hear(
        &mut self,
        chains: &Chains,
        told: Told,
        following: &mut Following,
    ) -> Result<(), Misfit> {
        match (told.asked, told.reply) {
            (Asked::Put(_, value), Some(_)) => self.meet(chains, value, 1, following),
            (Asked::Put(_, value), None) => {
                self.miss(chains)?;
                self.meet(chains, value, 1, following)
            }
            (Asked::Remove(_), Some(value)) => {
                self.meet(chains, value, 0, following)?;
                self.gone = true;
                Ok(())
            }
            (Asked::Find(_), Some(value)) => self.meet(chains, value, 0, following),
            (Asked::Remove(_), None) => self.miss(chains),
            (Asked::Find(_), None) => self.miss(chains),
        }
    }
}

// Checks the calls and replies of one thread, key by key.
fn judge_thread(
    alloc: Global,
    chains: &Chains,
    told: &[Told],
    following: &mut Following,
) -> Result<(), Misfit> {
    let mut told = told.to_vec(alloc)?;
    told.sort_by_key(|one| one.asked.key())?;
    let mut seen = KeySeen::nothing_of(0);
    for one in told.iter() {
        let key = one.asked.key();
        if key != seen.key {
            seen = KeySeen::nothing_of(key);
        }
        seen.hear(chains, *one, following)?;
    }
    Ok(())
}

// For each life, how many lives precede it.
fn counts_before(alloc: Global, following: &Following) -> Result<Vec<u64>, AllocError> {
    let mut counts = vec![in alloc; 0u64; following.len()]?;
    for lives in following.iter() {
        for life in lives.iter() {
            if let Some(count) = counts.get_mut(*life) {
                *count = count.wrapping_add(1);
            }
        }
    }
    Ok(counts)
}

// Removes a life before each of these. Adds to `next` those that no other then precedes.
fn take_away(
    lives: &[usize],
    counts: &mut Vec<u64>,
    next: &mut Vec<usize>,
) -> Result<(), AllocError> {
    for life in lives {
        if let Some(count) = counts.get_mut(*life) {
            *count = count.wrapping_sub(1);
            if *count == 0 {
                next.push(*life)?;
            }
        }
    }
    Ok(())
}

// Returns the number of each life in an order that puts each after the lives that precede it.
fn rank(alloc: Global, following: &Following) -> Result<Vec<u64>, Misfit> {
    let mut counts = counts_before(alloc, following)?;
    let mut next = Vec::new(alloc);
    for (life, count) in counts.iter().enumerate() {
        if *count == 0 {
            next.push(life)?;
        }
    }
    let mut ranks = vec![in alloc; 0u64; following.len()]?;
    let mut ranked: u64 = 0;
    for number in 0..following.len() as u64 {
        let Some(life) = next.pop() else {
            break;
        };
        if let Some(rank) = ranks.get_mut(life) {
            *rank = number;
        }
        if let Some(lives) = following.get(life) {
            take_away(lives, &mut counts, &mut next)?;
        }
        ranked = number + 1;
    }
    if ranked != following.len() as u64 {
        return Err(Misfit::Around);
    }
    Ok(ranks)
}

impl Order {
    /// Returns an order of all calls of the threads, between the opening and the close, that fits
    /// their replies, or why there is none. For each key the calls that changed it form one chain,
    /// in which each thread's calls come in its order; and what a thread found comes no earlier
    /// than what it had seen before.
    pub fn of(
        alloc: Global,
        opening: &[Pair],
        threads: &[Vec<Told>],
        closing: &[Pair],
    ) -> Result<Order, Misfit> {
        let chains = Chains::new(alloc, opening, threads)?;
        chains.judge_close(alloc, threads, closing)?;
        let mut following = Vec::new(alloc);
        for _ in 0..chains.count() {
            following.push(Vec::new(alloc))?;
        }
        for told in threads.iter() {
            judge_thread(alloc, &chains, told, &mut following)?;
        }
        let ranks = rank(alloc, &following)?;
        Ok(Order { chains, ranks })
    }

    /// Returns the lives of all keys.
    pub(crate) fn chains(&self) -> &Chains {
        &self.chains
    }

    /// Returns the position of the value at the key: the number of its life, and its place in it.
    pub(crate) fn position(&self, key: u64, value: u64) -> Option<(u64, u64)> {
        let place = self.chains.place(key, value)?;
        let rank = self.ranks.get(place.life)?;
        Some((*rank, place.at))
    }
}
