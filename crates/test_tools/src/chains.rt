//! The values of each key in the order in which it had them, by what the calls found.

use crate::misfits::Misfit;
use crate::telling::{Asked, Told};
use ist_core::Pair;
use std::alloc::Global;
use std::collections::{HashMap, HashSet};

/// Where a value was: at which place of which life of its key, both counted from 0.
///
/// A life of a key goes from the opening, or from a put that found nothing, to the remove of its last
/// value, or to the close.
#[derive(Clone, Copy, Debug, PartialEq, Eq, Drop)]
pub(crate) struct Place {
    pub key: u64,
    pub life: usize,
    pub at: u64,
}

#[derive(Clone, Copy, Drop)]
struct Life {
    key: u64,
    opens: bool,
    left: bool,
}

// What followed a value of the key: another value, or `None` for its remove.
#[derive(Clone, Copy, Drop)]
struct Next {
    key: u64,
    value: Option<u64>,
}

/// The lives of all keys, if each value was written once.
#[derive(Drop)]
pub(crate) struct Chains {
    places: HashMap<u64, Place>,
    lives: Vec<Life>,
    // The keys of lives that go from the opening to the close.
    lasting: HashSet<u64>,
}

// Returns what followed a value, by this call: the value, and what followed.
fn next_by(told: Told) -> Option<(u64, Next)> {
    let found = told.reply?;
    match told.asked {
        Asked::Put(key, value) => Some((
            found,
            Next {
                key,
                value: Some(value),
            },
        )),
        Asked::Remove(key) => Some((found, Next { key, value: None })),
        Asked::Find(_) => None,
    }
}

// Returns what followed each value that was replaced or removed.
fn all_next(alloc: Global, threads: &[Vec<Told>]) -> Result<HashMap<u64, Next>, Misfit> {
    let mut all = HashMap::new(alloc);
    for told in threads.iter() {
        for one in told.iter() {
            if let Some((value, next)) = next_by(*one) {
                if all.insert(value, next)?.is_some() {
                    return Err(Misfit::ReplacedTwice { value });
                }
            }
        }
    }
    Ok(all)
}

impl Chains {
    /// Builds the lives of the keys, from the opening pairs on, from the threads' calls and
    /// replies.
    pub(crate) fn new(
        alloc: Global,
        opening: &[Pair],
        threads: &[Vec<Told>],
    ) -> Result<Chains, Misfit> {
        let all = all_next(alloc, threads)?;
        let mut chains = Chains {
            places: HashMap::new(alloc),
            lives: Vec::new(alloc),
            lasting: HashSet::new(alloc),
        };
        let mut followed: u64 = 0;
        for first in opening {
            followed = chains.live(&all, *first, true)?.wrapping_add(followed);
        }
        for told in threads.iter() {
            followed = chains.live_each(&all, told)?.wrapping_add(followed);
        }
        if followed != all.len() as u64 {
            return Err(Misfit::OutOfReach);
        }
        Ok(chains)
    }

    // Adds the lives that the thread's puts began. Returns how many of their values had a next one.
    fn live_each(&mut self, all: &HashMap<u64, Next>, told: &[Told]) -> Result<u64, Misfit> {
        let mut followed: u64 = 0;
        for one in told {
            if let Asked::Put(key, value) = one.asked {
                if one.reply.is_none() {
                    followed = self
                        .live(all, Pair { key, value }, false)?
                        .wrapping_add(followed);
                }
            }
        }
        Ok(followed)
    }

    // Adds the life that begins with this pair. Returns how many of its values had a next one.
    fn live(&mut self, all: &HashMap<u64, Next>, first: Pair, opens: bool) -> Result<u64, Misfit> {
        let Pair { key, value } = first;
        let life = self.lives.len();
        let mut value = value;
        let mut left = true;
        let mut followed: u64 = 0;
        for at in 0..u64::MAX {
            if self
                .places
                .insert(value, Place { key, life, at })?
                .is_some()
            {
                return Err(Misfit::WrittenTwice { value });
            }
            let Some(next) = all.get(&value) else {
                break;
            };
            if next.key != key {
                return Err(Misfit::NeverThere {
                    key: next.key,
                    value,
                });
            }
            followed = followed.wrapping_add(1);
            match next.value {
                Some(later) => value = later,
                None => {
                    left = false;
                    break;
                }
            }
        }
        if opens && left {
            self.lasting.insert(key)?;
        }
        self.lives.push(Life { key, opens, left })?;
        Ok(followed)
    }

    /// Returns the number of lives.
    pub(crate) fn count(&self) -> usize {
        self.lives.len()
    }

    /// Returns the place of the value, if this key had it.
    pub(crate) fn place(&self, key: u64, value: u64) -> Option<Place> {
        let place = *self.places.get(&value)?;
        if place.key == key { Some(place) } else { None }
    }

    /// Returns the key of this life.
    pub(crate) fn key(&self, life: usize) -> u64 {
        self.lives.get(life).map_or(0, |known| known.key)
    }

    /// Returns whether this life began at the opening.
    pub(crate) fn opens(&self, life: usize) -> bool {
        self.lives.get(life).is_some_and(|known| known.opens)
    }

    /// Returns whether the value of this life was left at the close.
    pub(crate) fn is_left(&self, life: usize) -> bool {
        self.lives.get(life).is_some_and(|known| known.left)
    }

    /// Returns whether the key had a value from the opening to the close.
    pub(crate) fn lasts(&self, key: u64) -> bool {
        self.lasting.contains(&key)
    }

    // Returns whether the value of the key was the last of a life that was left at the close.
    fn is_last(&self, all: &HashMap<u64, Next>, pair: Pair) -> bool {
        match self.place(pair.key, pair.value) {
            Some(place) => self.is_left(place.life) && !all.contains_key(&pair.value),
            None => false,
        }
    }

    /// Checks the pairs at the close: they must be the last values of the lives that were left.
    pub(crate) fn judge_close(
        &self,
        alloc: Global,
        threads: &[Vec<Told>],
        closing: &[Pair],
    ) -> Result<(), Misfit> {
        let all = all_next(alloc, threads)?;
        let left = self.lives.iter().filter(|life| life.left).count();
        if left != closing.len() || !closing.iter().all(|pair| self.is_last(&all, *pair)) {
            return Err(Misfit::NotAtClose);
        }
        Ok(())
    }
}
