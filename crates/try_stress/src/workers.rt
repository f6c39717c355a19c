//! A thread of a run: calls that are drawn, by a pass of its own, and what it was told.
ghost use Rattle.std.specs.Prelude.{◌≡◌, ◌≤◌};
ghost use Rattle.ist_tree.specs.Freezing.{IsFrozenFor};

use crate::plans::Plan;
use ist_core::{Full, Pair, Reply};
use ist_live::{at_least, list_live};
use ist_tree::{Frozen, Holds, Pass, Tree};
use std::alloc::{AllocError, Global};
use test_tools::{Asked, Clock, Draws, Kind, Timed, Told, When};

/// How many keys a list reads at most.
const LISTED: u64 = 64;

/// How many calls were answered and refused.
#[derive(Clone, Copy, Drop)]
pub(crate) struct Tally {
    pub puts: u64,
    pub removes: u64,
    /// How many finds and ordered reads.
    pub finds: u64,
    pub freezes: u64,
    /// How many puts and removes were refused since too few words were left.
    pub refused: u64,
    /// How many freezes were.
    pub unfrozen: u64,
}

impl Tally {
    /// No call.
    pub(crate) fn none() -> Tally {
        Tally {
            puts: 0,
            removes: 0,
            finds: 0,
            freezes: 0,
            refused: 0,
            unfrozen: 0,
        }
    }

    /// These calls and the others.
    pub(crate) fn and(&self, other: &Tally) -> Tally {
        Tally {
            puts: self.puts.wrapping_add(other.puts),
            removes: self.removes.wrapping_add(other.removes),
            finds: self.finds.wrapping_add(other.finds),
            freezes: self.freezes.wrapping_add(other.freezes),
            refused: self.refused.wrapping_add(other.refused),
            unfrozen: self.unfrozen.wrapping_add(other.unfrozen),
        }
    }

    // One answered call more.
    fn count(&mut self, asked: Asked) {
        match asked {
            Asked::Put(..) => self.puts = self.puts.wrapping_add(1),
            Asked::Remove(_) => self.removes = self.removes.wrapping_add(1),
            Asked::Find(_) => self.finds = self.finds.wrapping_add(1),
        }
    }
}

/// One thread's calls on a tree.
#[derive(Drop)]
pub(crate) struct Worker {
    pub pass: Pass,
    pub plan: Plan,
    number: u64,
    draws: Draws,
    // How many values it has made up.
    made: u64,
    /// What it was told in the last round, in its order.
    pub told: Vec<Timed>,
    /// What became of its calls in all rounds.
    pub tally: Tally,
    /// Whether it had no memory left for what it was told.
    pub lacked_memory: bool,
}

// Makes the call by the pass.
fn call(tree: &Tree, pass: &mut Pass, asked: Asked) -> Result<Reply, Full>
    requires same_tree { pass.old.tree ≡ tree.now }
    ensures same_tree { pass.new.tree ≡ tree.now }
{
    match asked {
        Asked::Put(key, value) => tree.put(pass, key, value),
        Asked::Remove(key) => tree.remove(pass, key),
        Asked::Find(key) => Ok(tree.find(pass, key)),
    }
}

// Makes the update by the pass if the key still has the value that was found; otherwise finds what it has.
fn call_if(tree: &Tree, pass: &mut Pass, asked: Asked, found: Reply) -> Result<Reply, Full>
    requires same_tree { pass.old.tree ≡ tree.now }
    ensures same_tree { pass.new.tree ≡ tree.now }
{
    match (asked, found) {
        (Asked::Put(key, value), _) => tree.put_if(pass, key, found, value),
        (Asked::Remove(key), Some(value)) => tree.remove_if(pass, key, value),
        _ => Ok(tree.find(pass, asked.key())),
    }
}

// All pairs of the frozen tree, in their order.
fn frozen_pairs(
    alloc: Global,
    tree: &Tree,
    pass: &mut Pass,
    frozen: &Frozen,
) -> Result<Vec<Pair>, AllocError>
    requires same_tree { pass.old.tree ≡ tree.now }
    requires frozen { IsFrozenFor pass.old frozen.now }
    ensures same_tree { pass.new.tree ≡ tree.now }
{
    let mut pairs = Vec::new(alloc);
    for i in 0..frozen.keys {
        pairs.push(tree.frozen_pair(pass, frozen, i))?;
    }
    Ok(pairs)
}

// Adds a call that was made then.
fn tell(told: &mut Vec<Timed>, asked: Asked, reply: Reply, when: When) -> Result<(), AllocError> {
    told.push(Timed {
        told: Told { asked, reply },
        when,
    })?;
    Ok(())
}

// Adds what finds of the keys from one up to another would have been told that have no value.
fn tell_none(told: &mut Vec<Timed>, first: u64, end: u64, when: When) -> Result<(), AllocError> {
    for key in first..end {
        tell(told, Asked::Find(key), None, when)?;
    }
    Ok(())
}

// Adds what a find of each key from `first` to before `end` would have returned if the map has these pairs of
// them.
fn tell_pairs(
    told: &mut Vec<Timed>,
    pairs: &[Pair],
    first: u64,
    end: u64,
    when: When,
) -> Result<(), AllocError> {
    let mut next = first;
    for pair in pairs {
        let Pair { key, value } = *pair;
        tell_none(told, next, key.min(end), when)?;
        tell(told, Asked::Find(key), Some(value), when)?;
        next = key.saturating_add(1);
    }
    tell_none(told, next, end, when)
}

impl Worker {
    /// The worker with this number, which has made no call.
    pub(crate) fn new(alloc: Global, pass: Pass, plan: Plan, number: u64) -> Worker
        ensures pass { result.pass ≡ pass }
        ensures plan { result.plan ≡ plan }
    {
        Worker {
            pass,
            plan,
            number,
            draws: Draws::for_thread(plan.seed, number),
            made: 0,
            told: Vec::new(alloc),
            tally: Tally::none(),
            lacked_memory: false,
        }
    }

    // A value that no other put of the run has: the opening values are odd, and no two threads have one
    // number.
    fn new_value(&mut self) -> u64
        ensures pass { self.new.pass ≡ self.old.pass }
        ensures plan { self.new.plan ≡ self.old.plan }
    {
        self.made = self.made.wrapping_add(1);
        self.made
            .wrapping_mul(128)
            .wrapping_add(self.number.wrapping_mul(2))
    }

    // Makes a call, and keeps what it was told.
    fn ask(&mut self, tree: &Tree, clock: &Clock, asked: Asked) -> Result<(), AllocError>
        requires same_tree { self.old.pass.tree ≡ tree.now }
        ensures same_tree { self.new.pass.tree ≡ tree.now }
        ensures plan { self.new.plan ≡ self.old.plan }
    {
        let began = clock.begin();
        match call(tree, &mut self.pass, asked) {
            Ok(reply) => {
                let when = clock.end(began);
                self.tally.count(asked);
                tell(&mut self.told, asked, reply, when)?;
            }
            Err(_) => self.tally.refused = self.tally.refused.wrapping_add(1),
        }
        Ok(())
    }

    // Finds the key, and then makes the update if the key still has that value. Keeps both as the calls that they
    // are by their replies, and counts the second.
    fn ask_if(&mut self, tree: &Tree, clock: &Clock, asked: Asked) -> Result<(), AllocError>
        requires same_tree { self.old.pass.tree ≡ tree.now }
        ensures same_tree { self.new.pass.tree ≡ tree.now }
        ensures plan { self.new.plan ≡ self.old.plan }
    {
        let find = Asked::Find(asked.key());
        let began = clock.begin();
        let found = tree.find(&mut self.pass, asked.key());
        tell(&mut self.told, find, found, clock.end(began))?;
        let began = clock.begin();
        match call_if(tree, &mut self.pass, asked, found) {
            Ok(reply) => {
                let when = clock.end(began);
                let was = if reply == found { asked } else { find };
                self.tally.count(was);
                tell(&mut self.told, was, reply, when)?;
            }
            Err(_) => self.tally.refused = self.tally.refused.wrapping_add(1),
        }
        Ok(())
    }

    // Makes an update: each fourth one on condition, as the draws fall.
    fn update(&mut self, tree: &Tree, clock: &Clock, asked: Asked) -> Result<(), AllocError>
        requires same_tree { self.old.pass.tree ≡ tree.now }
        ensures same_tree { self.new.pass.tree ≡ tree.now }
        ensures plan { self.new.plan ≡ self.old.plan }
    {
        if self.draws.below(4) == 0 {
            self.ask_if(tree, clock, asked)
        } else {
            self.ask(tree, clock, asked)
        }
    }

    // Freezes the tree, and keeps what finds of all keys would have been told at that moment.
    fn freeze(&mut self, alloc: Global, tree: &Tree, clock: &Clock) -> Result<(), AllocError>
        requires same_tree { self.old.pass.tree ≡ tree.now }
        ensures same_tree { self.new.pass.tree ≡ tree.now }
        ensures plan { self.new.plan ≡ self.old.plan }
    {
        let began = clock.begin();
        match tree.freeze(&mut self.pass) {
            Ok(frozen) => {
                let when = clock.end(began);
                let pairs = frozen_pairs(alloc, tree, &mut self.pass, &frozen)?;
                self.tally.freezes = self.tally.freezes.wrapping_add(1);
                tell_pairs(&mut self.told, pairs.as_slice(), 0, self.plan.span, when)?;
            }
            Err(_) => self.tally.unfrozen = self.tally.unfrozen.wrapping_add(1),
        }
        Ok(())
    }

    // Lists the pairs of some keys from this one on, and keeps what finds of these keys would have been told, in
    // their order.
    fn list(
        &mut self,
        alloc: Global,
        tree: &Tree,
        clock: &Clock,
        key: u64,
    ) -> Result<(), AllocError>
        requires same_tree { self.old.pass.tree ≡ tree.now }
        ensures same_tree { self.new.pass.tree ≡ tree.now }
        ensures plan { self.new.plan ≡ self.old.plan }
    {
        let drawn = self.draws.below(LISTED);
        let end = key
            .saturating_add(drawn)
            .saturating_add(1)
            .min(self.plan.span);
        let last = end.saturating_sub(1);
        let began = clock.begin();
        let pairs = list_live(alloc, tree, &mut self.pass, key, last)?;
        let when = clock.end(began);
        self.tally.finds = self.tally.finds.wrapping_add(1);
        tell_pairs(&mut self.told, pairs.as_slice(), key, end, when)
    }

    // Reads the next pair from this key on, and keeps what finds of the keys up to it would have been told.
    fn next(&mut self, tree: &Tree, clock: &Clock, key: u64) -> Result<(), AllocError>
        requires same_tree { self.old.pass.tree ≡ tree.now }
        ensures same_tree { self.new.pass.tree ≡ tree.now }
        ensures plan { self.new.plan ≡ self.old.plan }
    {
        let began = clock.begin();
        let pair = at_least(tree, &mut self.pass, key);
        let when = clock.end(began);
        self.tally.finds = self.tally.finds.wrapping_add(1);
        match pair {
            Some(pair) => {
                let end = pair.key.saturating_add(1);
                tell_pairs(&mut self.told, &[pair], key, end, when)
            }
            None => tell_none(&mut self.told, key, self.plan.span, when),
        }
    }

    // Reads the key: each eighth time as a list from it on, and each eighth time as the next pair, as the draws
    // fall.
    fn read(
        &mut self,
        alloc: Global,
        tree: &Tree,
        clock: &Clock,
        key: u64,
    ) -> Result<(), AllocError>
        requires same_tree { self.old.pass.tree ≡ tree.now }
        ensures same_tree { self.new.pass.tree ≡ tree.now }
        ensures plan { self.new.plan ≡ self.old.plan }
    {
        match self.draws.below(8) {
            0 => self.list(alloc, tree, clock, key),
            1 => self.next(tree, clock, key),
            _ => self.ask(tree, clock, Asked::Find(key)),
        }
    }

    // Makes the next call.
    fn step(&mut self, alloc: Global, tree: &Tree, clock: &Clock) -> Result<(), AllocError>
        requires same_tree { self.old.pass.tree ≡ tree.now }
        requires some { 1 ≤ self.old.plan.span }
        ensures same_tree { self.new.pass.tree ≡ tree.now }
        ensures plan { self.new.plan ≡ self.old.plan }
    {
        let all = self.plan.shares.all();
        let number = self.draws.below(all.max(1));
        let key = self.draws.below(self.plan.span);
        match self.plan.shares.kind_at(number) {
            Kind::Put => {
                let value = self.new_value();
                self.update(tree, clock, Asked::Put(key, value))
            }
            Kind::Remove => self.update(tree, clock, Asked::Remove(key)),
            Kind::Find => self.read(alloc, tree, clock, key),
            Kind::Freeze => self.freeze(alloc, tree, clock),
        }
    }

    /// Makes the calls of a round, with times by the clock.
    pub(crate) fn work(&mut self, alloc: Global, tree: &Tree, clock: &Clock)
        requires same_tree { self.old.pass.tree ≡ tree.now }
        requires some { 1 ≤ self.old.plan.span }
        ensures same_tree { self.new.pass.tree ≡ tree.now }
        ensures plan { self.new.plan ≡ self.old.plan }
    {
        self.told.clear();
        for _ in 0..self.plan.calls {
            if self.step(alloc, tree, clock).is_err() {
                self.lacked_memory = true;
            }
        }
    }
}

impl Holds<Worker> for Worker {
    ghost pass = { λ w. w.pass };

    fn into_pass(holder: Worker) -> Pass {
        let Worker { pass, .. } = holder;
        pass
    }
}
