//! A thread that is measured: calls that are drawn, by a pass of its own.
ghost use Rattle.std.specs.Prelude.{◌≡◌, ◌≤◌};

use crate::plans::Plan;
use ist_live::{at_least, list_live};
use ist_tree::{Holds, Pass, Tree};
use std::alloc::Global;
use test_tools::{Draws, Kind};

/// One thread's calls on a tree.
#[derive(Drop)]
pub(crate) struct Worker {
    pub pass: Pass,
    pub plan: Plan,
    alloc: Global,
    draws: Draws,
    /// How many values were found, and how many calls were refused.
    pub found: u64,
    pub refused: u64,
}

impl Worker {
    /// The worker with this number.
    pub(crate) fn new(alloc: Global, pass: Pass, plan: Plan, number: u64) -> Worker
        ensures pass { result.pass ≡ pass }
        ensures plan { result.plan ≡ plan }
    {
        Worker {
            pass,
            plan,
            alloc,
            draws: Draws::for_thread(plan.seed, number),
            found: 0,
            refused: 0,
        }
    }

    // Reads the key, or what lies from it on. Gives how many values it found.
    fn read(&mut self, tree: &Tree, key: u64) -> u64
        requires same_tree { self.old.pass.tree ≡ tree.now }
        ensures same_tree { self.new.pass.tree ≡ tree.now }
        ensures plan { self.new.plan ≡ self.old.plan }
    {
        match self.plan.width {
            0 => u64::from(tree.find(&mut self.pass, key).is_some()),
            1 => u64::from(at_least(tree, &mut self.pass, key).is_some()),
            width => {
                let last = key.saturating_add(width - 1);
                match list_live(self.alloc, tree, &mut self.pass, key, last) {
                    Ok(pairs) => pairs.len() as u64,
                    Err(_) => 0,
                }
            }
        }
    }

    // Makes the next call.
    fn step(&mut self, tree: &Tree)
        requires same_tree { self.old.pass.tree ≡ tree.now }
        requires some { 1 ≤ self.old.plan.span }
        ensures same_tree { self.new.pass.tree ≡ tree.now }
        ensures plan { self.new.plan ≡ self.old.plan }
    {
        let all = self.plan.shares.all();
        let drawn = self.draws.below(all.max(1));
        let number = self.draws.below(self.plan.span);
        let key = self.plan.spread.key(number);
        let answer = match self.plan.shares.kind_at(drawn) {
            Kind::Put => {
                if self.plan.expects {
                    tree.put_if(&mut self.pass, key, Some(number), number)
                } else {
                    tree.put(&mut self.pass, key, number)
                }
            }
            Kind::Remove => tree.remove(&mut self.pass, key),
            _ => {
                let found = self.read(tree, key);
                self.found = self.found.wrapping_add(found);
                return;
            }
        };
        match answer {
            Ok(Some(_)) => self.found = self.found.wrapping_add(1),
            Ok(None) => {}
            Err(_) => self.refused = self.refused.wrapping_add(1),
        }
    }

    /// Puts the keys of the opening, one after another. It isn't measured.
    pub(crate) fn grow(&mut self, tree: &Tree)
        requires same_tree { self.old.pass.tree ≡ tree.now }
        ensures same_tree { self.new.pass.tree ≡ tree.now }
        ensures plan { self.new.plan ≡ self.old.plan }
    {
        for number in 0..self.plan.keys {
            let key = self.plan.spread.key(number);
            match tree.put(&mut self.pass, key, number) {
                Ok(_) => {}
                Err(_) => self.refused = self.refused.wrapping_add(1),
            }
        }
    }

    /// Makes all its calls.
    pub(crate) fn work(&mut self, tree: &Tree)
        requires same_tree { self.old.pass.tree ≡ tree.now }
        requires some { 1 ≤ self.old.plan.span }
        ensures same_tree { self.new.pass.tree ≡ tree.now }
        ensures plan { self.new.plan ≡ self.old.plan }
    {
        for _ in 0..self.plan.calls {
            self.step(tree);
        }
    }
}

impl Holds<Worker> for Worker {
    ghost pass = { λ w. w.pass };

    fn into_pass(holder: Worker) -> Pass {
        let Worker { pass, .. } = holder;
        pass
    }
}
