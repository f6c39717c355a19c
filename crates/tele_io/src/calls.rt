//! Which calls of an object will fail.
ghost use Rattle.std.specs.Prelude.{◌≡◌, ◌≤◌, IsTrue};
ghost use Rattle.tele_io.specs.Bytes.{HaveRisen};
ghost use Rattle.tele_io.specs.Objects.{Schedule, schedule_of, fails_next, after_call};

use std::marker::Model;

/// Numbers the calls of an object, and knows which of them will fail.
#[derive(Drop)]
pub struct Calls {
    fails: Vec<u64>,
    next: u64,
    faults: u64,
}

impl Model for Calls {
    ghost Value = { Schedule };

    ghost view = { λ c. record { call = c.next; fails = c.fails.items; faults = c.faults } };
}

impl Calls {
    /// Makes a schedule whose first call is still to come.
    pub fn new(fails: Vec<u64>) -> Calls
        ensures { result ≡ schedule_of fails.items }
    {
        Calls {
            fails,
            next: 0,
            faults: 0,
        }
    }

    /// Counts the next call, and returns whether it must fail.
    pub fn next_fails(&mut self) -> bool
        ensures value { result ≡ fails_next self.old }
        ensures after { self.new ≡ after_call self.old }
        ensures risen { IsTrue result → HaveRisen self.old.faults self.new.faults }
        ensures counted { self.old.faults ≤ self.new.faults }
    {
        let fails = self.fails.contains(&self.next);
        self.next = self.next.saturating_add(1);
        if fails {
            self.faults = self.faults.saturating_add(1);
        }
        fails
    }
}
