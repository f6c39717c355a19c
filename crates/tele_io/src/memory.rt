//! A source and a sink in memory that fail at given calls.
ghost use Rattle.std.specs.Prelude.{◌≡◌, ◌<◌, ◌≤◌, ◌↔◌, min, [], ◌++◌, length, take, drop, Some, IsTrue, IsErr, IsOk, IfOk, OnOk, OnErr, IsErrOf};
ghost use Rattle.tele_io.specs.Bytes.{HaveRisen};
ghost use Rattle.tele_io.specs.Objects.{Supply, Store, schedule_of, fails_next, after_call};

use super::calls::Calls;
use super::quiet::{QuietSink, QuietSource};
use super::sinks::{Sink, SinkFault};
use super::sources::{Failed, Source};
use std::alloc::Global;
use std::marker::Model;

/// Gives the bytes of a vector piece by piece, and fails at given reads.
///
/// Clauses see a `Supply`: the bytes that are left, the length of a piece, and the schedule of
/// its reads.
#[derive(Drop)]
pub struct MemorySource {
    bytes: QuietSource,
    piece: usize,
    calls: Calls,
}

impl Model for MemorySource {
    ghost Value = { Supply };

    ghost view = { λ s. record { left = s.bytes; piece = s.piece; schedule = s.calls } };

    ghost invariant = { λ s. 0 < s.piece };
}

impl MemorySource {
    /// Makes a source of these bytes that gives at most `piece` of them per read. The reads whose
    /// numbers, counted from 0, are in `fails` fail.
    pub fn new(bytes: Vec<u8>, piece: usize, fails: Vec<u64>) -> MemorySource
        requires { 0 < piece }
        ensures bytes { result.left ≡ bytes.items }
        ensures piece { result.piece ≡ piece }
        ensures schedule { result.schedule ≡ schedule_of fails.items }
    {
        MemorySource {
            bytes: QuietSource::new(bytes),
            piece,
            calls: Calls::new(fails),
        }
    }
}

impl Source for MemorySource {
    ghost left = { λ s. Some s.left };

    ghost faults = { λ s. s.schedule.faults };

    fn read(&mut self, buf: &mut [u8]) -> Result<usize, Failed>
        ensures fails { IsErr result ↔ IsTrue (fails_next self.old.schedule) }
        ensures schedule { self.new.schedule ≡ after_call self.old.schedule }
        ensures piece { self.new.piece ≡ self.old.piece }
        ensures some { 0 < self.new.piece }

        ensures count { IfOk result
            (λ n. n ≡ min (length self.old.left) (min (length buf.old) self.old.piece)) }
        ensures bytes { IfOk result (λ n. buf.new ≡ take n self.old.left ++ drop n buf.old) }
        ensures others { IfOk result (λ n. self.new.left ≡ drop n self.old.left) }

        ensures failed { OnErr result
            (HaveRisen self.old.schedule.faults self.new.schedule.faults) }
        ensures kept { OnErr result (self.new.left ≡ self.old.left) }
        ensures counted { self.old.schedule.faults ≤ self.new.schedule.faults }
    {
        if self.calls.next_fails() {
            return Err(Failed);
        }
        Ok(self.bytes.give(buf, self.piece))
    }
}

/// Keeps the bytes that it takes, and fails at given writes.
///
/// Clauses see a `Store`: the bytes that were taken, and the schedule of its writes.
#[derive(Drop)]
pub struct MemorySink {
    bytes: QuietSink,
    calls: Calls,
}

impl Model for MemorySink {
    ghost Value = { Store };

    ghost view = { λ s. record { taken = s.bytes; schedule = s.calls } };
}

impl MemorySink {
    /// Makes a sink that took no byte and allocates from `alloc`. The writes whose numbers, counted
    /// from 0, are in `fails` fail. Each other write takes its whole piece, or runs out of memory.
    pub fn new(alloc: Global, fails: Vec<u64>) -> MemorySink
        ensures bytes { result.taken ≡ [] }
        ensures schedule { result.schedule ≡ schedule_of fails.items }
    {
        MemorySink {
            bytes: QuietSink::new(alloc),
            calls: Calls::new(fails),
        }
    }

    /// Returns the bytes that were taken, in order.
    pub fn bytes(&self) -> &[u8]
        ensures { result.now ≡ self.now.taken }
    {
        self.bytes.bytes()
    }
}

impl Sink for MemorySink {
    ghost written = { λ s. Some s.taken };

    ghost held = { λ _. [] };

    ghost faults = { λ s. s.schedule.faults };

    fn write(&mut self, bytes: &[u8]) -> Result<usize, SinkFault>
        ensures fails { IsErrOf result SinkFault.Failed ↔ IsTrue (fails_next self.old.schedule) }
        ensures schedule { self.new.schedule ≡ after_call self.old.schedule }

        ensures whole { IfOk result (λ n. n ≡ length bytes.now) }
        ensures bytes { OnOk result (self.new.taken ≡ self.old.taken ++ bytes.now) }

        ensures failed { IsErrOf result SinkFault.Failed
            → HaveRisen self.old.schedule.faults self.new.schedule.faults }
        ensures kept { OnErr result (self.new.taken ≡ self.old.taken) }
        ensures counted { self.old.schedule.faults ≤ self.new.schedule.faults }
    {
        if self.calls.next_fails() {
            return Err(SinkFault::Failed);
        }
        self.bytes.write(bytes)
    }

    fn pass_on(&mut self) -> Result<(), SinkFault>
        ensures never { IsOk result }
        ensures unchanged { self.new ≡ self.old }
    {
        Ok(())
    }
}
