//! A source and a sink in memory that have no faults.
ghost use Rattle.std.specs.Prelude.{◌≡◌, ℕ, ◌≤◌, min, List, [], ◌++◌, length, take, drop, Ok, Some, vec_len, IsOk, IfOk, OnOk, OnErr, IfErr};

use super::sinks::{Sink, SinkFault};
use super::sources::{Failed, Source};
use std::alloc::Global;
use std::marker::Model;

/// Gives the bytes of a vector, as many per read as fit, and never fails.
///
/// Clauses see the list of the bytes that are left.
#[derive(Drop)]
pub struct QuietSource {
    bytes: Vec<u8>,
    given: usize,
}

impl Model for QuietSource {
    ghost Value = { List ℕ };

    ghost view = { λ s. drop s.given s.bytes.items };

    ghost invariant = { λ s. s.given ≤ vec_len s.bytes };
}

impl QuietSource {
    /// Makes a source of these bytes.
    pub fn new(bytes: Vec<u8>) -> QuietSource
        ensures { result ≡ bytes.items }
    {
        QuietSource { bytes, given: 0 }
    }

    /// Gives as many bytes as are left, fit into `buf` and `most` allows, and returns how many.
    pub(super) fn give(&mut self, buf: &mut [u8], most: usize) -> usize
        ensures count { result ≡ min (length self.old) (min (length buf.old) most) }
        ensures bytes { buf.new ≡ take result self.old ++ drop result buf.old }
        ensures others { self.new ≡ drop result self.old }
    {
        let rest = &self.bytes[self.given..];
        let n = rest.len().min(buf.len().min(most));
        buf[..n].copy_from_slice(&rest[..n]);
        self.given += n;
        n
    }
}

impl Source for QuietSource {
    ghost left = { λ s. Some s };

    ghost faults = { λ _. 0 };

    fn read(&mut self, buf: &mut [u8]) -> Result<usize, Failed>
        ensures count { result ≡ Ok (min (length self.old) (length buf.old)) }
        ensures bytes { IfOk result (λ n. buf.new ≡ take n self.old ++ drop n buf.old) }
        ensures others { IfOk result (λ n. self.new ≡ drop n self.old) }
    {
        Ok(self.give(buf, buf.len()))
    }
}

/// Keeps the bytes that it takes, and fails to take a piece only if it is out of memory.
///
/// Clauses see the list of the bytes that were taken.
#[derive(Drop)]
pub struct QuietSink {
    bytes: Vec<u8>,
}

impl Model for QuietSink {
    ghost Value = { List ℕ };

    ghost view = { λ s. s.bytes.items };
}

impl QuietSink {
    /// Makes a sink that took no byte and allocates from `alloc`.
    pub fn new(alloc: Global) -> QuietSink
        ensures { result ≡ [] }
    {
        QuietSink {
            bytes: Vec::new(alloc),
        }
    }

    /// Returns the bytes that were taken, in order.
    pub fn bytes(&self) -> &[u8]
        ensures { result.now ≡ self.now }
    {
        self.bytes.as_slice()
    }
}

impl Sink for QuietSink {
    ghost written = { λ s. Some s };

    ghost held = { λ _. [] };

    ghost faults = { λ _. 0 };

    fn write(&mut self, bytes: &[u8]) -> Result<usize, SinkFault>
        ensures whole { IfOk result (λ n. n ≡ length bytes.now) }
        ensures bytes { OnOk result (self.new ≡ self.old ++ bytes.now) }
        ensures unchanged { OnErr result (self.new ≡ self.old) }
        ensures only_memory { IfErr result (λ fault. fault ≡ SinkFault.Memory) }
    {
        match self.bytes.extend_from_slice(bytes) {
            Ok(()) => Ok(bytes.len()),
            Err(_) => Err(SinkFault::Memory),
        }
    }

    fn pass_on(&mut self) -> Result<(), SinkFault>
        ensures never { IsOk result }
        ensures unchanged { self.new ≡ self.old }
    {
        Ok(())
    }
}
