//! A sink that holds bytes back, so that they reach its inner sink in few writes.
ghost use Rattle.std.specs.Prelude.{◌≡◌, ℕ, ◌≤◌, List, [], ◌++◌, length, Some, vec_len, if◌then◌else◌, OnOk, IsErrOf};
ghost use Rattle.tele_io.specs.Bytes.{HaveRisen, AppendsPart, Keeps};

use super::sinks::{Sink, SinkFault};
use super::whole::write_out;
use std::alloc::Global;

/// The most bytes that are held back.
pub const HELD_LIMIT: usize = 65_536;

/// Holds back at most 65,536 bytes. It passes them on to another sink when `pass_on` is called, or
/// when more bytes arrive than it may hold.
///
/// The bytes that it took are those that its inner sink took, followed by those that it holds. If
/// there is no memory to hold bytes in, they are passed on at once; running out of memory here is
/// no error.
#[derive(Drop)]
pub struct BufferedSink<O> {
    inner: O,
    bytes: Vec<u8>,
    from: usize,
    ghost within: { from ≤ vec_len bytes },
    ghost few: { vec_len bytes ≤ 65536 },
}

impl<O: Sink> BufferedSink<O> {
    ghost use Rattle.tele_io.specs.Buffers.{sink_of, bytes_in, with_held};

    /// Makes a sink over `inner` that holds nothing and allocates from `alloc`.
    pub fn new(inner: O, alloc: Global) -> BufferedSink<O>
        ensures inner { sink_of result ≡ inner }
        ensures none { bytes_in result ≡ [] }
    {
        BufferedSink {
            inner,
            bytes: Vec::new(alloc),
            from: 0,
        }
    }

    /// Returns the inner sink. If its bytes are known and were none at the start, they are a prefix
    /// of each text of which a prefix was taken.
    pub fn inner(&self) -> &O
        ensures value { result.now ≡ sink_of self.now }
        ensures passed { (text : List ℕ) →
            AppendsPart (Some []) (with_held (O.written (sink_of self.now)) (bytes_in self.now)) text →
            AppendsPart (Some []) (O.written result.now) text }
    {
        &self.inner
    }

    /// Returns the bytes that are held back, in order.
    pub fn held(&self) -> &[u8]
        ensures value { result.now ≡ bytes_in self.now }
        ensures few { length result.now ≤ HELD_LIMIT }
    {
        &self.bytes[self.from..]
    }

    /// Writes the bytes that are held back to the inner sink, and keeps those that it doesn't take.
    fn pass_held(&mut self) -> Result<(), SinkFault>
        ensures none { OnOk result (bytes_in self.new ≡ []) }
        ensures kept { Keeps (with_held (O.written (sink_of self.old)) (bytes_in self.old))
            (with_held (O.written (sink_of self.new)) (bytes_in self.new)) }
        ensures failed { IsErrOf result SinkFault.Failed →
            HaveRisen (O.faults (sink_of self.old)) (O.faults (sink_of self.new)) }
        ensures counted { O.faults (sink_of self.old) ≤ O.faults (sink_of self.new) }
    {
        let (taken, passed) = write_out(&mut self.inner, &self.bytes[self.from..]);
        self.from += taken;
        if passed.is_ok() {
            self.bytes.clear();
            self.from = 0;
        }
        passed
    }
}

impl<O: Sink> Sink for BufferedSink<O> {
    ghost use Rattle.tele_io.specs.Buffers.{sink_of, bytes_in, with_held};

    ghost written = { λ s. with_held (O.written (sink_of s)) (bytes_in s) };

    ghost held = { λ s. O.held (sink_of s) ++ bytes_in s };

    ghost faults = { λ s. O.faults (sink_of s) };

    fn write(&mut self, bytes: &[u8]) -> Result<usize, SinkFault> {
        if hold(&mut self.bytes, bytes) {
            return Ok(bytes.len());
        }
        self.pass_held()?;
        if hold(&mut self.bytes, bytes) {
            return Ok(bytes.len());
        }
        self.inner.write(bytes)
    }

    fn pass_on(&mut self) -> Result<(), SinkFault> {
        self.pass_held()?;
        self.inner.pass_on()
    }
}

/// Appends bytes to those that are held back, if they fit and there is memory. Returns whether it
/// did.
fn hold(held: &mut Vec<u8>, bytes: &[u8]) -> bool
    requires few { vec_len held.old ≤ HELD_LIMIT }
    ensures few { vec_len held.new ≤ HELD_LIMIT }
    ensures value { held.new.items
        ≡ (if result then held.old.items ++ bytes.now else held.old.items) }
    ensures longer { vec_len held.old ≤ vec_len held.new }
{
    bytes.len() <= HELD_LIMIT - held.len() && held.extend_from_slice(bytes).is_ok()
}
