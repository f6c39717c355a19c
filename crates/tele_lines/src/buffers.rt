//! The bytes between a source and the lines that are cut from them.
ghost use Rattle.std.specs.Prelude.{◌≡◌, ◌+◌, ◌-◌, ◌<◌, ◌≤◌, [], length, take, drop, slice_range, IfOk, OnErr};
ghost use Rattle.tele_io.specs.Bytes.{HaveRisen, GivesBytes, Keeps};
ghost use Rattle.tele_lines.specs.Buffers.{Fills};

use std::marker::Model;
use tele_io::{Failed, Source};

/// How many bytes a buffer keeps at most.
pub(crate) const SIZE: usize = 4096;

/// Bytes that were taken from a source, in order: first in, first out.
#[derive(Drop)]
pub(crate) struct Buffer {
    bytes: [u8; SIZE],
    start: usize,
    end: usize,
}

impl Model for Buffer {
    ghost use Rattle.std.specs.Prelude.{ℕ, List, ◌≤◌, slice_range};
    ghost use Rattle.tele_lines.specs.declared.buffers.TheConstants.{SIZE};

    ghost Value = { List ℕ };

    ghost view = { λ b. slice_range b.bytes b.start b.end };

    ghost invariant = { λ b. (b.start ≤ b.end) × (b.end ≤ SIZE) };
}

/// Moves the bytes from `start` to `end` to the front.
fn to_front(bytes: &mut [u8], start: usize, end: usize)
    requires ordered { start ≤ end }
    requires within { end ≤ length bytes.old }
    ensures moved { take (end - start) bytes.new ≡ slice_range bytes.old start end }
{
    bytes.copy_within(start..end, 0);
}

/// Reads some bytes into the space after the first `end`.
fn read_after<S: Source>(bytes: &mut [u8], end: usize, source: &mut S) -> Result<usize, Failed>
    requires room { end < length bytes.old }

    ensures front { take end bytes.new ≡ take end bytes.old }
    ensures within { IfOk result (λ n. end + n ≤ length bytes.new) }
    ensures given { IfOk result
        (λ n. GivesBytes (S.left source.old) (S.left source.new) n (drop end bytes.new)) }

    ensures failed { OnErr result (HaveRisen (S.faults source.old) (S.faults source.new)) }
    ensures kept { OnErr result (Keeps (S.left source.old) (S.left source.new)) }

    ensures counted { S.faults source.old ≤ S.faults source.new }
{
    source.read(&mut bytes[end..])
}

impl Buffer {
    /// Makes a buffer with no byte.
    pub(crate) fn new() -> Self
        ensures empty { result ≡ [] }
    {
        Buffer {
            bytes: [0; SIZE],
            start: 0,
            end: 0,
        }
    }

    /// Returns the bytes that are kept.
    pub(crate) fn bytes(&self) -> &[u8]
        ensures value { result.now ≡ self.now }
        ensures short { length self.now ≤ SIZE }
    {
        &self.bytes[self.start..self.end]
    }

    /// Removes the first `count` bytes.
    pub(crate) fn skip(&mut self, count: usize)
        requires within { count ≤ length self.old }
        ensures rest { self.new ≡ drop count self.old }
    {
        self.start += count;
    }

    /// Takes more bytes from the source, and returns how many. Zero means the end of the input.
    pub(crate) fn fill<S: Source>(&mut self, source: &mut S) -> Result<usize, Failed>
        requires room { length self.old < SIZE }

        ensures filled { IfOk result (λ n.
            Fills (S.left source.old) (S.left source.new) self.old self.new n) }
        ensures few { IfOk result (λ n. n ≤ SIZE) }

        ensures failed { OnErr result (HaveRisen (S.faults source.old) (S.faults source.new)) }
        ensures kept { OnErr result (self.new ≡ self.old) }
        ensures left { OnErr result (Keeps (S.left source.old) (S.left source.new)) }

        ensures counted { S.faults source.old ≤ S.faults source.new }
    {
        to_front(&mut self.bytes, self.start, self.end);
        self.end -= self.start;
        self.start = 0;
        let count = read_after(&mut self.bytes, self.end, source)?;
        self.end += count;
        Ok(count)
    }
}
