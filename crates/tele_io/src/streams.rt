//! A source over a reader of std, and a sink over a writer of std.
ghost use Rattle.std.specs.Prelude.{◌≡◌, ◌<◌, ◌≤◌, [], length, take, is_err, if◌then◌else◌, IsOk, IfOk, OnErr, IfErr};
ghost use Rattle.tele_io.specs.Bytes.{HaveRisen, GivesBytes, Appends, Keeps, raised};
ghost use Rattle.tele_io.specs.Streams.{reader_of, read_faults, writer_of, write_faults};

use super::sinks::{Sink, SinkFault};
use super::sources::{Failed, Source};
use std::io::{ErrorKind, Read, Write};

/// Gives what a reader gives. A read that a signal interrupts is repeated, as std's own loops do.
/// Each other `Err` of the reader is a fault, and is not retried.
///
/// Its bytes are known if the reader's are: those of a reader over memory are, those of a file or a
/// pipe aren't.
#[derive(Drop)]
pub struct ReadSource<R> {
    reader: R,
    faults: u64,
}

impl<R: Read> ReadSource<R> {
    /// Makes a source over this reader, with no fault so far.
    pub fn new(reader: R) -> ReadSource<R>
        ensures reader { reader_of result ≡ reader }
        ensures faults { read_faults result ≡ 0 }
    {
        ReadSource { reader, faults: 0 }
    }
}

impl<R: Read> Source for ReadSource<R> {
    ghost left = { λ s. R.remaining (reader_of s) };

    ghost faults = { read_faults };

    fn read(&mut self, buf: &mut [u8]) -> Result<usize, Failed>
        requires { 0 < length buf.old }

        ensures within { IfOk result (λ n. n ≤ length buf.new) }
        ensures given { IfOk result (λ n.
            GivesBytes (R.remaining (reader_of self.old)) (R.remaining (reader_of self.new)) n buf.new) }

        ensures failed { OnErr result (HaveRisen (read_faults self.old) (read_faults self.new)) }
        ensures kept { OnErr result
            (Keeps (R.remaining (reader_of self.old)) (R.remaining (reader_of self.new))) }

        ensures counted { read_faults self.old ≤ read_faults self.new }
        ensures faults { read_faults self.new
            ≡ (if is_err result then raised (read_faults self.old) else read_faults self.old) }
    {
        let given = read_on(&mut self.reader, buf);
        if given.is_err() {
            self.faults = self.faults.saturating_add(1);
        }
        given
    }
}

// One read, repeated if a signal interrupts it.
#[tactic(auto, using(crate::proofs::KeepsLemmas::keeps_keeps, crate::proofs::KeepsLemmas::keeps_gives))]
fn read_on<R: Read>(reader: &mut R, buf: &mut [u8]) -> Result<usize, Failed>
    requires { 0 < length buf.old }

    ensures within { IfOk result (λ n. n ≤ length buf.new) }
    ensures given { IfOk result
        (λ n. GivesBytes (R.remaining reader.old) (R.remaining reader.new) n buf.new) }

    ensures kept { OnErr result (Keeps (R.remaining reader.old) (R.remaining reader.new)) }
{
    for _ in 0..u64::MAX {
        match reader.read(buf) {
            Ok(n) => return Ok(n),
            Err(e) => {
                if e.kind() != ErrorKind::Interrupted {
                    return Err(Failed);
                }
            }
        }
    }
    Err(Failed)
}

/// Passes bytes on to a writer. A write that a signal interrupts is repeated, as std's own loops
/// do. Each other `Err` of the writer is a fault, and so is a write that takes no byte; neither is
/// retried.
///
/// Its bytes are known if the writer's are: those of a writer over memory are, those of a file or a
/// pipe aren't. It keeps no byte back and flushes nothing: std's standard output has no buffer, and
/// whoever passes in a writer that has one must flush it.
#[derive(Drop)]
pub struct WriteSink<W> {
    writer: W,
    faults: u64,
}

impl<W: Write> WriteSink<W> {
    /// Makes a sink over this writer, with no fault so far.
    pub fn new(writer: W) -> WriteSink<W>
        ensures writer { writer_of result ≡ writer }
        ensures faults { write_faults result ≡ 0 }
    {
        WriteSink { writer, faults: 0 }
    }
}

impl<W: Write> Sink for WriteSink<W> {
    ghost written = { λ s. W.contents (writer_of s) };

    ghost held = { λ _. [] };

    ghost faults = { write_faults };

    fn write(&mut self, bytes: &[u8]) -> Result<usize, SinkFault>
        requires { 0 < length bytes.now }

        ensures some { IfOk result (λ n. (0 < n) × (n ≤ length bytes.now)) }
        ensures taken { IfOk result (λ n. Appends (W.contents (writer_of self.old))
            (W.contents (writer_of self.new)) (take n bytes.now)) }

        ensures failed { OnErr result (HaveRisen (write_faults self.old) (write_faults self.new)) }
        ensures kept { OnErr result
            (Keeps (W.contents (writer_of self.old)) (W.contents (writer_of self.new))) }

        ensures counted { write_faults self.old ≤ write_faults self.new }
        ensures faults { write_faults self.new
            ≡ (if is_err result then raised (write_faults self.old) else write_faults self.old) }
        ensures only_failed { IfErr result (λ fault. fault ≡ SinkFault.Failed) }
    {
        let taken = write_on(&mut self.writer, bytes);
        if taken.is_err() {
            self.faults = self.faults.saturating_add(1);
        }
        taken
    }

    fn pass_on(&mut self) -> Result<(), SinkFault>
        ensures never { IsOk result }
        ensures unchanged { self.new ≡ self.old }
    {
        Ok(())
    }
}

// One write, repeated if a signal interrupts it.
#[tactic(auto, using(crate::proofs::KeepsLemmas::keeps_keeps, crate::proofs::KeepsLemmas::keeps_appends))]
fn write_on<W: Write>(writer: &mut W, bytes: &[u8]) -> Result<usize, SinkFault>
    requires { 0 < length bytes.now }

    ensures some { IfOk result (λ n. (0 < n) × (n ≤ length bytes.now)) }
    ensures taken { IfOk result
        (λ n. Appends (W.contents writer.old) (W.contents writer.new) (take n bytes.now)) }

    ensures kept { OnErr result (Keeps (W.contents writer.old) (W.contents writer.new)) }
    ensures only_failed { IfErr result (λ fault. fault ≡ SinkFault.Failed) }
{
    for _ in 0..u64::MAX {
        match writer.write(bytes) {
            Ok(n) if 0 < n => return Ok(n),
            Ok(_) => return Err(SinkFault::Failed),
            Err(e) => {
                if e.kind() != ErrorKind::Interrupted {
                    return Err(SinkFault::Failed);
                }
            }
        }
    }
    Err(SinkFault::Failed)
}
