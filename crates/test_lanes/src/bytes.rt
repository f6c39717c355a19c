//! Sources and sinks of bytes, call by call, with reads and writes that fail.
ghost use Rattle.std.specs.Prelude.{◌<◌, length};

use crate::judging::same;
use std::alloc::{AllocError, Global};
use std::fs::File;
use std::io::{Cursor, Error, ErrorKind, Read, Result as IoResult, Write};
use std::test::Fail;
use tele_io::{
    BufferedSink, Failed, MemorySink, MemorySource, QuietSink, QuietSource, ReadSource, Sink,
    SinkFault, Source, WriteSink, write_whole,
};

// The answers to some reads, each with the buffer after it.
type Reads<'a> = &'a [(Result<usize, Failed>, &'a [u8])];

// Returns the number of the first of these reads that returns something else than expected, or
// leaves other bytes in the buffer.
fn first_other_read<S: Source>(source: &mut S, buf: &mut [u8], reads: Reads<'_>) -> Option<usize>
    requires some { 0 < length buf.old }
{
    for (i, (answer, bytes)) in reads.iter().enumerate() {
        if source.read(buf) != *answer || &*buf != *bytes {
            return Some(i);
        }
    }
    None
}

// The same for a quiet source of five bytes.
fn read_quiet(alloc: Global, reads: Reads<'_>) -> Result<Option<usize>, AllocError> {
    let mut source = QuietSource::new(b"abcde".to_vec(alloc)?);
    Ok(first_other_read(&mut source, &mut [0u8; 3], reads))
}

#[test]
fn a_quiet_source_gives_its_bytes_and_then_none(rt: HostRuntime) {
    // how many bytes, the buffer after the read
    let reads: [(Result<usize, Failed>, &[u8]); 3] = [
        (Ok(3), b"abc"),
        (Ok(2), b"dec"),
        (Ok(0), b"dec"),
    ];
    let other = read_quiet(rt.alloc(), &reads);
    same(&rt, &other, &Ok(None), "the reads");
}

// Some pieces, the answer to the write of each, and what the sink holds after it.
type Writes<'a> = &'a [(&'a [u8], Result<(), SinkFault>, &'a [u8])];

// Returns the number of the first of these writes that returns something else than expected, or
// leaves other bytes in the sink.
fn first_other_write(sink: &mut MemorySink, writes: Writes<'_>) -> Option<usize> {
    for (i, (piece, answer, bytes)) in writes.iter().enumerate() {
        if write_whole(sink, *piece) != *answer || sink.bytes() != *bytes {
            return Some(i);
        }
    }
    None
}

// Are all these pieces written?
fn writes_all(sink: &mut QuietSink, pieces: &[&[u8]]) -> bool {
    for piece in pieces {
        if write_whole(sink, *piece) != Ok(()) {
            return false;
        }
    }
    true
}

#[test]
fn a_quiet_sink_keeps_what_is_written(rt: HostRuntime) {
    let mut sink = QuietSink::new(rt.alloc());
    let written = writes_all(&mut sink, &[b"ab".as_slice(), b"cd", b""]);
    same(
        &rt,
        &(written, sink.bytes()),
        &(true, b"abcd".as_slice()),
        "the writes",
    );
}

// The same for a source of three bytes in pieces of two, whose first and third read fail.
fn read_failing(alloc: Global, reads: Reads<'_>) -> Result<Option<usize>, AllocError> {
    let fails = [0, 2].to_vec(alloc)?;
    let mut source = MemorySource::new(b"abc".to_vec(alloc)?, 2, fails);
    Ok(first_other_read(&mut source, &mut [b'-'; 4], reads))
}

#[test]
fn the_reads_with_the_named_numbers_fail(rt: HostRuntime) {
    // the answer, the buffer after the read
    let reads: [(Result<usize, Failed>, &[u8]); 5] = [
        (Err(Failed), b"----"),
        (Ok(2), b"ab--"),
        (Err(Failed), b"ab--"),
        (Ok(1), b"cb--"),
        (Ok(0), b"cb--"),
    ];
    let other = read_failing(rt.alloc(), &reads);
    same(&rt, &other, &Ok(None), "the reads");
}

// The same for a sink whose second write fails.
fn write_failing(alloc: Global, writes: Writes<'_>) -> Result<Option<usize>, AllocError> {
    let mut sink = MemorySink::new(alloc, [1].to_vec(alloc)?);
    Ok(first_other_write(&mut sink, writes))
}

#[test]
fn the_writes_with_the_named_numbers_fail(rt: HostRuntime) {
    // the piece, the answer, what the sink holds then
    let writes: [(&[u8], Result<(), SinkFault>, &[u8]); 3] = [
        (b"ab", Ok(()), b"ab"),
        (b"cd", Err(SinkFault::Failed), b"ab"),
        (b"ef", Ok(()), b"abef"),
    ];
    let other = write_failing(rt.alloc(), &writes);
    same(&rt, &other, &Ok(None), "the writes");
}

// The first read that goes another way than expected, of a reader of three bytes.
fn read_through(alloc: Global, reads: Reads<'_>) -> Result<Option<usize>, AllocError> {
    let mut source = ReadSource::new(Cursor::new(b"abc".to_vec(alloc)?));
    Ok(first_other_read(&mut source, &mut [0u8; 2], reads))
}

#[test]
fn a_reader_is_read_to_its_end(rt: HostRuntime) {
    let reads: [(Result<usize, Failed>, &[u8]); 3] = [
        (Ok(2), b"ab"),
        (Ok(1), b"cb"),
        (Ok(0), b"cb"),
    ];
    let other = read_through(rt.alloc(), &reads);
    same(&rt, &other, &Ok(None), "the reads");
}

// Writes these bytes through a sink over the writer.
fn write_through<W: Write + Drop>(writer: W, bytes: &[u8]) -> Result<(), SinkFault> {
    write_whole(&mut WriteSink::new(writer), bytes)
}

#[test]
fn a_writer_gets_what_is_written(rt: HostRuntime) {
    let mut out = Vec::new(rt.alloc());
    let written = write_through(&mut out, b"abc");
    same(
        &rt,
        &(written, out.as_slice()),
        &(Ok(()), b"abc".as_slice()),
        "the write",
    );
}

#[test]
fn a_writer_without_room_fails_after_what_fits(rt: HostRuntime) {
    let mut room = [b'-'; 3];
    let written = write_through(room.as_mut_slice(), b"abcde");
    same(
        &rt,
        &(written, &room),
        &(Err(SinkFault::Failed), b"abc"),
        "the write",
    );
}

#[test]
fn a_directory_can_neither_be_read_nor_written(rt: HostRuntime) -> Result<(), Fail> {
    let (to_read, to_write) = (File::open(&rt, ".")?, File::open(&rt, ".")?);
    let read = ReadSource::new(to_read).read(&mut [0u8; 8]);
    let written = WriteSink::new(to_write).write(b"abc");
    same(
        &rt,
        &(read, written),
        &(Err(Failed), Err(SinkFault::Failed)),
        "a directory",
    );
    Ok(())
}

// Writes this piece, and adds it to `taken` unless it should be refused. Returns whether it was
// refused, and whether the sink after and the held bytes together are `taken`.
fn write_piece(
    out: &mut BufferedSink<MemorySink>,
    taken: &mut Vec<u8>,
    piece: &[u8],
    refused: bool,
) -> Result<(bool, bool), AllocError> {
    let is_refused = write_whole(out, piece).is_err();
    if !refused {
        taken.extend_from_slice(piece)?;
    }
    let passed = out.inner().bytes();
    Ok((is_refused, taken.strip_prefix(passed) == Some(out.held())))
}

// Writes the piece of this number in the same way.
fn fill(
    alloc: Global,
    out: &mut BufferedSink<MemorySink>,
    taken: &mut Vec<u8>,
    number: u8,
    refused: bool,
) -> Result<(bool, bool), AllocError> {
    let piece = vec![in alloc; number; 40_000]?;
    write_piece(out, taken, &piece, refused)
}

// Writes five pieces, while the sink after refuses the write of this number. Returns the first
// piece that goes another way than expected.
fn first_other_piece(
    alloc: Global,
    out: &mut BufferedSink<MemorySink>,
    taken: &mut Vec<u8>,
    fails: u64,
) -> Result<Option<u8>, AllocError> {
    for number in 0..5u8 {
        let refused = fails.checked_add(1) == Some(u64::from(number));
        if fill(alloc, out, taken, number, refused)? != (refused, true) {
            return Ok(Some(number));
        }
    }
    Ok(None)
}

/// The first piece that goes another way than expected; whether passing on is refused, the result
/// of passing on again, and whether the sink after then has all that was taken.
type Buffered = (Option<u8>, bool, Result<(), SinkFault>, bool);

// Writes five pieces and passes them on, while the sink after refuses the write of this number.
fn see_buffer(
    alloc: Global,
    out: &mut BufferedSink<MemorySink>,
    taken: &mut Vec<u8>,
    fails: u64,
) -> Result<Buffered, AllocError> {
    let other = first_other_piece(alloc, out, taken, fails)?;
    let refused = out.pass_on().is_err();
    let answer = out.pass_on();
    let passed = out.inner().bytes();
    Ok((other, refused, answer, passed == taken.as_slice()))
}

// Does the same with a new buffer.
fn see_new_buffer(alloc: Global, fails: u64) -> Result<Buffered, AllocError> {
    let inner = MemorySink::new(alloc, [fails].to_vec(alloc)?);
    let mut out = BufferedSink::new(inner, alloc);
    let mut taken = Vec::new(alloc);
    see_buffer(alloc, &mut out, &mut taken, fails)
}

#[test]
fn a_buffer_loses_nothing_where_a_write_fails(rt: HostRuntime) {
    // each write of the sink after, one after another, of five pieces and the last passing on; and
    // none
    for fails in 0..6 {
        let seen = see_new_buffer(rt.alloc(), fails);
        let wanted = (None, fails == 4, Ok(()), true);
        same(&rt, &seen, &Ok(wanted), fails);
    }
}

// The first of these pieces that isn't taken, that passes on with another result than expected, or
// leaves other bytes held.
fn first_other_held<O: Sink>(
    out: &mut BufferedSink<O>,
    rows: &[(&[u8], Result<(), SinkFault>, &[u8])],
) -> Option<usize> {
    for (i, (piece, answer, held)) in rows.iter().enumerate() {
        if write_whole(out, *piece) != Ok(()) {
            return Some(i);
        }
        if out.pass_on() != *answer || out.held() != *held {
            return Some(i);
        }
    }
    None
}

// Gives a writer with room for five bytes three pieces of three bytes.
fn fill_room(alloc: Global, room: &mut [u8]) -> Option<usize> {
    let mut out = BufferedSink::new(WriteSink::new(room), alloc);
    // the piece, the result of passing it on, what is held then
    let rows: [(&[u8], Result<(), SinkFault>, &[u8]); 3] = [
        (b"abc", Ok(()), b""),
        (b"def", Err(SinkFault::Failed), b"f"),
        (b"ghi", Err(SinkFault::Failed), b"fghi"),
    ];
    first_other_held(&mut out, &rows)
}

#[test]
fn a_buffer_keeps_what_a_full_writer_leaves(rt: HostRuntime) {
    let mut room = [b'-'; 5];
    let other = fill_room(rt.alloc(), room.as_mut_slice());
    same(&rt, &(other, &room), &(None, b"abcde"), "the pieces");
}

/// Is interrupted by signals this many times; then a read gives the byte `x`, and a write takes
/// one.
#[derive(Drop)]
struct Interrupted {
    times: u8,
}

impl Interrupted {
    fn is_next(&mut self) -> bool {
        let is_next = 0 < self.times;
        self.times = self.times.saturating_sub(1);
        is_next
    }
}

impl Read for Interrupted {
    fn read(&mut self, buf: &mut [u8]) -> IoResult<usize> {
        if self.is_next() {
            return Err(Error::from(ErrorKind::Interrupted));
        }
        match buf.first_mut() {
            Some(byte) => *byte = b'x',
            None => return Ok(0),
        }
        Ok(1)
    }
}

impl Write for Interrupted {
    fn write(&mut self, buf: &[u8]) -> IoResult<usize> {
        if self.is_next() {
            return Err(Error::from(ErrorKind::Interrupted));
        }
        Ok(buf.len().min(1))
    }

    fn flush(&mut self) -> IoResult<()> {
        Ok(())
    }
}

#[test]
fn an_interrupted_read_is_made_again(rt: HostRuntime) {
    let mut source = ReadSource::new(Interrupted { times: 3 });
    let mut buf = [b'-'; 2];
    let read = source.read(&mut buf);
    same(&rt, &(read, &buf), &(Ok(1), b"x-"), "the read");
}

#[test]
fn an_interrupted_write_is_made_again(rt: HostRuntime) {
    let mut sink = WriteSink::new(Interrupted { times: 3 });
    let answers = (sink.write(b"ab"), write_whole(&mut sink, b"abc"));
    same(&rt, &answers, &(Ok(1), Ok(())), "the writes");
}
