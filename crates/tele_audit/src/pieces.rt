//! Bytes that are put together on the stack and written in one piece.
ghost use Rattle.std.specs.Prelude.{◌≡◌, ◌+◌, ◌≤◌, [], ◌++◌, decimal, length, OnOk, OnErr, IsErrOf};
ghost use Rattle.tele_io.specs.Bytes.{HaveRisen, AppendsPart};
ghost use Rattle.tele_audit.specs.Dumps.{number_bytes};
ghost use Rattle.tele_audit.specs.Pieces.{MovesOut};

use arrayvec::ArrayVec;
use itoa::Buffer;
use std::marker::Model;
use tele_io::{Sink, SinkFault, write_whole};

/// How many bytes are written at once.
pub(crate) const ROOM: usize = 4096;

/// Bytes that will be written together.
#[derive(Drop)]
pub(crate) struct Chunk {
    bytes: ArrayVec<u8, ROOM>,
}

impl Model for Chunk {
    ghost use Rattle.std.specs.Prelude.{ℕ, List};

    ghost Value = { List ℕ };

    ghost view = { λ p. p.bytes.items };
}

impl Chunk {
    /// Makes a piece with no byte.
    pub(crate) fn new() -> Self
        ensures empty { result ≡ [] }
    {
        Chunk {
            bytes: ArrayVec::new(),
        }
    }

    /// Adds some bytes at the end.
    pub(crate) fn push(&mut self, bytes: &[u8])
        requires room { length self.old + length bytes.now ≤ ROOM }
        ensures added { self.new ≡ self.old ++ bytes.now }
    {
        let _ = self.bytes.try_extend_from_slice(bytes);
    }

    /// Adds a number, as eight bytes.
    #[tactic(auto, unfolding(crate::specs::Dumps::number_bytes))]
    pub(crate) fn push_number(&mut self, number: u64)
        requires room { length self.old + 8 ≤ ROOM }
        ensures added { self.new ≡ self.old ++ number_bytes number }
    {
        self.push(&number.to_le_bytes());
    }

    /// Adds a number in decimal.
    pub(crate) fn push_decimal(&mut self, number: u64)
        requires room { length self.old + 20 ≤ ROOM }
        ensures added { self.new ≡ self.old ++ decimal number }
        ensures short { length self.new ≤ length self.old + 20 }
    {
        let mut buffer = Buffer::new();
        self.push(buffer.format(number).as_bytes());
    }

    /// Returns the bytes.
    pub(crate) fn as_slice(&self) -> &[u8]
        ensures value { result.now ≡ self.now }
    {
        self.bytes.as_slice()
    }
}

/// Makes room for a number: if there is none, the bytes are written out.
pub(crate) fn make_room<O: Sink>(piece: &mut Chunk, out: &mut O) -> Result<(), SinkFault>
    ensures room { OnOk result (length piece.new + 8 ≤ ROOM) }
    ensures moved { OnOk result
        (MovesOut (O.written out.old) (O.written out.new) piece.old piece.new) }
    ensures failed { IsErrOf result SinkFault.Failed
        → HaveRisen (O.faults out.old) (O.faults out.new) }
    ensures part { OnErr result (AppendsPart (O.written out.old) (O.written out.new) piece.old) }
    ensures counted { O.faults out.old ≤ O.faults out.new }
{
    if piece.as_slice().len() + 8 <= ROOM {
        return Ok(());
    }
    write_whole(out, piece.as_slice())?;
    *piece = Chunk::new();
    Ok(())
}
