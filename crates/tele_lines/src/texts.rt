//! One printed line. It is put together on the stack and written in one piece.
ghost use Rattle.std.specs.Prelude.{◌≡◌, ◌+◌, ◌<◌, ◌≤◌, [], ◌++◌, length, codes, decimal};
ghost use Rattle.std.specs.Fmt.{signed_decimal};

use arrayvec::ArrayVec;
use itoa::Buffer;
use std::marker::Model;

/// How many bytes a printed line has at most.
pub(crate) const ROOM: usize = 64;

/// Bytes that will be printed together.
#[derive(Drop)]
pub(crate) struct Text {
    bytes: ArrayVec<u8, ROOM>,
}

impl Model for Text {
    ghost use Rattle.std.specs.Prelude.{ℕ, List};

    ghost Value = { List ℕ };

    ghost view = { λ t. t.bytes.items };
}

impl Text {
    /// Makes an empty text.
    pub(crate) fn new() -> Self
        ensures empty { result ≡ [] }
    {
        Text {
            bytes: ArrayVec::new(),
        }
    }

    /// Adds some bytes at the end.
    pub(crate) fn push(&mut self, bytes: &[u8])
        requires room { length self.old + length bytes.now ≤ ROOM }
        ensures added { self.new ≡ self.old ++ bytes.now }
    {
        let _ = self.bytes.try_extend_from_slice(bytes);
    }

    /// Adds a number in decimal.
    pub(crate) fn push_number(&mut self, number: u64)
        requires room { length self.old + 20 ≤ ROOM }
        ensures added { self.new ≡ self.old ++ decimal number }
        ensures short { length self.new ≤ length self.old + 20 }
    {
        let mut buffer = Buffer::new();
        self.push(buffer.format(number).as_bytes());
    }

    /// Adds a signed number in decimal.
    pub(crate) fn push_signed(&mut self, number: i64)
        requires room { length self.old + 20 ≤ ROOM }
        ensures added { self.new ≡ self.old ++ signed_decimal number }
        ensures short { length self.new ≤ length self.old + 20 }
    {
        let mut buffer = Buffer::new();
        self.push(buffer.format(number).as_bytes());
    }

    /// Ends the line.
    pub(crate) fn end_line(&mut self)
        requires room { length self.old < ROOM }
        ensures added { self.new ≡ self.old ++ codes "\n" }
    {
        self.push(b"\n");
    }

    /// Returns the bytes.
    pub(crate) fn as_slice(&self) -> &[u8]
        ensures value { result.now ≡ self.now }
    {
        self.bytes.as_slice()
    }
}
