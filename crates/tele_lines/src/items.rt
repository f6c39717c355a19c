//! What a line of input says, and why a line is bad.

use ist_core::Command;

/// A good line that asks for something: its number, counted from 1, and what it asks for.
#[derive(Clone, Copy, Debug, PartialEq, Eq, Drop)]
pub struct Line {
    pub number: u64,
    pub item: Item,
}

/// What a good line asks for. Numbers of version 2 are kept: greater by 2^63 than written.
#[derive(Clone, Copy, Debug, PartialEq, Eq, Drop)]
pub enum Item {
    /// One command on the map, at one timestamp.
    Point(Command),
    /// The pairs from one timestamp to another, both included.
    Interval { first: u64, last: u64 },
}

/// The version of the line language that an input uses.
#[derive(Clone, Copy, Debug, PartialEq, Eq, Drop)]
pub enum Version {
    /// Numbers from 0 to 2^64 - 1. An input is of this version if it doesn't say otherwise.
    One,
    /// Numbers from -2^63 to 2^63 - 1, after a first line `V 2`.
    Two,
}

/// Why a line is bad. A line that is bad for several causes is bad for the first of them in this
/// order: `Lines`, `Long`, `Letter`, `Fields`, `Number`.
#[derive(Clone, Copy, Debug, PartialEq, Eq, Drop)]
pub enum Cause {
    /// It has more than 80 bytes without its line end.
    Long,
    /// Its first word is no letter of the line language, or is a `V` that comes too late.
    Letter,
    /// It has too many words, or too few.
    Fields,
    /// A word is no number of the version, or names no version.
    Number,
    /// It follows the last line that is allowed.
    Lines,
}

/// Why there is no next line.
#[derive(Clone, Copy, Debug, PartialEq, Eq, Drop)]
pub enum LineFault {
    /// The line with this number is bad. It ends the reading.
    Bad { line: u64, cause: Cause },
    /// The source failed. No byte is lost, and a later call goes on.
    Read,
}

/// What one line says.
#[derive(Clone, Copy, Drop)]
pub(crate) enum Said {
    /// Nothing: it has no word, or is a comment.
    Skips,
    /// The version of the lines after it.
    Chooses(Version),
    /// What it asks for.
    Asks(Item),
    /// Nothing that can be read.
    Fails(Cause),
}
