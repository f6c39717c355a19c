//! What is wrong with a line of a wrong form.

use crate::fields::parts_of;
use crate::kinds::fields_of;
use std::fmt;

/// What is wrong with a line of a wrong form.
#[derive(Clone, Copy, Drop)]
pub enum Fault {
    /// The first line that says something doesn't begin with `start`.
    NoStart,
    /// The number of words is missing, no number, or above 2^28.
    Words,
    /// A pair isn't a key, a colon and a value.
    Pair,
    /// The keys of the pairs aren't strictly increasing, or the table hasn't enough words.
    Table,
    /// These aren't the numbers of the definitions.
    Numbers,
    /// No event has this name.
    Name,
    /// A field is missing.
    Missing,
    /// There is a field too many.
    Extra,
    /// A field isn't what it must be.
    Field,
}

impl fmt::Display for Fault {
    fn fmt<W: fmt::Write>(&self, f: &mut fmt::Formatter<W>) -> fmt::Result {
        f.write_str(match self {
            Fault::NoStart => "the first line isn't `start WORDS KEY:VALUE ..`",
            Fault::Words => "the number of words isn't one up to 268435456",
            Fault::Pair => "a pair isn't `KEY:VALUE`",
            Fault::Table => "the keys don't rise, or the pairs need more words",
            Fault::Numbers => "the numbers aren't those of this program",
            Fault::Name => "no event has this name",
            Fault::Missing => "a field is missing",
            Fault::Extra => "there is a field too many",
            Fault::Field => "a field isn't a number, or the list or word that stands there",
        })
    }
}

/// Returns what is wrong with a line that doesn't have the form of an event.
pub fn fault_of(line: &[u8]) -> Fault {
    let mut rest = parts_of(line, b' ');
    let name = rest.take().unwrap_or(b"");
    if name == b"const".as_slice() {
        return Fault::Numbers;
    }
    match fields_of(name) {
        None => Fault::Name,
        Some(wanted) => {
            let there = line.iter().filter(|byte| **byte == b' ').count() as u64;
            if there < wanted {
                Fault::Missing
            } else if there > wanted {
                Fault::Extra
            } else {
                Fault::Field
            }
        }
    }
}
