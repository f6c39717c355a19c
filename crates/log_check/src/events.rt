//! The events of a log, one per line.

use crate::fields::{Fields, parts_of};
use ist_core::{Bases, Event, Row, Rows, Words};
use std::alloc::{AllocError, Global};
use tele_lines::number;

/// The text for a list without elements.
const NOTHING: &[u8] = b"-";

/// Reads the event of a line, if the line has the form of one.
pub fn read_event(alloc: Global, line: &[u8]) -> Result<Option<Event>, AllocError> {
    let mut rest = parts_of(line, b' ');
    let event = match rest.take() {
        None => None,
        Some(name) => read_named(alloc, name, &mut rest)?,
    };
    Ok(if rest.is_done() { event } else { None })
}

/// Reads the event of this name, with the fields that follow.
fn read_named(
    alloc: Global,
    name: &[u8],
    rest: &mut Fields<'_>,
) -> Result<Option<Event>, AllocError> {
    match name {
        b"Install" => install(alloc, rest),
        b"Root" => root(alloc, rest),
        b"Place" => place(alloc, rest),
        b"Lose" => lose(alloc, rest),
        _ => Ok(read_small(name, rest)),
    }
}

/// Reads the event of this name, if it is a kind that publishes no row and gives up none.
fn read_small(name: &[u8], rest: &mut Fields<'_>) -> Option<Event> {
    let caller = rest.number()?;
    if name == b"Enter".as_slice() {
        return Some(Event::Enter { caller });
    }
    let row = rest.number()?;
    match name {
        b"Reserve" => Some(Event::Reserve {
            caller,
            base: row,
            size: rest.number()?,
        }),
        b"Okay" => Some(Event::Okay {
            caller,
            change: row,
        }),
        b"Decide" => Some(Event::Decide {
            caller,
            change: row,
            yes: yes_or_no(rest.take()?)?,
        }),
        b"Resolve" => Some(Event::Resolve {
            caller,
            change: row,
        }),
        _ => read_at_node(name, caller, row, rest),
    }
}

/// Reads the event of this name, if it is a kind at a node or a rebuild.
fn read_at_node(name: &[u8], caller: u64, row: u64, rest: &mut Fields<'_>) -> Option<Event> {
    match name {
        b"Count" => Some(Event::Count { caller, node: row }),
        b"Mark" => Some(Event::Mark { caller, node: row }),
        b"Pass" => Some(Event::Pass {
            caller,
            node: row,
            index: rest.number()?,
            word: rest.number()?,
        }),
        b"Finish" => Some(Event::Finish {
            caller,
            node: row,
            keys: rest.number()?,
        }),
        b"Draw" => Some(Event::Draw {
            caller,
            rebuild: row,
            part: rest.number()?,
        }),
        _ => None,
    }
}

/// Reads how a change is decided.
fn yes_or_no(word: &[u8]) -> Option<bool> {
    match word {
        b"yes" => Some(true),
        b"no" => Some(false),
        _ => None,
    }
}

fn install(alloc: Global, rest: &mut Fields<'_>) -> Result<Option<Event>, AllocError> {
    match (rest.number(), rest.number(), rest.take()) {
        (Some(caller), Some(change), Some(text)) => match read_rows(alloc, text)? {
            None => Ok(None),
            Some(rows) => Ok(Some(Event::Install {
                caller,
                change,
                rows,
            })),
        },
        _ => Ok(None),
    }
}

fn root(alloc: Global, rest: &mut Fields<'_>) -> Result<Option<Event>, AllocError> {
    match (rest.number(), rest.number(), rest.number(), rest.take()) {
        (Some(caller), Some(rebuild), Some(word), Some(text)) => match read_rows(alloc, text)? {
            None => Ok(None),
            Some(rows) => Ok(Some(Event::Root {
                caller,
                rebuild,
                word,
                rows,
            })),
        },
        _ => Ok(None),
    }
}

fn place(alloc: Global, rest: &mut Fields<'_>) -> Result<Option<Event>, AllocError> {
    let caller = rest.number();
    match (
        caller,
        rest.number(),
        rest.number(),
        rest.number(),
        rest.take(),
    ) {
        (Some(caller), Some(rebuild), Some(part), Some(word), Some(text)) => {
            match read_rows(alloc, text)? {
                None => Ok(None),
                Some(rows) => Ok(Some(Event::Place {
                    caller,
                    rebuild,
                    part,
                    word,
                    rows,
                })),
            }
        }
        _ => Ok(None),
    }
}

fn lose(alloc: Global, rest: &mut Fields<'_>) -> Result<Option<Event>, AllocError> {
    match (rest.number(), rest.take()) {
        (Some(caller), Some(text)) => match read_numbers(alloc, text)? {
            None => Ok(None),
            Some(bases) => Ok(Some(Event::Lose {
                caller,
                bases: Bases::from_vec(bases),
            })),
        },
        _ => Ok(None),
    }
}

/// Reads numbers between commas, or a dash for none.
fn read_numbers(alloc: Global, text: &[u8]) -> Result<Option<Vec<u64>>, AllocError> {
    let mut numbers = Vec::new(alloc);
    if text == NOTHING {
        return Ok(Some(numbers));
    }
    for part in text.split(|byte| *byte == b',') {
        match number(part) {
            None => return Ok(None),
            Some(value) => numbers.push(value)?,
        }
    }
    Ok(Some(numbers))
}

/// Reads rows between semicolons, or a dash for none.
fn read_rows(alloc: Global, text: &[u8]) -> Result<Option<Rows>, AllocError> {
    let mut rows = Vec::new(alloc);
    if text == NOTHING {
        return Ok(Some(Rows::from_vec(rows)));
    }
    for part in text.split(|byte| *byte == b';') {
        match read_row(alloc, part)? {
            None => return Ok(None),
            Some(row) => rows.push(row)?,
        }
    }
    Ok(Some(Rows::from_vec(rows)))
}

/// Reads a row: its base, an equals sign, and its words between commas.
fn read_row(alloc: Global, text: &[u8]) -> Result<Option<Row>, AllocError> {
    let mut sides = parts_of(text, b'=');
    match (sides.number(), sides.take()) {
        (Some(base), Some(words)) if sides.is_done() => match read_numbers(alloc, words)? {
            None => Ok(None),
            Some(words) => Ok(Some(Row {
                base,
                words: Words::from_vec(words),
            })),
        },
        _ => Ok(None),
    }
}
