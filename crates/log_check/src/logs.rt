//! A log in its text form: the table at its start, and then one event per line.
ghost use Rattle.std.specs.Prelude.{◌↔◌, ◌≤◌, IsTrue, IfOk, map};
ghost use Rattle.std.specs.List.Sorted.{IsStrictlyIncreasing};
ghost use Rattle.ist_core.specs.RowLayout.{place_limit};
ghost use Rattle.ist_core.specs.Lawful.{CanOpen};
ghost use Rattle.log_check.specs.Opening.{LogOpens, Opens};

use crate::events::read_event;
use crate::faults::{Fault, fault_of};
use crate::fields::{Fields, parts_of};
use ist_core::{Event, Pair};
use ist_layout::{FIRST_ROW, PLACE_LIMIT};
use ist_math::ideal_words;
use std::alloc::{AllocError, Global};

/// A line that may precede the events: the numbers of the definitions.
const NUMBERS: &[u8] = b"const SHARE_FROM=256 LIMIT_MIN=8 LIMIT_DIV=4";

/// More pairs than a table has room for.
const MANY_PAIRS: u64 = 1 << 28;

/// A table at its start, which may be opened, and its events, the oldest first.
#[derive(Drop)]
pub struct Log {
    pub pairs: Vec<Pair>,
    pub words: u32,
    pub events: Vec<Event>,
    /// The number of each event's line, counted from 1.
    pub lines: Vec<u64>,
}

/// What a text is.
#[derive(Drop)]
pub enum Reading {
    Whole(Log),
    /// The first line with a wrong form, counted from 1, and what is wrong with it.
    OutOfForm { line: u64, fault: Fault },
}

/// Returns the content of a line, without the carriage return at its end, or `None` if it is blank
/// or a comment.
fn said(line: &[u8]) -> Option<&[u8]> {
    let line = line.strip_suffix(b"\r").unwrap_or(line);
    if line.starts_with(b"#") || line.iter().all(|byte| *byte == b' ' || *byte == b'\t') {
        return None;
    }
    Some(line)
}

/// Returns the first line of the text that has content, with its number, counted from 0.
fn first_said(text: &[u8]) -> Option<(usize, &[u8])> {
    for (at, bytes) in text.split(|byte| *byte == b'\n').enumerate() {
        if let Some(line) = said(bytes) {
            return Some((at, line));
        }
    }
    None
}

/// Reads the log of the text. Its first line with content is the table at its start.
pub fn read_log(alloc: Global, text: &[u8]) -> Result<Reading, AllocError>
    ensures opens { IfOk result Opens }
{
    match first_said(text) {
        None => Ok(bad_line(0, Fault::NoStart)),
        Some((start, first)) => match read_start(alloc, first)? {
            Err(fault) => Ok(bad_line(start, fault)),
            Ok(log) => read_after(alloc, text, start, log),
        },
    }
}

/// Reads the events after the start, which is the line with this number, and completes the log.
fn read_after(alloc: Global, text: &[u8], start: usize, log: Log) -> Result<Reading, AllocError>
    requires opens { LogOpens log }
    ensures opens { IfOk result Opens }
{
    let mut log = log;
    match add_events(alloc, &mut log, text, start)? {
        Some((at, fault)) => Ok(bad_line(at, fault)),
        None => Ok(Reading::Whole(log)),
    }
}

/// Adds the events of the lines after the start. Returns the first line with a wrong form, counted
/// from 0, and what is wrong with it, if there is one.
fn add_events(
    alloc: Global,
    log: &mut Log,
    text: &[u8],
    start: usize,
) -> Result<Option<(usize, Fault)>, AllocError>
    requires opens { LogOpens log.old }
    ensures opens { LogOpens log.new }
{
    for (at, bytes) in text.split(|byte| *byte == b'\n').enumerate() {
        if at > start {
            if let Some(line) = said(bytes) {
                if let Some(fault) = add_line(alloc, log, at, line)? {
                    return Ok(Some((at, fault)));
                }
            }
        }
    }
    Ok(None)
}

/// Adds the event of this line with content, unless it has the numbers of the definitions and
/// precedes all events. Returns what is wrong with it, if its form is wrong.
fn add_line(
    alloc: Global,
    log: &mut Log,
    at: usize,
    line: &[u8],
) -> Result<Option<Fault>, AllocError>
    requires opens { LogOpens log.old }
    ensures opens { LogOpens log.new }
{
    if log.events.is_empty() && line == NUMBERS {
        return Ok(None);
    }
    match read_event(alloc, line)? {
        None => Ok(Some(fault_of(line))),
        Some(event) => {
            log.events.push(event)?;
            log.lines.push((at as u64).saturating_add(1))?;
            Ok(None)
        }
    }
}

/// Reports the line, counted from 0, as one with a wrong form.
fn bad_line(at: usize, fault: Fault) -> Reading
    ensures opens { Opens result }
{
    Reading::OutOfForm {
        line: (at as u64).saturating_add(1),
        fault,
    }
}

/// Reads the table of the first line, if it may be opened: its words, and then its pairs.
fn read_start(alloc: Global, line: &[u8]) -> Result<Result<Log, Fault>, AllocError>
    ensures opens { IfOk result (λ log. IfOk log LogOpens) }
{
    let mut rest = parts_of(line, b' ');
    if rest.take() != Some(b"start") {
        return Ok(Err(Fault::NoStart));
    }
    let words = match rest.number() {
        Some(words) if words <= PLACE_LIMIT => words as u32,
        _ => return Ok(Err(Fault::Words)),
    };
    let pairs = match read_pairs(alloc, &mut rest)? {
        None => return Ok(Err(Fault::Pair)),
        Some(pairs) => pairs,
    };
    if !may_open(pairs.as_slice(), words) {
        return Ok(Err(Fault::Table));
    }
    Ok(Ok(Log {
        pairs,
        words,
        events: Vec::new(alloc),
        lines: Vec::new(alloc),
    }))
}

/// Reads the pairs in the fields that are left, each a key, a colon and a value.
fn read_pairs(alloc: Global, rest: &mut Fields<'_>) -> Result<Option<Vec<Pair>>, AllocError> {
    let mut pairs = Vec::new(alloc);
    for _ in 0..MANY_PAIRS {
        match rest.take() {
            None => return Ok(Some(pairs)),
            Some(text) => match read_pair(text) {
                None => return Ok(None),
                Some(pair) => pairs.push(pair)?,
            },
        }
    }
    Ok(None)
}

/// Reads a pair: a key, a colon and a value.
fn read_pair(text: &[u8]) -> Option<Pair> {
    let mut sides = parts_of(text, b':');
    let key = sides.number()?;
    let value = sides.number()?;
    if sides.is_done() {
        Some(Pair { key, value })
    } else {
        None
    }
}

/// Returns whether a table of `words` words may begin with these pairs.
fn may_open(pairs: &[Pair], words: u32) -> bool
    requires within { words ≤ place_limit }
    ensures exact { IsTrue result ↔ CanOpen pairs.now words }
{
    let count = pairs.len() as u64;
    let words = u64::from(words);
    if count > words || u64::from(FIRST_ROW) + ideal_words(count) > words {
        return false;
    }
    do_rise(pairs)
}

/// Returns whether the keys are strictly increasing.
fn do_rise(pairs: &[Pair]) -> bool
    ensures exact { IsTrue result ↔ IsStrictlyIncreasing (map (λ pair. pair.key) pairs.now) }
{
    for i in 1..pairs.len() {
        if pairs[i - 1].key >= pairs[i].key {
            return false;
        }
    }
    true
}
