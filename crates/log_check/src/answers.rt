//! What is said of a text, and the status.
use crate::kinds::kind_of;
use crate::logs::{Log, Reading, read_log};
use crate::verdicts::{Verdict, verdict_on};
use ist_check::Condition;
use std::alloc::{AllocError, Global};

/// The status if the log is lawful.
pub const LAWFUL: u8 = 0;

/// The status if an event may not come.
pub const UNLAWFUL: u8 = 1;

/// The status if the text has a wrong form.
pub const OUT_OF_FORM: u8 = 3;

/// Returns what is said of the text, and the status.
pub fn answer_to(alloc: Global, text: &[u8]) -> Result<(String, u8), AllocError> {
    match read_log(alloc, text)? {
        Reading::OutOfForm { line, fault } => {
            Ok((format!(in alloc; "! form {line}: {fault}")?, OUT_OF_FORM))
        }
        Reading::Whole(log) => match verdict_on(alloc, &log)? {
            Verdict::Unlawful { at, condition } => {
                Ok((unlawful(alloc, &log, at, condition)?, UNLAWFUL))
            }
            verdict => Ok((format!(in alloc; "{verdict}")?, LAWFUL)),
        },
    }
}

/// Returns what is said of event number `at`, which may not come: its number, its kind, its line,
/// and the first of its conditions that is false.
fn unlawful(alloc: Global, log: &Log, at: u64, condition: Condition) -> Result<String, AllocError> {
    let verdict = Verdict::Unlawful { at, condition };
    let event = log.events.get(at as usize);
    let line = log.lines.get(at as usize);
    match (event, line) {
        (Some(event), Some(line)) => {
            let kind = kind_of(event);
            format!(in alloc; "{verdict}: {kind}, line {line}, as this is false: {condition}")
        }
        _ => format!(in alloc; "{verdict}, as this is false: {condition}"),
    }
}
