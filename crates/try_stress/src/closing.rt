//! What is looked at once a tree is closed.

use crate::faults::Fault;
use ist_core::{Pair, Reply};
use ist_rest::Closed;
use std::alloc::Global;
use tele_audit::{AuditFault, audit, dump};
use tele_io::{QuietSink, QuietSource, SinkFault};

/// The value of each key below `span` in these pairs, which have no others.
pub(crate) fn values_of(alloc: Global, pairs: &[Pair], span: u64) -> Result<Vec<Reply>, Fault> {
    let mut values = Vec::new(alloc);
    for _ in 0..span {
        values.push(None)?;
    }
    for pair in pairs {
        match values.get_mut(pair.key as usize) {
            Some(value) => *value = Some(pair.value),
            None => return Err(Fault::OtherPairs),
        }
    }
    Ok(values)
}

// Audits the dump of the closed words, which is to tell these pairs.
fn check_audit(alloc: Global, closed: &Closed, pairs: &[Pair]) -> Result<(), Fault> {
    let mut sink = QuietSink::new(alloc);
    match dump(closed, &mut sink) {
        Ok(()) => {}
        Err(SinkFault::Memory) => return Err(Fault::Memory),
        Err(SinkFault::Failed) => return Err(Fault::Unaudited),
    }
    let mut source = QuietSource::new(sink.bytes().to_vec(alloc)?);
    match audit(alloc, &mut source) {
        Ok(audited) => {
            if audited.used() == closed.used() && audited.list(0, u64::MAX) == pairs {
                Ok(())
            } else {
                Err(Fault::Unaudited)
            }
        }
        Err(AuditFault::Memory) => Err(Fault::Memory),
        Err(_) => Err(Fault::Unaudited),
    }
}

/// Checks the closed tree: its pairs are what the keys had at the end, it is settled if it must be,
/// and the audit takes its words.
pub(crate) fn check_closed(
    alloc: Global,
    closed: &Closed,
    ends: &[Reply],
    is_ample: bool,
) -> Result<(), Fault> {
    let pairs = closed.pairs(alloc)?;
    let values = values_of(alloc, pairs.as_slice(), ends.len() as u64)?;
    if values.as_slice() != ends {
        return Err(Fault::OtherPairs);
    }
    if is_ample && !closed.settled() {
        return Err(Fault::Unsettled);
    }
    check_audit(alloc, closed, pairs.as_slice())
}
