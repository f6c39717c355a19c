//! What is said of a log.
ghost use Rattle.std.specs.Prelude.{IfOk};
ghost use Rattle.log_check.specs.Opening.{LogOpens};
ghost use Rattle.log_check.specs.Verdicts.{IsTrueOf};

use crate::logs::Log;
use ist_check::{Condition, Judgement, judge};
use std::alloc::{AllocError, Global};
use std::fmt;

/// What is said of a log.
#[derive(Drop)]
pub enum Verdict {
    /// Each event may come after those before it. The state after the last has this first free
    /// word, this many callers, and this word in the anchor's slot.
    AllLawful {
        next: u64,
        callers: u64,
        anchor: u64,
    },
    /// The number of the first event that may not come, counted from 0, and the first of its
    /// conditions that is false.
    Unlawful {
        at: u64,
        condition: Condition,
    },
}

impl fmt::Display for Verdict {
    fn fmt<W: fmt::Write>(&self, f: &mut fmt::Formatter<W>) -> fmt::Result {
        match self {
            Verdict::AllLawful {
                next,
                callers,
                anchor,
            } => write!(f, "ok next {next} callers {callers} anchor {anchor}"),
            Verdict::Unlawful { at, .. } => write!(f, "unlawful {at}"),
        }
    }
}

/// Returns whether the log is lawful: how it ends, or the first event that may not come, and why.
pub fn verdict_on(alloc: Global, log: &Log) -> Result<Verdict, AllocError>
    requires opens { LogOpens log.now }
    ensures exact { IfOk result (IsTrueOf log.now) }
{
    let judgement = judge(
        alloc,
        log.pairs.as_slice(),
        log.words,
        log.events.as_slice(),
    )?;
    match judgement {
        Judgement::AllLawful { state } => Ok(Verdict::AllLawful {
            next: state.next,
            callers: state.callers,
            anchor: state.anchor,
        }),
        Judgement::Refused { refusal } => Ok(Verdict::Unlawful {
            at: refusal.at,
            condition: refusal.condition,
        }),
    }
}
