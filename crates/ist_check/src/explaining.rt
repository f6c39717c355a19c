//! Says why the first event of a list that may not come may not.
ghost use Rattle.std.specs.Prelude.{◌≡◌, reverse, IfOk, IfSome, None};
ghost use Rattle.ist_core.specs.Lawful.{Lawful, CanOpen};
ghost use Rattle.ist_check.specs.Verdicts.{IsFirstUnlawful, FailsAt};

use crate::judging::{Judgement, Refusal, judge};
use ist_core::{Event, Pair};
use std::alloc::{AllocError, Global};

/// Returns why the first event that may not come may not: the named condition is false after the
/// events before it, and all conditions before it in the order of its kind hold. It is the event
/// that `check` names. `None` is returned only if the events are a lawful log.
pub fn explain(
    alloc: Global,
    start: &[Pair],
    words: u32,
    log: &[Event],
) -> Result<Option<Refusal>, AllocError>
    requires opens { CanOpen start.now words }
    ensures refused { IfOk result (λ found. IfSome found (λ r.
        FailsAt start.now words log.now r.at r.condition)) }
    ensures first { IfOk result (λ found. IfSome found (λ r.
        IsFirstUnlawful start.now words log.now r.at)) }
    ensures lawful { IfOk result (λ found. found ≡ None
        → Lawful start.now words (reverse log.now)) }
{
    match judge(alloc, start, words, log)? {
        Judgement::AllLawful { .. } => Ok(None),
        Judgement::Refused { refusal } => Ok(Some(refusal)),
    }
}
