//! Checks a list of events, one after another.
ghost use Rattle.std.specs.Prelude.{◌≡◌, ℕ, reverse, IfOk, Err};
ghost use Rattle.ist_core.specs.Snapshots.{Shows};
ghost use Rattle.ist_core.specs.Lawful.{Lawful, CanOpen, state_of};
ghost use Rattle.ist_check.specs.declared.faults.CheckFault.TheVariants.{Unlawful};
ghost use Rattle.ist_check.specs.Verdicts.{IsFirstUnlawful};

use crate::faults::CheckFault;
use crate::judging::{Judgement, judge};
use ist_core::{Event, Pair, State};
use std::alloc::Global;

/// Returns the state after a lawful log, which is given as a list of events, the oldest first, over
/// a table of `words` words that begins with these pairs. If the log isn't lawful, returns the
/// number of the first event that may not come.
///
/// An event may come if its enabling condition holds after those before it. The call may also fail
/// because memory runs out.
pub fn check(alloc: Global, start: &[Pair], words: u32, log: &[Event]) -> Result<State, CheckFault>
    requires opens { CanOpen start.now words }
    ensures lawful { IfOk result (λ state. Lawful start.now words (reverse log.now)) }
    ensures shown { IfOk result (λ state.
        Shows state (state_of start.now words (reverse log.now))) }
    ensures unlawful { (at : ℕ) → result ≡ Err (Unlawful at)
        → IsFirstUnlawful start.now words log.now at }
{
    match judge(alloc, start, words, log)? {
        Judgement::AllLawful { state } => Ok(state),
        Judgement::Refused { refusal } => Err(CheckFault::Unlawful { at: refusal.at }),
    }
}
