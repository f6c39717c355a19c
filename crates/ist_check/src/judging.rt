//! Goes through a list of events once, up to the first that may not come.
ghost use Rattle.std.specs.Prelude.{◌≡◌, ℕ, List, IfOk, IfSome, Some, None};
ghost use Rattle.ist_core.specs.declared.pairs.Pair.{Pair as APair};
ghost use Rattle.ist_core.specs.StartLayout.{start};
ghost use Rattle.ist_core.specs.Logs.{Log};
ghost use Rattle.ist_core.specs.Enabled.{Enabled};
ghost use Rattle.ist_core.specs.Lawful.{CanOpen};
ghost use Rattle.ist_check.specs.Conditions.{says_of};
ghost use Rattle.ist_check.specs.Failing.{TellsCondition};
ghost use Rattle.ist_check.specs.Knowing.{Knows};
ghost use Rattle.ist_check.specs.Verdicts.{IsTrueJudgement};

use crate::coming::may_come;
use crate::conditions::Condition;
use crate::failing::fails;
use crate::remembering::{open_past, remember};
use crate::stating::state_of;
use check_events::{Past, Replica};
use check_state::{advance, open_replica, remember_links, remember_ways};
use ist_core::{Event, Pair, State};
use std::alloc::{AllocError, Global};

/// The first event of a list that may not come: its number, from 0, and the first condition of its
/// kind that is false.
#[derive(Clone, Copy, Debug, PartialEq, Eq, Drop)]
pub struct Refusal {
    pub at: u64,
    pub condition: Condition,
}

/// What is found of a list of events.
#[derive(Drop)]
pub enum Judgement {
    /// Each event may come after those before it. The state after the last.
    AllLawful { state: State },
    /// The first event that may not come, and why.
    Refused { refusal: Refusal },
}

/// Returns what is found of a list of events, the oldest first, over a table of `words` words that
/// begins with these pairs: the state after them, if they are a lawful log, and otherwise the first
/// event that may not come, with the first of its conditions that is false.
///
/// An event may come if its enabling condition holds after those before it. The list is read once.
/// The call may also fail because memory runs out.
pub fn judge(
    alloc: Global,
    start: &[Pair],
    words: u32,
    log: &[Event],
) -> Result<Judgement, AllocError>
    requires opens { CanOpen start.now words }
    ensures exact { IfOk result (IsTrueJudgement start.now words log.now) }
{
    let mut replica = open_replica(alloc, start, u64::from(words))?;
    let mut past = open_past(alloc, &replica)?;
    for (at, event) in log.iter().enumerate() {
        if let Some(condition) = refused_for(alloc, &replica, &past, event)? {
            let at = at as u64;
            return Ok(Judgement::Refused {
                refusal: Refusal { at, condition },
            });
        }
        remember(alloc, &replica, &mut past, event)?;
        advance(alloc, &mut replica, event)?;
        remember_links(alloc, &replica, &mut past.slots, event)?;
        remember_ways(alloc, &replica, &past.slots, &mut past.ways, event)?;
    }
    Ok(Judgement::AllLawful {
        state: state_of(alloc, replica)?,
    })
}

/// Returns the first condition of the event that is false after those so far, or `None` if it may
/// come.
fn refused_for(
    alloc: Global,
    replica: &Replica,
    past: &Past,
    event: &Event,
) -> Result<Option<Condition>, AllocError>
    ensures may { IfOk result (λ found. (pairs : List APair) → (words : ℕ) → (log : Log)
        → Knows replica.now past.now pairs words log → found ≡ None
        → Enabled (start pairs words) log event.now) }
    ensures refused { IfOk result (λ found. (pairs : List APair) → (words : ℕ) → (log : Log)
        → Knows replica.now past.now pairs words log → IfSome found (λ condition.
        ¬ (Enabled (start pairs words) log event.now)
        × TellsCondition (says_of (start pairs words) log event.now) (Some condition))) }
{
    if may_come(alloc, replica, past, event)? {
        return Ok(None);
    }
    fails(alloc, replica, past, event)
}
