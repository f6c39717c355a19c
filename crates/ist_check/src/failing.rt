//! Which condition of an event fails first after the events so far.
ghost use Rattle.std.specs.Prelude.{ℕ, List, IfOk};
ghost use Rattle.ist_core.specs.declared.pairs.Pair.{Pair as APair};
ghost use Rattle.ist_core.specs.StartLayout.{start};
ghost use Rattle.ist_core.specs.Logs.{Log};
ghost use Rattle.ist_check.specs.Conditions.{says_of};
ghost use Rattle.ist_check.specs.Failing.{TellsCondition};
ghost use Rattle.ist_check.specs.Knowing.{Knows, IsOfBuild};

use crate::builds::{draw_fails, lose_fails, place_fails, root_fails};
use crate::changes::{
    count_fails, decide_fails, enter_fails, okay_fails, reserve_fails, resolve_fails,
};
use crate::conditions::Condition;
use crate::installs::install_fails;
use crate::nodes::{finish_fails, mark_fails, pass_fails};
use check_events::{Past, Replica};
use ist_core::Event;
use std::alloc::{AllocError, Global};

/// Returns the first condition of the event that fails, if one does.
pub(crate) fn fails(
    alloc: Global,
    replica: &Replica,
    past: &Past,
    event: &Event,
) -> Result<Option<Condition>, AllocError>
    ensures exact { IfOk result (λ fails. (pairs : List APair) → (words : ℕ) → (log : Log)
        → Knows replica.now past.now pairs words log
        → TellsCondition (says_of (start pairs words) log event.now) fails) }
{
    match event {
        Event::Enter { caller } => Ok(enter_fails(replica, *caller)),
        Event::Reserve { caller, base, size } => {
            reserve_fails(alloc, replica, past, *caller, *base, *size)
        }
        Event::Install {
            caller,
            change,
            rows,
        } => Ok(install_fails(replica, past, *caller, *change, rows.as_slice())),
        Event::Okay { caller, change } => Ok(okay_fails(replica, *caller, *change)),
        Event::Decide {
            caller,
            change,
            yes,
        } => Ok(decide_fails(replica, past, *caller, *change, *yes)),
        Event::Resolve { caller, change } => Ok(resolve_fails(replica, *caller, *change)),
        Event::Count { caller, node } => Ok(count_fails(replica, past, *caller, *node)),
        Event::Mark { caller, node } => Ok(mark_fails(replica, past, *caller, *node)),
        Event::Pass {
            caller,
            node,
            index,
            word,
        } => Ok(pass_fails(replica, *caller, *node, *index, *word)),
        Event::Finish { caller, node, keys } => {
            Ok(finish_fails(replica, past, *caller, *node, *keys))
        }
        _ => build_fails(alloc, replica, past, event),
    }
}

/// Returns the first condition of an event of a build that fails, if one does.
fn build_fails(
    alloc: Global,
    replica: &Replica,
    past: &Past,
    event: &Event,
) -> Result<Option<Condition>, AllocError>
    ensures exact { IfOk result (λ fails. (pairs : List APair) → (words : ℕ) → (log : Log)
        → Knows replica.now past.now pairs words log → IsOfBuild event.now
        → TellsCondition (says_of (start pairs words) log event.now) fails) }
{
    match event {
        Event::Root {
            caller,
            rebuild,
            word,
            rows,
        } => {
            let rows = rows.as_slice();
            root_fails(alloc, replica, past, *caller, *rebuild, *word, rows)
        }
        Event::Draw {
            caller,
            rebuild,
            part,
        } => Ok(draw_fails(replica, past, *caller, *rebuild, *part)),
        Event::Place {
            caller,
            rebuild,
            part,
            word,
            rows,
        } => {
            let rows = rows.as_slice();
            place_fails(alloc, replica, past, *caller, *rebuild, *part, *word, rows)
        }
        Event::Lose { caller, bases } => {
            lose_fails(alloc, replica, past, *caller, bases.as_slice())
        }
        _ => Ok(None),
    }
}
