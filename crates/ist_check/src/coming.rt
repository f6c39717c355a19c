//! Whether an event may come next after the events so far.
ghost use Rattle.std.specs.Prelude.{◌↔◌, ℕ, List, IsTrue, IfOk};
ghost use Rattle.ist_core.specs.declared.pairs.Pair.{Pair as APair};
ghost use Rattle.ist_core.specs.StartLayout.{start};
ghost use Rattle.ist_core.specs.Logs.{Log};
ghost use Rattle.ist_core.specs.Enabled.{Enabled};
ghost use Rattle.ist_check.specs.Knowing.{Knows, IsOfBuild};

use check_builds::{can_draw, can_lose, can_place, can_root};
use check_events::{
    Past, Replica, can_count, can_decide, can_enter, can_finish, can_install, can_mark, can_okay,
    can_pass, can_reserve, can_resolve,
};
use ist_core::Event;
use std::alloc::{AllocError, Global};

/// Returns whether the event may come next.
pub(crate) fn may_come(
    alloc: Global,
    replica: &Replica,
    past: &Past,
    event: &Event,
) -> Result<bool, AllocError>
    ensures exact { IfOk result (λ may. (pairs : List APair) → (words : ℕ) → (log : Log)
        → Knows replica.now past.now pairs words log
        → (IsTrue may ↔ Enabled (start pairs words) log event.now)) }
{
    match event {
        Event::Enter { caller } => Ok(can_enter(replica, *caller)),
        Event::Reserve { caller, base, size } => {
            can_reserve(alloc, replica, past, *caller, *base, *size)
        }
        Event::Install {
            caller,
            change,
            rows,
        } => Ok(can_install(replica, past, *caller, *change, rows.as_slice())),
        Event::Okay { caller, change } => Ok(can_okay(replica, *caller, *change)),
        Event::Decide {
            caller,
            change,
            yes,
        } => Ok(can_decide(replica, past, *caller, *change, *yes)),
        Event::Resolve { caller, change } => Ok(can_resolve(replica, *caller, *change)),
        Event::Count { caller, node } => Ok(can_count(replica, past, *caller, *node)),
        Event::Mark { caller, node } => Ok(can_mark(replica, past, *caller, *node)),
        Event::Pass {
            caller,
            node,
            index,
            word,
        } => Ok(can_pass(replica, *caller, *node, *index, *word)),
        Event::Finish { caller, node, keys } => {
            Ok(can_finish(replica, past, *caller, *node, *keys))
        }
        _ => may_build(alloc, replica, past, event),
    }
}

/// Returns whether the event of a build may come next.
fn may_build(
    alloc: Global,
    replica: &Replica,
    past: &Past,
    event: &Event,
) -> Result<bool, AllocError>
    ensures exact { IfOk result (λ may. (pairs : List APair) → (words : ℕ) → (log : Log)
        → Knows replica.now past.now pairs words log → IsOfBuild event.now
        → (IsTrue may ↔ Enabled (start pairs words) log event.now)) }
{
    match event {
        Event::Root {
            caller,
            rebuild,
            word,
            rows,
        } => {
            let rows = rows.as_slice();
            can_root(alloc, replica, past, *caller, *rebuild, *word, rows)
        }
        Event::Draw {
            caller,
            rebuild,
            part,
        } => Ok(can_draw(replica, past, *caller, *rebuild, *part)),
        Event::Place {
            caller,
            rebuild,
            part,
            word,
            rows,
        } => {
            let rows = rows.as_slice();
            can_place(alloc, replica, past, *caller, *rebuild, *part, *word, rows)
        }
        Event::Lose { caller, bases } => {
            can_lose(alloc, replica, past, *caller, bases.as_slice())
        }
        _ => Ok(false),
    }
}
