//! Lanes run by workers that steal them.
ghost use Rattle.std.specs.Prelude.{◌≡◌, ◌≤◌, [], map, All, length, None, Some, IfSome, IfNone, slice_get, option_map};
ghost use Rattle.std.specs.List.Sorted.{IsPermutation, IsNonDecreasingBy, IsStrictlyIncreasing};
ghost use Rattle.tele_lanes.specs.Lines.{commands_of, AnswerInOrder, CallInOrder, TellReplies};
ghost use Rattle.tele_steal.specs.Runs.{IsNewLane, IsRunLane, ticket};
ghost use Rattle.tele_steal.specs.Yards.{IsReadyYard};

use crate::collecting::{get_back, hire_all, put_in, run_kept};
use crate::tallies::{DequeHand, Owner, Thief};
use crate::workers::work_all;
use crate::yards::Yard;
use ist_core::Port;
use std::sync::Wait;
use std::thread::Threads;
use tele_lanes::{Gate, Lane};

/// Runs the lanes by the workers of the yard, and hands them back in the order of their numbers.
///
/// Each worker has its own thread if one can be started. It takes the first lane that no other
/// took, runs it as `tele_lanes::run_lanes` does, and takes the next until there is none. If the
/// deque has no memory for a lane, the caller runs that lane first. Allocates nothing else, and
/// never fails.
pub fn run_stolen<R: Threads + Wait + Sync, P: Port + Send, G: Gate + Sync>(
    rt: &R,
    gate: &G,
    yard: &mut Yard<P>,
    lanes: Vec<Lane<P>>,
) -> Vec<Lane<P>>
    requires empty { All (λ l. l.answers.list ≡ []) lanes.items }
    requires room { All (λ l. length l.tasks ≤ l.answers.room) lanes.items }
    requires no_calls { All (λ l. P.calls l.port ≡ []) lanes.items }
    requires unrefused { All (λ l. P.refused l.port ≡ None) lanes.items }
    requires numbers { IsStrictlyIncreasing (map (λ l. l.number) lanes.items) }
    requires fits { length lanes.items ≤ yard.old.lanes }

    // Each lane is handed back once, at its own place.
    ensures numbers { map (λ l. l.number) result.items ≡ map (λ l. l.number) lanes.items }
    ensures tasks { map (λ l. l.tasks) result.items ≡ map (λ l. l.tasks) lanes.items }
    ensures ties { map (λ l. P.tie l.port) result.items ≡ map (λ l. P.tie l.port) lanes.items }

    // The calls were made for a first part of the tasks, in order, and each call has its answer.
    ensures calls { All (λ l. CallInOrder l.tasks (P.calls l.port)) result.items }
    ensures answers { All (λ l. AnswerInOrder l.tasks l.answers.list) result.items }
    ensures replies { All (λ l. TellReplies (P.calls l.port) l.answers.list) result.items }

    // A lane stops only if its port refuses the first task without an answer.
    ensures stopped { All (λ l.
        l.stopped ≡ option_map (λ r. r.full) (P.refused l.port)) result.items }
    ensures refused { All (λ l. IfSome (P.refused l.port) (λ r.
        slice_get (commands_of l.tasks) (length (P.calls l.port)) ≡ Some r.command)) result.items }
    ensures whole { All (λ l. IfNone l.stopped
        (length (P.calls l.port) ≡ length l.tasks)) result.items }

    ensures yard { yard.new ≡ yard.old }
{
    let shared = run_shared(
        rt,
        gate,
        &mut yard.owner,
        &yard.thief,
        &mut yard.bags,
        &mut yard.hands,
        &mut yard.kept,
        lanes,
    );
    in_order(shared)
}

/// Sorts the lanes by their numbers.
fn in_order<P: Port>(lanes: Vec<Lane<P>>) -> Vec<Lane<P>>
    ensures same { IsPermutation lanes.items result.items }
    ensures rising { IsNonDecreasingBy (λ l. l.number) result.items }
{
    let mut lanes = lanes;
    lanes.sort_unstable_by_key(|lane| lane.number);
    lanes
}

/// Runs the lanes by the workers over the parts of a yard, and hands them back in any order.
fn run_shared<R: Threads + Wait + Sync, P: Port + Send, G: Gate + Sync>(
    rt: &R,
    gate: &G,
    owner: &mut Owner<P>,
    thief: &Thief<P>,
    bags: &mut Vec<Vec<Lane<P>>>,
    hands: &mut Vec<DequeHand<P>>,
    kept: &mut Vec<Lane<P>>,
    lanes: Vec<Lane<P>>,
) -> Vec<Lane<P>>
    requires ready { IsReadyYard owner.old thief.now bags.old.items hands.old kept.old }
    requires fresh { All (IsNewLane P.calls P.refused) lanes.items }
    requires few { length lanes.items ≤ 64 }
    ensures ready { IsReadyYard owner.new thief.now bags.new.items hands.new kept.new }
    ensures count { length bags.new.items ≡ length bags.old.items }
    ensures tickets { IsPermutation (map (ticket P.tie) lanes.items)
        (map (ticket P.tie) result.items) }
    ensures ran { All (IsRunLane P.calls P.refused) result.items }
{
    let mut lanes = lanes;
    hire_all(owner, bags, hands);
    put_in(owner, &mut lanes, kept);
    run_kept(rt, gate, kept, &mut lanes);
    work_all(rt, gate, thief, hands);
    get_back(rt, gate, owner, hands, bags, &mut lanes);
    lanes
}
