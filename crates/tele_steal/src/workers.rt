//! A worker: it takes a lane from the deque, runs it, and takes the next until the deque is empty.
ghost use Rattle.std.specs.Prelude.{◌≡◌, ◌<◌, ◌≤◌, ℕ, List, [], ◌++◌, ◌∷◌, map, take, drop, All, length, IfSome, IfNone, vec_capacity};
ghost use mathlib.Core.Option.{some};
ghost use lib.ListN.{get_elem?};
ghost use Rattle.crossbeam_deque.specs.Handles.{view, IsPassOf, stealer_deque, stealer_flavor};
ghost use Rattle.tele_steal.specs.Runs.{IsNewLane, IsRunLane, ticket};
ghost use Rattle.tele_steal.specs.Tallies.{Balances, HasTakenLanes, of_worker, taken_by};
ghost use Rattle.tele_steal.specs.declared.tallies.Tally.{Tally};
ghost use Rattle.tele_lanes.specs.declared.lanes.Lane.{Lane};

use crate::tallies::{DequeHand, Nothing, Take, Tally, Thief};
use crossbeam_deque::protocol::Lesson;
use crossbeam_deque::{Pass, Steal};
use ist_core::Port;
use std::sync::Wait;
use std::thread;
use std::thread::Threads;
use tele_lanes::{Gate, Lane, run_lanes};

/// Runs the lanes from `at` on; if there is one, it runs on this thread.
pub(crate) fn run_after<R: Threads + Wait + Sync, P: Port + Send, G: Gate + Sync>(
    rt: &R,
    gate: &G,
    lanes: &mut [Lane<P>],
    at: usize,
)
    requires within { at ≤ length lanes.old }
    requires fresh { All (IsNewLane P.calls P.refused) (drop at lanes.old) }
    ensures kept { take at lanes.new ≡ take at lanes.old }
    ensures tickets { map (ticket P.tie) lanes.new ≡ map (ticket P.tie) lanes.old }
    ensures ran { All (IsRunLane P.calls P.refused) (drop at lanes.new) }
{
    let (_, following) = lanes.split_at_mut(at);
    run_lanes(rt, gate, following);
}

/// Takes the first lane of the deque. `None` only if there was none at one moment.
pub(crate) fn steal_lane<R: Wait, P: Port, L: Lesson<Lane<P>, Tally<Lane<P>>>>(
    rt: &R,
    thief: &Thief<P>,
    pass: &mut Pass<Lane<P>, Tally<Lane<P>>>,
) -> Option<Lane<P>>
    requires table { IsPassOf (stealer_deque thief.now) pass.old }
    requires first_in { stealer_flavor thief.now ≡ 0 }
    requires worker { view pass.old ≡ of_worker (view pass.old).taken }
    requires lesson { (views : List (Tally (Lane P P.Tie))) (port : ℕ) (v : Tally (Lane P P.Tie))
        → Balances (IsNewLane P.calls P.refused) [] views
        → get_elem? views port ≡ some v → L.fact v [] }
    ensures table { IsPassOf (stealer_deque thief.now) pass.new }
    ensures taken { IfSome result (λ l.
        HasTakenLanes (IsNewLane P.calls P.refused) (view pass.old) (l ∷ []) (view pass.new)) }
    ensures same { IfNone result (view pass.new ≡ view pass.old) }
    ensures over { IfNone result (L.fact (view pass.new) []) }
{
    for _ in rt.forever() {
        match thief.steal_as::<Take<L>>(pass) {
            Steal::Success(lane) => return Some(lane),
            Steal::Empty => return None,
            // Another worker was faster.
            Steal::Retry => {}
        }
    }
    unreachable!()
}

/// Runs one lane on this thread, and appends it to the others.
pub(crate) fn run_into<R: Threads + Wait + Sync, P: Port + Send, G: Gate + Sync>(
    rt: &R,
    gate: &G,
    bag: &mut Vec<Lane<P>>,
    lane: Lane<P>,
)
    requires room { length bag.old.items < vec_capacity bag.old }
    requires fresh { IsNewLane P.calls P.refused lane }
    ensures tickets { map (ticket P.tie) bag.new.items
        ≡ map (ticket P.tie) bag.old.items ++ ticket P.tie lane ∷ [] }
    ensures ran { All (IsRunLane P.calls P.refused) bag.old.items
        → All (IsRunLane P.calls P.refused) bag.new.items }
    ensures room { vec_capacity bag.new ≡ vec_capacity bag.old }
{
    let at = bag.len();
    bag.push_reserved(lane);
    run_after(rt, gate, bag.as_mut_slice(), at);
}

/// Runs one worker: it takes lanes from the deque and runs them, until the deque is empty.
///
/// It ends only if at one moment there was no lane in the deque. At that moment it learns whatever
/// lesson is asked for.
pub(crate) fn work<
    R: Threads + Wait + Sync,
    P: Port + Send,
    G: Gate + Sync,
    L: Lesson<Lane<P>, Tally<Lane<P>>>,
>(rt: &R, gate: &G, thief: &Thief<P>, hand: &mut DequeHand<P>)
    requires table { IsPassOf (stealer_deque thief.now) hand.old.pass }
    requires first_in { stealer_flavor thief.now ≡ 0 }
    requires worker { view hand.old.pass ≡ of_worker [] }
    requires empty { hand.old.bag.items ≡ [] }
    requires room { 64 ≤ vec_capacity hand.old.bag }
    requires lesson { (views : List (Tally (Lane P P.Tie))) (port : ℕ) (v : Tally (Lane P P.Tie))
        → Balances (IsNewLane P.calls P.refused) [] views
        → get_elem? views port ≡ some v → L.fact v [] }
    ensures table { IsPassOf (stealer_deque thief.now) hand.new.pass }
    ensures worker { view hand.new.pass ≡ of_worker (view hand.new.pass).taken }
    ensures tickets { map (ticket P.tie) hand.new.bag.items
        ≡ map (ticket P.tie) (view hand.new.pass).taken }
    ensures ran { All (IsRunLane P.calls P.refused) hand.new.bag.items }
    ensures room { vec_capacity hand.new.bag ≡ vec_capacity hand.old.bag }
    ensures over { L.fact (view hand.new.pass) [] }
{
    for _ in rt.forever() {
        let Some(lane) = steal_lane::<R, P, L>(rt, thief, &mut hand.pass) else {
            return;
        };
        run_into(rt, gate, &mut hand.bag, lane);
    }
    unreachable!()
}

/// Runs the workers, each in its own thread if one can be started.
pub(crate) fn work_all<R: Threads + Wait + Sync, P: Port + Send, G: Gate + Sync>(
    rt: &R,
    gate: &G,
    thief: &Thief<P>,
    hands: &mut Vec<DequeHand<P>>,
)
    requires tables { All (λ h. IsPassOf (stealer_deque thief.now) h.pass) hands.old.items }
    requires first_in { stealer_flavor thief.now ≡ 0 }
    requires workers { All (λ h. view h.pass ≡ of_worker []) hands.old.items }
    requires empty { All (λ h. h.bag.items ≡ []) hands.old.items }
    requires room { All (λ h. 64 ≤ vec_capacity h.bag) hands.old.items }
    ensures count { length hands.new.items ≡ length hands.old.items }
    ensures tables { All (λ h. IsPassOf (stealer_deque thief.now) h.pass) hands.new.items }
    ensures workers { All (λ h. view h.pass ≡ of_worker (taken_by (view h.pass))) hands.new.items }
    ensures tickets { All (λ h. map (ticket P.tie) h.bag.items
        ≡ map (ticket P.tie) (taken_by (view h.pass))) hands.new.items }
    ensures ran { All (λ h. All (IsRunLane P.calls P.refused) h.bag.items) hands.new.items }
    ensures room { All (λ h. 64 ≤ vec_capacity h.bag) hands.new.items }
    ensures seats { vec_capacity hands.new ≡ vec_capacity hands.old }
{
    if !hands.is_empty() {
        let count = hands.len();
        thread::for_each_mut(
            rt,
            hands,
            count,
            &|_, hand: &mut DequeHand<P>|
                requires table { IsPassOf (stealer_deque thief.now) hand.now.pass }
                requires first_in { stealer_flavor thief.now ≡ 0 }
                requires worker { view hand.now.pass ≡ of_worker [] }
                requires empty { hand.now.bag.items ≡ [] }
                requires room { 64 ≤ vec_capacity hand.now.bag }
            {
                // It need not learn anything at the end.
                work::<R, P, G, Nothing>(rt, gate, thief, hand);
            },
        );
    }
}
