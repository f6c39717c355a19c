//! What the owner of the deque does: it makes the passes of the workers, puts the lanes in, and
//! gets all of them back.
ghost use Rattle.std.specs.Prelude.{◌≡◌, ◌+◌, ◌-◌, ◌<◌, ◌≤◌, List, [], ◌∷◌, ◌++◌, map, All, length, vec_capacity};
ghost use Rattle.std.specs.List.Sorted.{IsPermutation};
ghost use Rattle.crossbeam_deque.specs.Handles.{view, IsPassOf, SameWorker, worker_deque, worker_flavor, worker_view};
ghost use Rattle.tele_steal.specs.Runs.{IsNewLane, IsRunLane, Ticket, ticket};
ghost use Rattle.tele_steal.specs.Tallies.{IsOwners, of_owner, of_worker, taken_by};

use crate::passes::{dismiss, draw, hire, put};
use crate::tallies::{DequeHand, Owner};
use crate::workers::run_into;
use ist_core::Port;
use std::sync::Wait;
use std::thread::Threads;
use tele_lanes::{Gate, Lane};

/// Makes a pass for each bag. All that was put in before has come back, so the count starts again.
pub(crate) fn hire_all<P: Port>(
    owner: &mut Owner<P>,
    bags: &mut Vec<Vec<Lane<P>>>,
    hands: &mut Vec<DequeHand<P>>,
)
    requires owner { IsOwners (worker_view owner.old) }
    requires alone { (worker_view owner.old).out ≡ 0 }
    requires settled { IsPermutation (worker_view owner.old).put (worker_view owner.old).back }
    requires some { 0 < length bags.old.items }
    requires empty { All (λ b. b.items ≡ []) bags.old.items }
    requires wide { All (λ b. 64 ≤ vec_capacity b) bags.old.items }
    requires no_hands { hands.old.items ≡ [] }
    requires seats { length bags.old.items ≤ vec_capacity hands.old }
    ensures same { SameWorker owner.old owner.new }
    ensures owner { worker_view owner.new ≡ of_owner (length bags.old.items) [] [] }
    ensures no_bags { bags.new.items ≡ [] }
    ensures bag_room { vec_capacity bags.new ≡ vec_capacity bags.old }
    ensures hand_room { vec_capacity hands.new ≡ vec_capacity hands.old }
    ensures count { length hands.new.items ≡ length bags.old.items }
    ensures tables { All (λ h. IsPassOf (worker_deque owner.old) h.pass) hands.new.items }
    ensures workers { All (λ h. view h.pass ≡ of_worker []) hands.new.items }
    ensures empty { All (λ h. h.bag.items ≡ []) hands.new.items }
    ensures wide { All (λ h. 64 ≤ vec_capacity h.bag) hands.new.items }
{
    while let Some(bag) = bags.pop() {
        let pass = hire(owner);
        hands.push_reserved(DequeHand { pass, bag });
    }
}

/// Puts a lane into the deque, or keeps it if the deque has no memory for it.
fn put_or_keep<P: Port>(owner: &mut Owner<P>, lane: Lane<P>, kept: &mut Vec<Lane<P>>)
    requires owner { IsOwners (worker_view owner.old) }
    requires fresh { IsNewLane P.calls P.refused lane }
    requires few { length (worker_view owner.old).put < 64 }
    requires room { length kept.old.items < vec_capacity kept.old }
    ensures same { SameWorker owner.old owner.new }
    ensures owner { worker_view owner.new ≡ of_owner (worker_view owner.old).out
        (worker_view owner.new).put (worker_view owner.old).back }
    ensures shared { IsPermutation (((worker_view owner.old).put ++ kept.old.items) ++ lane ∷ [])
        ((worker_view owner.new).put ++ kept.new.items) }
    ensures fresh { All (IsNewLane P.calls P.refused) kept.old.items
        → All (IsNewLane P.calls P.refused) kept.new.items }
    ensures few { length (worker_view owner.new).put ≤ length (worker_view owner.old).put + 1 }
    ensures kept_few { length kept.new.items ≤ length kept.old.items + 1 }
    ensures room { vec_capacity kept.new ≡ vec_capacity kept.old }
{
    match put(owner, lane) {
        Some(lane) => kept.push_reserved(lane),
        None => {}
    }
}

/// Puts the lanes into the deque, the last one first. Keeps those that the deque has no memory for.
pub(crate) fn put_in<P: Port>(
    owner: &mut Owner<P>,
    lanes: &mut Vec<Lane<P>>,
    kept: &mut Vec<Lane<P>>,
)
    requires owner { IsOwners (worker_view owner.old) }
    requires fresh { All (IsNewLane P.calls P.refused) lanes.old.items }
    requires few { length (worker_view owner.old).put + length lanes.old.items ≤ 64 }
    requires none_kept { kept.old.items ≡ [] }
    requires room { length lanes.old.items ≤ vec_capacity kept.old }
    ensures same { SameWorker owner.old owner.new }
    ensures owner { worker_view owner.new ≡ of_owner (worker_view owner.old).out
        (worker_view owner.new).put (worker_view owner.old).back }
    ensures shared { IsPermutation ((worker_view owner.old).put ++ lanes.old.items)
        ((worker_view owner.new).put ++ kept.new.items) }
    ensures fresh { All (IsNewLane P.calls P.refused) kept.new.items }
    ensures none_left { lanes.new.items ≡ [] }
    ensures lane_room { vec_capacity lanes.new ≡ vec_capacity lanes.old }
    ensures room { vec_capacity kept.new ≡ vec_capacity kept.old }
{
    while let Some(lane) = lanes.pop() {
        put_or_keep(owner, lane, kept);
    }
}

/// Runs the lanes that were kept, on this thread.
pub(crate) fn run_kept<R: Threads + Wait + Sync, P: Port + Send, G: Gate + Sync>(
    rt: &R,
    gate: &G,
    kept: &mut Vec<Lane<P>>,
    lanes: &mut Vec<Lane<P>>,
)
    requires fresh { All (IsNewLane P.calls P.refused) kept.old.items }
    requires none { lanes.old.items ≡ [] }
    requires room { length kept.old.items ≤ vec_capacity lanes.old }
    ensures tickets { IsPermutation (map (ticket P.tie) kept.old.items)
        (map (ticket P.tie) lanes.new.items) }
    ensures ran { All (IsRunLane P.calls P.refused) lanes.new.items }
    ensures none_kept { kept.new.items ≡ [] }
    ensures lane_room { vec_capacity lanes.new ≡ vec_capacity lanes.old }
    ensures room { vec_capacity kept.new ≡ vec_capacity kept.old }
{
    while let Some(lane) = kept.pop() {
        run_into(rt, gate, lanes, lane);
    }
}

/// Takes back the pass of a worker, and the lanes that it ran. Returns its empty bag.
fn take_hand<P: Port>(
    owner: &mut Owner<P>,
    hand: DequeHand<P>,
    lanes: &mut Vec<Lane<P>>,
) -> Vec<Lane<P>>
    requires owner { IsOwners (worker_view owner.old) }
    requires table { IsPassOf (worker_deque owner.old) hand.pass }
    requires worker { view hand.pass ≡ of_worker (view hand.pass).taken }
    requires tickets { map (ticket P.tie) hand.bag.items
        ≡ map (ticket P.tie) (view hand.pass).taken }
    requires ran { All (IsRunLane P.calls P.refused) hand.bag.items }
    requires room { length lanes.old.items + length (worker_view owner.old).put
        ≤ vec_capacity lanes.old + length (worker_view owner.old).back }
    ensures same { SameWorker owner.old owner.new }
    ensures owner { worker_view owner.new ≡ of_owner ((worker_view owner.old).out - 1)
        (worker_view owner.old).put ((worker_view owner.old).back ++ (view hand.pass).taken) }
    ensures tickets { map (ticket P.tie) lanes.new.items ≡ map (ticket P.tie) lanes.old.items
        ++ map (ticket P.tie) (view hand.pass).taken }
    ensures ran { All (IsRunLane P.calls P.refused) lanes.old.items
        → All (IsRunLane P.calls P.refused) lanes.new.items }
    ensures room { vec_capacity lanes.old ≤ vec_capacity lanes.new }
    ensures empty { result.items ≡ [] }
    ensures wide { vec_capacity result ≡ vec_capacity hand.bag }
{
    let DequeHand { pass, mut bag } = hand;
    // At most as much came back as was put in, so there is room for it.
    dismiss(owner, pass);
    match lanes.append(&mut bag) {
        Ok(()) => bag,
        Err(_) => unreachable!(),
    }
}

/// Runs the lanes still in the deque, on this thread, until it is empty; then all came back.
///
/// A worker ends only if the deque was empty at one moment, but nothing that it returns can say so
/// later. So the owner looks itself.
fn draw_all<R: Threads + Wait + Sync, P: Port + Send, G: Gate + Sync>(
    rt: &R,
    gate: &G,
    owner: &mut Owner<P>,
    lanes: &mut Vec<Lane<P>>,
)
    requires owner { IsOwners (worker_view owner.old) }
    requires alone { (worker_view owner.old).out ≡ 0 }
    requires first_in { worker_flavor owner.old ≡ 0 }
    requires ran { All (IsRunLane P.calls P.refused) lanes.old.items }
    requires room { length lanes.old.items + length (worker_view owner.old).put
        ≤ vec_capacity lanes.old + length (worker_view owner.old).back }
    ensures same { SameWorker owner.old owner.new }
    ensures owner { worker_view owner.new
        ≡ of_owner 0 (worker_view owner.old).put (worker_view owner.new).back }
    ensures settled { IsPermutation (worker_view owner.new).put (worker_view owner.new).back }
    ensures tickets { (kept : List (Ticket P.Tie)) → map (ticket P.tie) lanes.old.items
        ≡ kept ++ map (ticket P.tie) (worker_view owner.old).back
        → map (ticket P.tie) lanes.new.items
        ≡ kept ++ map (ticket P.tie) (worker_view owner.new).back }
    ensures ran { All (IsRunLane P.calls P.refused) lanes.new.items }
{
    for _ in rt.forever() {
        let Some(lane) = draw(owner) else {
            return;
        };
        run_into(rt, gate, lanes, lane);
    }
    unreachable!()
}

/// Takes back the pass of each worker, with the lanes that it ran, and runs the lanes still in the
/// deque; then all came back.
pub(crate) fn get_back<R: Threads + Wait + Sync, P: Port + Send, G: Gate + Sync>(
    rt: &R,
    gate: &G,
    owner: &mut Owner<P>,
    hands: &mut Vec<DequeHand<P>>,
    bags: &mut Vec<Vec<Lane<P>>>,
    lanes: &mut Vec<Lane<P>>,
)
    requires owner { IsOwners (worker_view owner.old) }
    requires first_in { worker_flavor owner.old ≡ 0 }
    requires count { (worker_view owner.old).out ≡ length hands.old.items }
    requires none_back { (worker_view owner.old).back ≡ [] }
    requires tables { All (λ h. IsPassOf (worker_deque owner.old) h.pass) hands.old.items }
    requires workers { All (λ h. view h.pass ≡ of_worker (taken_by (view h.pass))) hands.old.items }
    requires tickets { All (λ h. map (ticket P.tie) h.bag.items
        ≡ map (ticket P.tie) (taken_by (view h.pass))) hands.old.items }
    requires ran { All (λ h. All (IsRunLane P.calls P.refused) h.bag.items) hands.old.items }
    requires wide { All (λ h. 64 ≤ vec_capacity h.bag) hands.old.items }
    requires no_bags { bags.old.items ≡ [] }
    requires bag_room { length hands.old.items ≤ vec_capacity bags.old }
    requires lanes_ran { All (IsRunLane P.calls P.refused) lanes.old.items }
    requires lane_room { length lanes.old.items + length (worker_view owner.old).put
        ≤ vec_capacity lanes.old }
    ensures same { SameWorker owner.old owner.new }
    ensures owner { worker_view owner.new
        ≡ of_owner 0 (worker_view owner.old).put (worker_view owner.new).back }
    ensures settled { IsPermutation (worker_view owner.old).put (worker_view owner.new).back }
    ensures tickets { map (ticket P.tie) lanes.new.items ≡ map (ticket P.tie) lanes.old.items
        ++ map (ticket P.tie) (worker_view owner.new).back }
    ensures ran { All (IsRunLane P.calls P.refused) lanes.new.items }
    ensures no_hands { hands.new.items ≡ [] }
    ensures hand_room { vec_capacity hands.new ≡ vec_capacity hands.old }
    ensures bags { length bags.new.items ≡ length hands.old.items }
    ensures empty { All (λ b. b.items ≡ []) bags.new.items }
    ensures wide { All (λ b. 64 ≤ vec_capacity b) bags.new.items }
{
    while let Some(hand) = hands.pop() {
        let bag = take_hand(owner, hand, lanes);
        bags.push_reserved(bag);
    }
    draw_all(rt, gate, owner, lanes);
}
