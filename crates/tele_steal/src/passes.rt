//! The owner's calls of the deque, one at a time, each with its effect on the owner's tally.
ghost use Rattle.std.specs.Prelude.{◌≡◌, ◌+◌, ◌-◌, ◌<◌, ◌≤◌, [], ◌∷◌, ◌++◌, length, IfSome, IfNone};
ghost use Rattle.std.specs.List.Sorted.{IsPermutation};
ghost use Rattle.crossbeam_deque.specs.Handles.{view, IsPassOf, SameWorker, worker_deque, worker_flavor, worker_view};
ghost use Rattle.tele_steal.specs.Runs.{IsNewLane};
ghost use Rattle.tele_steal.specs.Tallies.{IsOwners, HasDrawn, of_owner, of_worker};

use crate::tallies::{Count, Dismiss, Draw, Hire, Owner, Put, Tally};
use crossbeam_deque::Pass;
use ist_core::Port;
use tele_lanes::Lane;

/// Makes the pass of a worker. All that was put in before has come back, so the count starts again.
pub(crate) fn hire<P: Port>(owner: &mut Owner<P>) -> Pass<Lane<P>, Tally<Lane<P>>>
    requires owner { IsOwners (worker_view owner.old) }
    requires settled { IsPermutation (worker_view owner.old).put (worker_view owner.old).back }
    ensures same { SameWorker owner.old owner.new }
    ensures owner { worker_view owner.new ≡ of_owner ((worker_view owner.old).out + 1) [] [] }
    ensures table { IsPassOf (worker_deque owner.old) result }
    ensures worker { view result ≡ of_worker [] }
{
    owner.another::<Hire>()
}

/// Puts a lane in, or gives it back if the deque has no memory for it.
pub(crate) fn put<P: Port>(owner: &mut Owner<P>, lane: Lane<P>) -> Option<Lane<P>>
    requires owner { IsOwners (worker_view owner.old) }
    requires fresh { IsNewLane P.calls P.refused lane }
    requires few { length (worker_view owner.old).put < 64 }
    ensures same { SameWorker owner.old owner.new }
    ensures refused { IfSome result (λ l. l ≡ lane) }
    ensures unchanged { IfSome result (λ l. worker_view owner.new ≡ worker_view owner.old) }
    ensures put { IfNone result (worker_view owner.new ≡ of_owner (worker_view owner.old).out
        ((worker_view owner.old).put ++ lane ∷ []) (worker_view owner.old).back) }
{
    match owner.push_as::<Put>(lane) {
        Ok(()) => None,
        Err(lane) => Some(lane),
    }
}

/// Takes back the pass of a worker. At most as much came back as was put in.
pub(crate) fn dismiss<P: Port>(owner: &mut Owner<P>, pass: Pass<Lane<P>, Tally<Lane<P>>>)
    requires owner { IsOwners (worker_view owner.old) }
    requires table { IsPassOf (worker_deque owner.old) pass }
    requires worker { view pass ≡ of_worker (view pass).taken }
    ensures same { SameWorker owner.old owner.new }
    ensures owner { worker_view owner.new ≡ of_owner ((worker_view owner.old).out - 1)
        (worker_view owner.old).put ((worker_view owner.old).back ++ (view pass).taken) }
    ensures few { length (worker_view owner.new).back ≤ length (worker_view owner.new).put }
{
    owner.absorb::<Dismiss>(pass);
    owner.len_as::<Count>();
}

/// Takes a lane back from the deque. If there is none and no worker has a pass, all came back.
pub(crate) fn draw<P: Port>(owner: &mut Owner<P>) -> Option<Lane<P>>
    requires owner { IsOwners (worker_view owner.old) }
    requires first_in { worker_flavor owner.old ≡ 0 }
    ensures same { SameWorker owner.old owner.new }
    ensures drawn { IfSome result (λ l. HasDrawn (IsNewLane P.calls P.refused)
        (worker_view owner.old) (l ∷ []) (worker_view owner.new)) }
    ensures unchanged { IfNone result (worker_view owner.new ≡ worker_view owner.old) }
    ensures settled { IfNone result ((worker_view owner.old).out ≡ 0
        → IsPermutation (worker_view owner.old).put (worker_view owner.old).back) }
{
    owner.pop_as::<Draw>()
}
