//! What each pass of the deque has put in and taken out, the rule over all of them, and what each
//! call learns.

use crossbeam_deque::protocol::{Join, Lesson, Outcome, Protocol, Split};
use crossbeam_deque::{Pass, Stealer, Worker};
use ist_core::Port;
use std::alloc::Global;
use std::collections::LinkedList;
use std::marker::PhantomData;
use tele_lanes::Lane;

/// What a pass of the deque knows. No value of it is made.
pub struct Tally<X> {
    /// Whether it is the pass of the deque's owner.
    pub owner: bool,
    /// How many passes of workers the owner has made and not taken back.
    pub out: u64,
    /// 1 for the pass of a worker, until it is taken back.
    pub busy: u64,
    /// What the owner put in, since it made the first of these passes.
    pub put: LinkedList<X>,
    /// What the owner has got back since.
    pub back: LinkedList<X>,
    /// What a worker took.
    pub taken: LinkedList<X>,
}

/// The rule that no lane is lost or doubled, and that those in the deque were not run.
pub struct Balance;

impl<P: Port> Protocol<Lane<P>, Tally<Lane<P>>> for Balance {
    ghost use Rattle.std.specs.Prelude.{[]};
    ghost use Rattle.tele_steal.specs.Runs.{IsNewLane};
    ghost use Rattle.tele_steal.specs.Tallies.{of_owner, of_none, Balances};

    ghost holds = { Balances (IsNewLane P.calls P.refused) };

    ghost first = { of_owner 0 [] [] };

    ghost guest = { of_none };
}

/// The owner makes the pass of a worker. It had got back all that it put in, and starts again.
pub(crate) struct Hire;

impl<X> Split<Tally<X>> for Hire {
    ghost use Rattle.std.specs.Prelude.{◌+◌, []};
    ghost use Rattle.tele_steal.specs.Tallies.{of_owner, of_worker};

    ghost left = { λ v. of_owner (v.out + 1) [] [] };

    ghost right = { λ v. of_worker [] };
}

/// The owner takes back the pass of a worker, with what it took.
pub(crate) struct Dismiss;

impl<X> Join<Tally<X>> for Dismiss {
    ghost use Rattle.std.specs.Prelude.{◌-◌, ◌++◌};
    ghost use Rattle.tele_steal.specs.Tallies.{of_owner, of_none};

    ghost both = { λ v w. of_owner (v.out - 1) v.put (v.back ++ w.taken) };

    ghost spent = { of_none };
}

/// The owner puts a lane in.
pub(crate) struct Put;

impl<P: Port> Outcome<Lane<P>, Tally<Lane<P>>> for Put {
    ghost use Rattle.std.specs.Prelude.{◌≡◌, ◌++◌};
    ghost use Rattle.tele_steal.specs.Tallies.{of_owner};

    ghost then = { λ v xs w. w ≡ of_owner v.out (v.put ++ xs) v.back };
}

/// A worker takes a lane. If there is none, it learns what `L` says of an empty deque.
pub(crate) struct Take<L> {
    lesson: PhantomData<L>,
}

impl<P: Port, L: Lesson<Lane<P>, Tally<Lane<P>>>> Outcome<Lane<P>, Tally<Lane<P>>> for Take<L> {
    ghost use Rattle.std.specs.Prelude.{[]};
    ghost use Rattle.tele_steal.specs.Runs.{IsNewLane};
    ghost use Rattle.tele_steal.specs.Tallies.{HasTakenLanes};

    ghost then = { HasTakenLanes (IsNewLane P.calls P.refused) };

    ghost empty = { λ v. L.fact v [] };
}

/// The owner takes a lane back. If there is none and no worker has a pass, all came back.
pub(crate) struct Draw;

impl<P: Port> Outcome<Lane<P>, Tally<Lane<P>>> for Draw {
    ghost use Rattle.std.specs.Prelude.{◌≡◌, []};
    ghost use Rattle.std.specs.List.Sorted.{IsPermutation};
    ghost use Rattle.tele_steal.specs.Runs.{IsNewLane};
    ghost use Rattle.tele_steal.specs.Tallies.{HasDrawn};

    ghost then = { HasDrawn (IsNewLane P.calls P.refused) };

    ghost empty = { λ v. v.out ≡ 0 → IsPermutation v.put v.back };
}

/// At most as much came back as was put in.
pub(crate) struct Count;

impl<P: Port> Lesson<Lane<P>, Tally<Lane<P>>> for Count {
    ghost use Rattle.std.specs.Prelude.{◌≤◌, length};

    ghost fact = { λ v items. length v.back ≤ length v.put };
}

/// Nothing.
pub(crate) struct Nothing;

impl<P: Port> Lesson<Lane<P>, Tally<Lane<P>>> for Nothing {
    ghost use Rattle.std.specs.Prelude.{⊤};

    ghost fact = { λ v items. ⊤ };
}

pub(crate) type Owner<P> = Worker<Lane<P>, Global, Tally<Lane<P>>, Balance>;

pub(crate) type Thief<P> = Stealer<Lane<P>, Global, Tally<Lane<P>>, Balance>;

/// What a worker has: its pass of the deque, and the lanes that it ran.
#[derive(Drop)]
pub(crate) struct DequeHand<P: Port> {
    pub pass: Pass<Lane<P>, Tally<Lane<P>>>,
    pub bag: Vec<Lane<P>>,
}
