//! A yard: the deque, a pass and a bag for each worker, and the room that a run of lanes needs.
ghost use Rattle.std.specs.Prelude.{◌≡◌, ◌≤◌, [], IfOk, All, length, vec_capacity};

use crate::tallies::{DequeHand, Owner, Thief};
use ist_core::Port;
use std::alloc::{AllocError, Global};
use std::marker::Model;
use tele_lanes::Lane;

/// How many lanes fit in a bag, in room that was allocated before.
pub(crate) const LANES: usize = 64;

/// What some workers need to steal lanes from one another: a deque, and room for what each ran.
///
/// Contracts see for how many workers and lanes it is. It can be used any number of times.
#[derive(Drop)]
pub struct Yard<P: Port> {
    pub(crate) owner: Owner<P>,
    pub(crate) thief: Thief<P>,
    pub(crate) bags: Vec<Vec<Lane<P>>>,
    pub(crate) hands: Vec<DequeHand<P>>,
    pub(crate) kept: Vec<Lane<P>>,
    pub(crate) lanes: usize,
}

impl<P: Port> Model for Yard<P> {
    ghost use Rattle.std.specs.Prelude.{length, ◌≤◌};
    ghost use Rattle.tele_steal.specs.Yards.{YardRoom, IsReadyYard};

    ghost Value = { YardRoom };

    ghost view = { λ y. record { workers = length y.bags.items; lanes = y.lanes } };

    ghost invariant = { λ y.
        IsReadyYard y.owner y.thief y.bags.items y.hands y.kept × (y.lanes ≤ 64) };
}

impl<P: Port + Drop> Yard<P> {
    /// Makes a yard for `workers` workers and up to `lanes` lanes at a time. It allocates all
    /// memory that its runs need.
    pub fn with_room(alloc: Global, workers: u32, lanes: u32) -> Result<Yard<P>, AllocError>
        requires some_workers { 1 ≤ workers }
        requires workers_at_most { workers ≤ 64 }
        requires some_lanes { 1 ≤ lanes }
        requires lanes_at_most { lanes ≤ 64 }
        ensures workers { IfOk result (λ y. y.workers ≡ workers) }
        ensures lanes { IfOk result (λ y. y.lanes ≡ lanes) }
    {
        let owner = Owner::<P>::fifo_as(alloc, lanes as usize)?;
        let thief = owner.stealer()?;
        let bags = make_bags::<P>(alloc, workers as usize)?;
        Ok(Yard {
            owner,
            thief,
            bags,
            hands: Vec::with_capacity(alloc, workers as usize)?,
            kept: Vec::with_capacity(alloc, LANES)?,
            lanes: lanes as usize,
        })
    }
}

/// Makes an empty bag per worker, each with room for all lanes.
fn make_bags<P: Port + Drop>(alloc: Global, workers: usize) -> Result<Vec<Vec<Lane<P>>>, AllocError>
    ensures count { IfOk result (λ v. length v.items ≡ workers) }
    ensures empty { IfOk result (λ v. All (λ b. b.items ≡ []) v.items) }
    ensures wide { IfOk result (λ v. All (λ b. 64 ≤ vec_capacity b) v.items) }
{
    let mut bags = Vec::with_capacity(alloc, workers)?;
    while bags.len() < workers {
        let bag: Vec<Lane<P>> = Vec::with_capacity(alloc, LANES)?;
        bags.push_reserved(bag);
    }
    Ok(bags)
}
