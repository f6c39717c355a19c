//! Workers and their passes: each gets the pass with its number on a tree, works, and gives it back.
ghost use Rattle.std.specs.Prelude.{◌≡◌, ◌+◌, ◌++◌, ◌<◌, ◌≤◌, ◌∷◌, [], List, length, map};
ghost use Rattle.std.specs.Prelude.{false, All, None, IfErr, IfOk, IfSome, is_some};
ghost use Rattle.std.specs.List.{list_any, range_with_len};
ghost use Rattle.ist_core.specs.Enabled.{caller_limit};
ghost use Rattle.ist_core.specs.Logs.{GoesOn};
ghost use Rattle.ist_core.specs.Replies.{Answered};
ghost use Rattle.ist_core.specs.Resting.{told_by_call};
ghost use Rattle.ist_map.specs.Hands.{IsHired, IsOn, pass_number, calls_by, seen_by, HaveWorked};
ghost use Rattle.ist_map.specs.Hands.{first_stop};
ghost use Rattle.ist_map.specs.Refusing.{IsRefusalOn, WasRefusedSince};

use crate::stops::{Stop, StopRequest};
use ist_core::Full;
use ist_tree::{Maker, Pass, Tree};
use std::thread;
use std::thread::Threads;

/// What a worker does on a tree, and then on the next one if the tree runs full.
pub trait Worker {
    // what it was told by all calls that it has made, in order
    ghost told: { Self → List Answered };
    // it has nothing left to do
    ghost is_done: { Self → Type 0 };

    /// Makes calls on the tree by this pass, which has made none, until there is nothing left to do
    /// (`Ok(None)`), a stop is requested, or a call is refused.
    ///
    /// `Err` asks for another tree with the same pairs and more words, since a call by this pass was
    /// refused, or a rebuild after one. `work` is called again there, with a new pass, and goes on
    /// with the call that was refused. The run waits for each worker, also after another one was
    /// refused: so a worker that waits for others asks `stop` meanwhile.
    fn work(
        &mut self,
        tree: &Tree,
        pass: &mut Pass,
        stop: &Stop,
    ) -> Result<Option<StopRequest>, Full>
        requires same_tree { pass.old.tree ≡ tree.now }
        requires no_calls { pass.old.calls ≡ [] }
        ensures same_tree { pass.new.tree ≡ tree.now }
        ensures number { pass.new.number ≡ pass.old.number }
        ensures told { told self.new ≡ told self.old ++ map told_by_call pass.new.calls }
        ensures done { IfOk result (λ asked. asked ≡ None → is_done self.new) }
        ensures unasked { IfOk result (λ asked. stop.now.can_stop ≡ false → asked ≡ None) }
        ensures refused { pass.old.refused ≡ None
            → IfErr result (WasRefusedSince pass.old pass.new.seen) };
}

/// A worker, with its pass while there is a tree to work on.
#[derive(Drop)]
pub struct Hand<W: Worker> {
    pub worker: W,
    pass: Option<Pass>,
    refused: Option<Full>,
    stopped: Option<StopRequest>,
}

impl<W: Worker> Hand<W> {
    /// Takes on a worker. Allocates nothing.
    pub fn new(worker: W) -> Hand<W>
        ensures worker { result.worker ≡ worker }
    {
        Hand {
            worker,
            pass: None,
            refused: None,
            stopped: None,
        }
    }

    /// Returns what its worker was refused when it stopped last, if it stopped since it was refused.
    pub fn refused(&self) -> Option<Full>
        ensures value { result ≡ self.now.refused }
    {
        self.refused
    }

    // Gives it the next pass of the tree.
    fn hire(&mut self, tree: &Tree, maker: &mut Maker)
        requires same_tree { maker.old.tree ≡ tree.now }
        requires few { maker.old.made < caller_limit }
        ensures worker { self.new.worker ≡ self.old.worker }
        ensures hired { IsHired tree.now self.new.pass }
        ensures number { pass_number self.new.pass ≡ maker.old.made }
        ensures same_tree { maker.new.tree ≡ maker.old.tree }
        ensures made { maker.new.made ≡ maker.old.made + 1 }
        ensures taken { maker.new.taken ≡ maker.old.taken }
    {
        self.pass = Some(tree.pass(maker));
    }

    // Lets the worker work on the tree.
    fn work(&mut self, tree: &Tree, stop: &Stop)
        requires hired { IsHired tree.now self.old.pass }
        ensures on_tree { IsOn tree.now self.new.pass }
        ensures number { pass_number self.new.pass ≡ pass_number self.old.pass }
        ensures told { W.told self.new.worker
            ≡ W.told self.old.worker ++ map told_by_call (calls_by self.new.pass).calls }
        ensures done { self.new.refused ≡ None → self.new.stopped ≡ None
            → W.is_done self.new.worker }
        ensures unasked { stop.now.can_stop ≡ false → self.new.stopped ≡ None }
        ensures refused { IfSome self.new.refused (IsRefusalOn tree.now (seen_by self.new.pass)) }
    {
        if let Some(mut pass) = self.pass.take() {
            let ended = self.worker.work(tree, &mut pass, stop);
            self.pass = Some(pass);
            match ended {
                Ok(asked) => {
                    self.stopped = asked;
                    self.refused = None;
                }
                Err(full) => {
                    self.stopped = None;
                    self.refused = Some(full);
                }
            }
        }
    }

    // Gives its pass back to the maker.
    fn dismiss(&mut self, tree: &Tree, maker: &mut Maker)
        requires same_tree { maker.old.tree ≡ tree.now }
        requires on_tree { IsOn tree.now self.old.pass }
        ensures worker { self.new.worker ≡ self.old.worker }
        ensures refused { self.new.refused ≡ self.old.refused }
        ensures left { self.new.stopped ≡ self.old.stopped }
        ensures same_tree { maker.new.tree ≡ maker.old.tree }
        ensures made { maker.new.made ≡ maker.old.made }
        ensures taken { maker.new.taken ≡ calls_by self.old.pass ∷ maker.old.taken }
        ensures seen { GoesOn maker.old.seen maker.new.seen }
        ensures pass_seen { GoesOn (seen_by self.old.pass) maker.new.seen }
    {
        if let Some(pass) = self.pass.take() {
            tree.take_back(maker, pass);
        }
    }
}

// Gives each its pass, in their order.
pub(crate) fn hire_all<W: Worker>(tree: &Tree, maker: &mut Maker, hands: &mut [Hand<W>])
    requires same_tree { maker.old.tree ≡ tree.now }
    requires few { maker.old.made + length hands.old ≤ caller_limit }
    ensures told { map (λ h. W.told h.worker) hands.new ≡ map (λ h. W.told h.worker) hands.old }
    ensures hired { All (λ h. IsHired tree.now h.pass) hands.new }
    ensures numbers { map (λ h. pass_number h.pass) hands.new
        ≡ range_with_len maker.old.made (length hands.old) }
    ensures same_tree { maker.new.tree ≡ maker.old.tree }
    ensures made { maker.new.made ≡ maker.old.made + length hands.old }
    ensures taken { maker.new.taken ≡ maker.old.taken }
{
    if let Some((first, rest)) = hands.split_first_mut() {
        first.hire(tree, maker);
        hire_all(tree, maker, rest);
    }
}

// Lets all work, each on its own thread if one can be started.
pub(crate) fn work_all<R: Threads + Sync, W: Worker + Send>(
    rt: &R,
    tree: &Tree,
    hands: &mut [Hand<W>],
    stop: &Stop,
)
    requires hired { All (λ h. IsHired tree.now h.pass) hands.old }
    ensures on_tree { All (λ h. IsOn tree.now h.pass) hands.new }
    ensures numbers { map (λ h. pass_number h.pass) hands.new
        ≡ map (λ h. pass_number h.pass) hands.old }
    ensures told { HaveWorked (map (λ h. W.told h.worker) hands.old)
        (map (λ h. (calls_by h.pass).calls) hands.new) (map (λ h. W.told h.worker) hands.new) }
    ensures done { All (λ h. h.refused ≡ None → h.stopped ≡ None → W.is_done h.worker) hands.new }
    ensures unasked { All (λ h. stop.now.can_stop ≡ false → h.stopped ≡ None) hands.new }
    ensures refused { All (λ h. IfSome h.refused (IsRefusalOn tree.now (seen_by h.pass))) hands.new }
{
    // `for_each_mut` requires at least one thread. It starts none if there are no workers.
    let count = hands.len().max(1);
    thread::for_each_mut(rt, hands, count, &|_, hand| hand.work(tree, stop));
}

// Gives all passes back, the last one first.
pub(crate) fn dismiss_all<W: Worker>(tree: &Tree, maker: &mut Maker, hands: &mut [Hand<W>])
    requires same_tree { maker.old.tree ≡ tree.now }
    requires on_tree { All (λ h. IsOn tree.now h.pass) hands.old }
    ensures told { map (λ h. W.told h.worker) hands.new ≡ map (λ h. W.told h.worker) hands.old }
    ensures done { All (λ h. h.refused ≡ None → h.stopped ≡ None → W.is_done h.worker) hands.old
        → All (λ h. h.refused ≡ None → h.stopped ≡ None → W.is_done h.worker) hands.new }
    ensures left { map (λ h. h.stopped) hands.new ≡ map (λ h. h.stopped) hands.old }
    ensures same_tree { maker.new.tree ≡ maker.old.tree }
    ensures made { maker.new.made ≡ maker.old.made }
    ensures taken { maker.new.taken ≡ map (λ h. calls_by h.pass) hands.old ++ maker.old.taken }
    ensures seen { GoesOn maker.old.seen maker.new.seen }
    ensures refused { All (λ h. IfSome h.refused (IsRefusalOn tree.now (seen_by h.pass))) hands.old
        → All (λ h. IfSome h.refused (IsRefusalOn tree.now maker.new.seen)) hands.new }
{
    if let Some((first, rest)) = hands.split_first_mut() {
        dismiss_all(tree, maker, rest);
        first.dismiss(tree, maker);
    }
}

// Whether a worker stopped because a call was refused.
pub(crate) fn has_refused<W: Worker>(hands: &[Hand<W>]) -> bool
    ensures none { result ≡ false → All (λ h. h.refused ≡ None) hands.now }
    ensures value { result ≡ list_any (λ h. is_some h.refused) hands.now }
{
    hands.iter().any(|hand| hand.refused.is_some())
}

// The request by which the first worker stopped that did so.
pub(crate) fn left<W: Worker>(hands: &[Hand<W>]) -> Option<StopRequest>
    ensures value { result ≡ first_stop (map (λ h. h.stopped) hands.now) }
{
    let (first, rest) = hands.split_first()?;
    match first.stopped {
        None => left(rest),
        asked => asked,
    }
}
