//! Workers, as many as are asked for, that share a map which grows.
ghost use Rattle.std.specs.Prelude.{◌≡◌, ◌≤◌, [], length, map, All, IfOk, OnOk};
ghost use Rattle.ist_core.specs.Enabled.{caller_limit};
ghost use Rattle.ist_rest.specs.RestingWords.{HoldPairs};
ghost use Rattle.ist_map.specs.Running.{IsOneHistory};
ghost use Rattle.ist_map.specs.Scripts.{told_in};
ghost use Rattle.try_example.specs.Owners.{ReadsOwn};

use ist_core::{Command, Pair};
use ist_map::laws::{owners_read_back, runs_are_one_history};
use ist_map::{Hand, Map, ReopenFault, Script};
use std::alloc::{AllocError, Global};
use std::thread::Threads;

/// How many words the first tree has: too few for more than a handful of puts.
const WORDS: u32 = 64;

/// How many keys each worker puts.
const KEYS: u64 = 100;

/// Lets each worker make all of its calls, however often the map has to grow for them, and lists what
/// the map holds then.
///
/// Each worker has its own thread, if one can be started. If memory runs out, or `MOST_WORDS` words are
/// too few, no pair and no reply is lost, and `serve` may be called again: each worker goes on.
pub fn serve<R: Threads + Sync>(
    rt: &R,
    alloc: Global,
    shared: &mut Map,
    hands: &mut [Hand<Script>],
) -> Result<Vec<Pair>, ReopenFault>
    requires few { length hands.old ≤ caller_limit }
    // The calls of all workers are one legal history, which leads from what the map held to what it
    // holds. Each answered call is in it once, in its worker's order.
    ensures one { IsOneHistory shared.old.closed shared.new.closed
        (map (λ h. told_in h.worker.commands h.worker.replies) hands.old)
        (map (λ h. told_in h.worker.commands h.worker.replies) hands.new) }
    ensures answered { OnOk result
        (All (λ h. length h.worker.replies ≡ length h.worker.commands) hands.new) }
    ensures listed { IfOk result (λ pairs. HoldPairs shared.new.closed pairs.items) }
{
    runs_are_one_history();
    shared.run(rt, alloc, hands)?;
    Ok(shared.closed().pairs(alloc)?)
}

/// The same for workers that begin, and for a key that only one of them changes: its calls about the key
/// get the replies that they would get if no one else made a call, on all trees.
pub fn serve_owner<R: Threads + Sync>(
    rt: &R,
    alloc: Global,
    shared: &mut Map,
    hands: &mut [Hand<Script>],
    key: u64,
) -> Result<Vec<Pair>, ReopenFault>
    requires few { length hands.old ≤ caller_limit }
    requires begin { All (λ h. h.worker.replies ≡ []) hands.old }
    ensures reads { ReadsOwn shared.old.closed key
        (map (λ h. told_in h.worker.commands h.worker.replies) hands.new) }
{
    owners_read_back();
    serve(rt, alloc, shared, hands)
}

// The calls of a worker: it puts keys of its own, finds each, and removes every second one.
fn calls_of(alloc: Global, worker: u64) -> Result<Vec<Command>, AllocError> {
    let mut commands = Vec::new(alloc);
    for number in 0..KEYS {
        let key = worker.wrapping_mul(KEYS).wrapping_add(number);
        let value = key.wrapping_mul(3);
        commands.push(Command::Put { key, value })?;
        commands.push(Command::Get { key })?;
        if number % 2 == 1 {
            commands.push(Command::Remove { key })?;
        }
    }
    Ok(commands)
}

// Workers with their calls.
fn make_hands(alloc: Global, workers: u32) -> Result<Vec<Hand<Script>>, AllocError>
    ensures few { IfOk result (λ v. length v.items ≤ workers) }
{
    let mut hands = Vec::new(alloc);
    for worker in 0..workers {
        let commands = calls_of(alloc, u64::from(worker))?;
        hands.push(Hand::new(Script::new(alloc, commands)?))?;
    }
    Ok(hands)
}

/// Lets this many workers put, find and remove keys of their own on one map, and lists what is left.
pub fn serve_many<R: Threads + Sync>(
    rt: &R,
    alloc: Global,
    workers: u32,
) -> Result<Vec<Pair>, ReopenFault> {
    let mut hands = make_hands(alloc, workers)?;
    let mut shared = Map::open(alloc, WORDS, &[])?;
    serve(rt, alloc, &mut shared, hands.as_mut_slice())
}
