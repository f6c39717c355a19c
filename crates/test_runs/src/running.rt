//! A run over bytes in memory, and what a test asks of the trees that it leaves.
ghost use Rattle.std.specs.Prelude.{◌≡◌};

use ist_core::Pair;
use ist_rest::Closed;
use std::alloc::{AllocError, Global};
use std::sync::Wait;
use std::thread::Threads;
use tele_generations::Shelf;
use tele_io::{QuietSink, QuietSource, Sink, Source};
use tele_lanes::Gate;
use tele_run::{Outcome, run};

/// What a run wrote, and how it ended.
#[derive(Drop)]
pub(crate) struct Ran {
    pub out: QuietSink,
    pub outcome: Outcome,
}

/// Makes the command line of these arguments after the program's name.
fn command_words(alloc: Global, more: &[&str]) -> Result<Vec<String>, AllocError> {
    let mut words = Vec::new(alloc);
    words.push("tele".to_string(alloc)?)?;
    for word in more {
        words.push(word.to_string(alloc)?)?;
    }
    Ok(words)
}

/// Runs over this source and this sink, with these arguments after the program's name.
pub(crate) fn run_by<
    R: Threads + Wait + Sync,
    S: Source,
    O: Sink,
    G: Gate + Sync,
    H: Shelf<Closed>,
>(
    rt: &R,
    alloc: Global,
    more: &[&str],
    source: &mut S,
    out: &mut O,
    gate: &G,
    shelf: &mut H,
) -> Result<Outcome, AllocError> {
    let words = command_words(alloc, more)?;
    let outcome = run(rt, alloc, words.as_slice(), source, out, gate, shelf);
    Ok(outcome)
}

/// Runs over these bytes, with these arguments after the program's name.
pub(crate) fn run_over<R: Threads + Wait + Sync, G: Gate + Sync, H: Shelf<Closed>>(
    rt: &R,
    alloc: Global,
    more: &[&str],
    input: &[u8],
    gate: &G,
    shelf: &mut H,
) -> Result<Ran, AllocError> {
    let mut source = QuietSource::new(input.to_vec(alloc)?);
    let mut out = QuietSink::new(alloc);
    let outcome = run_by(rt, alloc, more, &mut source, &mut out, gate, shelf)?;
    Ok(Ran { out, outcome })
}

// Returns the pairs of a tree, if there is one.
fn pairs_in(alloc: Global, tree: Option<&Closed>) -> Result<Vec<Pair>, AllocError> {
    match tree {
        Some(tree) => tree.pairs(alloc),
        None => Ok(Vec::new(alloc)),
    }
}

/// Are these the pairs of the tree? Without a tree there are none.
pub(crate) fn has_pairs(
    alloc: Global,
    tree: Option<&Closed>,
    pairs: &[Pair],
) -> Result<bool, AllocError> {
    let kept = pairs_in(alloc, tree)?;
    Ok(kept.as_slice() == pairs)
}

/// Makes a key with the value 1.
pub(crate) fn one(key: u64) -> Pair
    ensures value { result ≡ record { key = key; value = 1 } }
{
    Pair { key, value: 1 }
}
