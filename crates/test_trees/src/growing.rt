//! Maps that grow (`ist_map`): a run that is asked for too many words, and one that is stopped.

use crate::judging::same;
use ist_core::{Command, Full};
use ist_map::{Hand, MOST_WORDS, Map, ReopenFault, Script, Stop};
use ist_tree::OpenFault;
use std::alloc::Global;
use std::thread::Threads;

// Runs one worker on a map that is asked for more words than a tree may have. Returns how the run ended, and the refusal
// of its worker.
fn run_beyond<R: Threads + Sync>(
    rt: &R,
    alloc: Global,
) -> Result<(Result<(), ReopenFault>, Option<Full>), OpenFault> {
    let closed = Map::open(alloc, 16, &[])?.into_closed();
    let mut shared = Map::new(alloc, closed, MOST_WORDS + 1);
    let mut hands = [Hand::new(Script::new(alloc, Vec::new(alloc))?)];
    let run = shared.run(rt, alloc, &mut hands);
    Ok((run, hands[0].refused()))
}

#[test]
fn a_run_that_is_asked_for_too_many_words_says_how_many(rt: HostRuntime) {
    let words = MOST_WORDS + 1;
    let wanted = (Err(ReopenFault::Beyond { words }), None);
    let seen = run_beyond(&rt, rt.alloc());
    same(&rt, &seen, &Ok(wanted), "the run, and its worker");
}

// Lets a worker that has a call to make run on a map, at first after a stop was requested. Returns whether the first run
// says so, and how many replies there were after each.
fn run_twice<R: Threads + Sync>(
    rt: &R,
    alloc: Global,
) -> Result<(bool, usize, usize), ReopenFault> {
    let mut shared = Map::open(alloc, 64, &[])?;
    let commands = [Command::Put { key: 1, value: 2 }].to_vec(alloc)?;
    let mut hands = [Hand::new(Script::new(alloc, commands)?)];
    let stop = Stop::new();
    stop.request();
    let asked = shared.run_until(rt, alloc, &mut hands, &stop)?;
    let first = hands[0].worker.replies().len();
    shared.run(rt, alloc, &mut hands)?;
    Ok((asked.is_some(), first, hands[0].worker.replies().len()))
}

#[test]
fn a_run_that_is_stopped_goes_on_in_the_next(rt: HostRuntime) {
    same(
        &rt,
        &run_twice(&rt, rt.alloc()),
        &Ok((true, 0, 1)),
        "stopped, and replies",
    );
}
