//! Lanes of a run that wait for one another, and the trees of such a run.

use crate::judging::same;
use crate::running::{Ran, has_pairs, one, run_over};
use ist_core::Pair;
use ist_rest::{Closed, WordList};
use std::alloc::{AllocError, Global};
use std::sync::Wait;
use std::sync::atomic::{AtomicU64, Ordering};
use std::thread::Threads;
use tele_generations::{Kept, NoShelf};
use tele_lanes::{Gate, NoGate};

/// Two rounds: the first has lines for both of two lanes, the second for one.
const INPUT: &[u8] = b"P 2 1\nP 3 1\nI 2 2\nP 4 1\n";

const OUTPUT: &[u8] = b"1 -\n2 -\n3 1\n2 1\n4 -\n";

/// Makes the first calls of lane 0 and lane 1 wait for each other, for at most `turns` turns.
#[derive(Drop)]
struct Meeting {
    first: AtomicU64,
    second: AtomicU64,
    turns: u32,
    // how often the last turn was reached
    missed: AtomicU64,
}

impl Meeting {
    fn of_turns(turns: u32) -> Meeting {
        Meeting {
            first: AtomicU64::new(0),
            second: AtomicU64::new(0),
            turns,
            missed: AtomicU64::new(0),
        }
    }

    // Raises one flag, and waits for the other.
    fn meet(&self, mine: &AtomicU64, theirs: &AtomicU64) {
        mine.store(1, Ordering::SeqCst);
        for _ in 0..self.turns {
            if theirs.load(Ordering::SeqCst) == 1 {
                return;
            }
        }
        self.missed.fetch_add(1, Ordering::SeqCst);
    }

    // Returns both flags, and how often the last turn was reached.
    fn told(&self) -> (u64, u64, u64) {
        (
            self.first.load(Ordering::SeqCst),
            self.second.load(Ordering::SeqCst),
            self.missed.load(Ordering::SeqCst),
        )
    }
}

impl Gate for Meeting {
    fn before(&self, lane: u32, index: u64) {
        match (lane, index) {
            (0, 0) => self.meet(&self.first, &self.second),
            (1, 0) => self.meet(&self.second, &self.first),
            _ => {}
        }
    }

    fn after(&self, lane: u32, index: u64) {}
}

/// Runs over these bytes with these arguments; a lane waits for at most `turns` turns. Returns
/// whether it wrote the output, its status, both flags, and how often the last turn was reached.
pub(crate) fn see_meeting<R: Threads + Wait + Sync>(
    rt: &R,
    alloc: Global,
    more: &[&str],
    turns: u32,
    input: &[u8],
    output: &[u8],
) -> Result<(bool, u8, (u64, u64, u64)), AllocError> {
    let gate = Meeting::of_turns(turns);
    let ran = run_over(rt, alloc, more, input, &gate, &mut NoShelf)?;
    Ok((ran.out.bytes() == output, ran.outcome.status, gate.told()))
}

#[test]
fn the_lanes_of_a_round_run_beside_each_other(rt: HostRuntime) {
    let more = ["--workers", "2"];
    let seen = see_meeting(&rt, rt.alloc(), &more, 100_000_000, INPUT, OUTPUT);
    same(&rt, &seen, &Ok((true, 0, (1, 1, 0))), "two lanes");
}

#[test]
fn one_lane_alone_waits_in_vain_in_each_round(rt: HostRuntime) {
    let more = ["--workers", "1"];
    let seen = see_meeting(&rt, rt.alloc(), &more, 1_000, INPUT, OUTPUT);
    same(&rt, &seen, &Ok((true, 0, (1, 0, 2))), "one lane");
}

// Returns how many words a tree has, and whether these are its pairs.
fn words_and_pairs(
    alloc: Global,
    tree: Option<&Closed>,
    pairs: &[Pair],
) -> Result<(Option<u64>, bool), AllocError> {
    let has = has_pairs(alloc, tree, pairs)?;
    Ok((tree.map(|tree| tree.word_count()), has))
}

/// Of a run, whether it wrote the output, and its status; of its first tree, how many words and callers
/// it has, and whether it has the pairs of its round; whether no further tree is kept; of the last tree,
/// how many words it has, and whether it has all pairs.
type MetTrees = (
    (bool, u8),
    (Option<u64>, bool),
    Option<u64>,
    bool,
    (Option<u64>, bool),
);

// Returns what a test sees of the trees after the run over the two rounds.
fn see_trees(alloc: Global, shelf: &Kept<Closed>, ran: &Ran) -> Result<MetTrees, AllocError> {
    let pairs = [one(2), one(3), one(4)];
    let first = words_and_pairs(alloc, shelf.get(0), &pairs[..2])?;
    let last = words_and_pairs(alloc, ran.outcome.last.as_ref(), &pairs)?;
    Ok((
        (ran.out.bytes() == OUTPUT, ran.outcome.status),
        first,
        shelf.get(0).map(callers),
        shelf.get(1).is_none(),
        last,
    ))
}

// Runs over the two rounds by two workers.
fn keep_trees<R: Threads + Wait + Sync>(rt: &R, alloc: Global) -> Result<MetTrees, AllocError> {
    let more = ["--workers", "2"];
    let mut shelf = Kept::new();
    let ran = run_over(rt, alloc, &more, INPUT, &NoGate, &mut shelf)?;
    see_trees(alloc, &shelf, &ran)
}

#[test]
fn the_tree_of_each_round_is_kept(rt: HostRuntime) {
    let first = (Some(2_052), true);
    let last = (Some(1_039), true);
    let wanted = ((true, 0), first, Some(2), true, last);
    same(&rt, &keep_trees(&rt, rt.alloc()), &Ok(wanted), "the trees");
}

/// Returns how many callers a tree says it had, in its word 1.
pub(crate) fn callers(tree: &Closed) -> u64 {
    if tree.word_count() > 1 {
        return tree.word(1);
    }
    0
}
