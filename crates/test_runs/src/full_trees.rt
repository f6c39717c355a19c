//! Trees that run full, number by number.
ghost use Rattle.std.specs.Prelude.{◌≡◌, ◌+◌, ◌≤◌, ◌^◌, length, map};
ghost use Rattle.std.specs.List.Sorted.{IsStrictlyIncreasing};
ghost use Rattle.ist_core.specs.declared.commands.Command.TheVariants.{Put};
ghost use Rattle.tele_lanes.specs.Lines.{task_lines};
ghost use Rattle.tele_generations.specs.Tables.{MayRun, RanNext, RunsTables};

use crate::judging::same;
use crate::running::{Ran, has_pairs, one, run_over};
use ist_core::{Command, Full, Pair};
use ist_image::Image;
use ist_rest::Closed;
use std::alloc::{AllocError, Global};
use std::process::Abort;
use std::sync::Wait;
use std::thread::Threads;
use tele_generations::{Generation, Kept, NoShelf, Round, RoundState, run_round};
use tele_lanes::{Answer, NoGate, Task};
use tele_run::run_on_tree;

/// One worker, and 64 words at most in a first tree.
const SMALL: [&str; 4] = ["--workers", "1", "--words", "64"];

/// Makes a put of 1 at a key, in the line with its number.
fn put(key: u64) -> Task
    ensures value { result ≡ record { line = key; command = Put key 1 } }
{
    Task {
        line: key,
        command: Command::Put { key, value: 1 },
    }
}

/// Returns the size of a tree and how much of it was used.
fn size(tree: &Closed) -> (u64, u64) {
    (tree.word_count(), tree.used())
}

/// What a test sees of a round and of the shelf after it.
#[derive(Debug, PartialEq, Drop)]
struct ShelfAfter {
    /// How many trees ran full, and the refusal of the first.
    fulls: (usize, Option<Full>),
    /// How many answers there are, and the last of them.
    answers: (usize, Option<Answer>),
    /// The size of the first tree on the shelf, and whether it has the expected pairs.
    first: (Option<(u64, u64)>, bool),
    /// Is it the only tree on the shelf?
    alone: bool,
    /// The size of the last tree, and whether it has the expected pairs.
    last: ((u64, u64), bool),
}

// Returns what a test sees of the round, if the first tree should have the first pairs and the last
// tree the last.
fn see(
    alloc: Global,
    shelf: &Kept<Closed>,
    round: &Round,
    pairs: (&[Pair], &[Pair]),
) -> Result<ShelfAfter, AllocError> {
    let fulls = round.fulls.as_slice();
    let answers = round.answers.as_slice();
    let first = has_pairs(alloc, shelf.get(0), pairs.0)?;
    let last = round.closed.pairs(alloc)?;
    Ok(ShelfAfter {
        fulls: (fulls.len(), fulls.first().copied()),
        answers: (answers.len(), answers.last().copied()),
        first: (shelf.get(0).map(size), first),
        alone: shelf.get(1).is_none(),
        last: (size(&round.closed), last.as_slice() == pairs.1),
    })
}

// Runs a round by one worker, whose first tree has 64 words at most.
fn see_round<F: FnMut(&RoundState, u32, bool) -> Result<Generation, AllocError>>(
    alloc: Global,
    tables: &mut F,
    shelf: &mut Kept<Closed>,
    pairs: &[Pair],
    tasks: &[Task],
    kept: (&[Pair], &[Pair]),
) -> Result<ShelfAfter, AllocError>
    requires tables { RunsTables F.pre F.post }
    requires keys { IsStrictlyIncreasing (map (λ pair. pair.key) pairs.now) }
    requires lines { IsStrictlyIncreasing (task_lines tasks.now) }
    requires few { length pairs.now + length tasks.now ≤ 2 ^ 24 }
{
    let round = run_round(tables, shelf, alloc, pairs, tasks, 1, 64, false)?;
    see(alloc, shelf, &round, kept)
}

// Does the same with a new shelf.
fn see_small<R: Threads + Wait + Sync>(
    rt: &R,
    alloc: Global,
    pairs: &[Pair],
    tasks: &[Task],
    kept: (&[Pair], &[Pair]),
) -> Result<ShelfAfter, AllocError>
    requires keys { IsStrictlyIncreasing (map (λ pair. pair.key) pairs.now) }
    requires lines { IsStrictlyIncreasing (task_lines tasks.now) }
    requires few { length pairs.now + length tasks.now ≤ 2 ^ 24 }
{
    let mut image = Image::new(alloc);
    let mut tables = |way: &RoundState, workers: u32, steal: bool| -> Result<Generation, AllocError>
        requires may { MayRun way.now workers }
        ensures ran { RanNext way.now workers steal result }
    { run_on_tree(rt, &NoGate, alloc, &mut image, way, workers, steal) };
    let mut shelf = Kept::new();
    see_round(alloc, &mut tables, &mut shelf, pairs, tasks, kept)
}

#[test]
fn a_fourth_put_finds_no_room_in_64_words(rt: HostRuntime) {
    let tasks = [put(1), put(2), put(3), put(4)];
    let pairs = [one(1), one(2), one(3), one(4)];
    let seen = see_small(&rt, rt.alloc(), &[], &tasks, (&pairs[..3], &pairs));
    // 4 words precede all rows, and three puts take 11, 18 and 18; the fourth has its leaf and its
    // pair row, which are 9, and asks for 9 more
    let full = Full {
        next: 60,
        asked: 9,
        words: 64,
    };
    let answer = Answer {
        line: 4,
        reply: None,
    };
    let wanted = ShelfAfter {
        fulls: (1, Some(full)),
        answers: (4, Some(answer)),
        first: (Some((64, 60)), true),
        alone: true,
        last: ((128, 42), true),
    };
    same(&rt, &seen, &Ok(wanted), "the round");
}

#[test]
fn a_line_that_finds_no_room_is_answered_at_rest(rt: HostRuntime) {
    let pairs = [one(1), one(2), one(3), one(4), one(5), one(6), one(7)];
    let all = [
        one(1),
        one(2),
        one(3),
        one(4),
        one(5),
        one(6),
        one(7),
        one(8),
    ];
    let task = Task {
        line: 9,
        command: Command::Put { key: 8, value: 1 },
    };
    let seen = see_small(&rt, rt.alloc(), &pairs, &[task], (&pairs, &all));
    let full = Full {
        next: 62,
        asked: 7,
        words: 64,
    };
    let answer = Answer {
        line: 9,
        reply: None,
    };
    // no lane has a line on the last tree: it is as it was opened
    let wanted = ShelfAfter {
        fulls: (1, Some(full)),
        answers: (1, Some(answer)),
        first: (Some((64, 62)), true),
        alone: true,
        last: ((128, 69), true),
    };
    same(&rt, &seen, &Ok(wanted), "the round");
}

/// A tree's number of words, how many of them are used, and its highest key, if it has all keys from 1
/// to that one, each with the value 1, and no other.
type Shape = (u64, u64, Option<usize>);

// Returns the highest key of these pairs, if they are all keys from 1 on, each with the value 1.
fn highest(pairs: &[Pair]) -> Option<usize> {
    for (i, pair) in pairs.iter().enumerate() {
        if *pair != one(i as u64 + 1) {
            return None;
        }
    }
    Some(pairs.len())
}

// Returns the shape of a tree, if there is one.
fn shape_of(alloc: Global, tree: Option<&Closed>) -> Result<Option<Shape>, AllocError> {
    let Some(tree) = tree else {
        return Ok(None);
    };
    let pairs = tree.pairs(alloc)?;
    Ok(Some((tree.word_count(), tree.used(), highest(pairs.as_slice()))))
}

/// Of a run, whether it wrote the expected output, its status and how many trees ran full; the
/// shapes of the first four trees of its shelf, and of its last tree.
type Shown = ((bool, u8, u64), [Option<Shape>; 4], Option<Shape>);

// Returns the shapes of all trees after a run that should have written this output.
fn show(
    alloc: Global,
    shelf: &Kept<Closed>,
    ran: &Ran,
    output: &[u8],
) -> Result<Shown, AllocError> {
    let kept = [
        shape_of(alloc, shelf.get(0))?,
        shape_of(alloc, shelf.get(1))?,
        shape_of(alloc, shelf.get(2))?,
        shape_of(alloc, shelf.get(3))?,
    ];
    let last = shape_of(alloc, ran.outcome.last.as_ref())?;
    let wrote = ran.out.bytes() == output;
    Ok(((wrote, ran.outcome.status, ran.outcome.fulls), kept, last))
}

// Runs over the input.
fn show_small<R: Threads + Wait + Sync>(
    rt: &R,
    alloc: Global,
    input: &[u8],
    output: &[u8],
) -> Result<Shown, AllocError> {
    let mut shelf = Kept::new();
    let ran = run_over(rt, alloc, &SMALL, input, &NoGate, &mut shelf)?;
    show(alloc, &shelf, &ran, output)
}

#[test]
fn each_tree_of_a_run_but_the_last_is_kept(rt: HostRuntime) {
    let alloc = rt.alloc();
    let small = Some((64, 60, Some(3)));
    // the trees that are kept, the last one; each put takes 18 words
    let input = b"P 1 1\nP 2 1\nP 3 1\nP 4 1\n";
    let shown = show_small(&rt, alloc, input, b"1 -\n2 -\n3 -\n4 -\n");
    let kept = [small, None, None, None];
    let wanted = ((true, 0, 1), kept, Some((128, 42, Some(4))));
    same(&rt, &shown, &Ok(wanted), "one round");
    let input = b"P 1 1\nP 2 1\nP 3 1\nP 4 1\nP 5 1\nP 6 1\nP 7 1\nI 0 0\nP 8 1\n";
    let output = b"1 -\n2 -\n3 -\n4 -\n5 -\n6 -\n7 -\n8 0\n9 -\n";
    let shown = show_small(&rt, alloc, input, output);
    let kept = [
        small,
        Some((128, 96, Some(7))),
        Some((64, 62, Some(7))),
        None,
    ];
    let wanted = ((true, 0, 1), kept, Some((128, 69, Some(8))));
    same(&rt, &shown, &Ok(wanted), "two rounds");
}

// Returns the status of a run over the input, and how many trees of its last round with point lines
// ran full.
fn ending<R: Threads + Wait + Sync>(
    rt: &R,
    alloc: Global,
    input: &[u8],
) -> Result<(u8, u64), AllocError> {
    let ran = run_over(rt, alloc, &SMALL, input, &NoGate, &mut NoShelf)?;
    Ok((ran.outcome.status, ran.outcome.fulls))
}

// Fails unless a run over the input has this status, and so many trees of its last round with point lines ran full.
fn ends<R: Threads + Wait + Sync + Abort>(
    rt: &R,
    alloc: Global,
    input: &[u8],
    status: u8,
    fulls: u64,
) {
    same(rt, &ending(rt, alloc, input), &Ok((status, fulls)), input);
}

#[test]
fn the_last_round_with_point_lines_says_how_many_trees_ran_full(rt: HostRuntime) {
    let alloc = rt.alloc();
    // the input, the status, how many trees of the last round with point lines ran full
    ends(&rt, alloc, b"", 0, 0);
    ends(&rt, alloc, b"I 0 9\n", 0, 0);
    ends(&rt, alloc, b"P 1 1\nP 2 1\nP 3 1\n", 0, 0);
    ends(&rt, alloc, b"P 1 1\nP 2 1\nP 3 1\nP 4 1\n", 0, 1);
    ends(&rt, alloc, b"P 1 1\nP 2 1\nP 3 1\nP 4 1\nI 0 9\n", 0, 1);
    ends(
        &rt,
        alloc,
        b"P 1 1\nP 2 1\nP 3 1\nP 4 1\nI 0 9\nI 0 9\n# end\n",
        0,
        1,
    );
    ends(&rt, alloc, b"P 1 1\nP 2 1\nP 3 1\nP 4 1\nI 0 9\nX\n", 3, 1);
    ends(&rt, alloc, b"P 1 1\nP 2 1\nP 3 1\nP 4 1\nX\n", 3, 1);
}

#[test]
fn each_round_with_point_lines_takes_the_place_of_the_one_before(rt: HostRuntime) {
    let alloc = rt.alloc();
    ends(
        &rt,
        alloc,
        b"P 1 1\nP 2 1\nP 3 1\nP 4 1\nI 0 9\nG 1\n",
        0,
        0,
    );
    ends(
        &rt,
        alloc,
        b"P 1 1\nP 2 1\nP 3 1\nP 4 1\nI 0 9\nP 1 2\nI 0 9\n",
        0,
        0,
    );
    ends(
        &rt,
        alloc,
        b"P 1 1\nI 0 9\nP 2 1\nP 3 1\nP 4 1\nP 5 1\n",
        0,
        1,
    );
    ends(
        &rt,
        alloc,
        b"G 1\nI 0 9\nP 1 1\nP 2 1\nP 3 1\nP 4 1\nI 5 5\n",
        0,
        1,
    );
}
