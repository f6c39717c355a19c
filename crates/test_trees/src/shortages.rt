//! Ten puts in trees of each number of words, ample or not: what was answered is what is found.
ghost use Rattle.std.specs.Prelude.{◌≡◌, ◌≤◌};

use crate::asking::ask;
use crate::judging::same;
use crate::openings::close_by;
use Asked::{Find, Put};
use ist_core::{Full, Reply};
use ist_tree::{OpenFault, Pass, Tree};
use std::alloc::Global;
use std::process::Abort;
use test_tools::Asked;

// What came of ten puts of 1 to 10, each key with its own number as the value.
#[derive(Drop)]
struct Outcome {
    tenth: Result<Reply, Full>,
    rebuild: Option<Full>,
    eleventh: Result<Reply, Full>,
    used: u64,
    settled: bool,
    // whether each find, and the pairs at the close, are as the puts were answered
    agrees: bool,
}

// Puts 1 to 10. Gives the last answer, and whether each key is found just where its put was answered Ok.
fn put_ten(tree: &Tree, pass: &mut Pass) -> (Result<Reply, Full>, u64, bool)
    requires same_tree { pass.old.tree ≡ tree.now }
    ensures same_tree { pass.new.tree ≡ tree.now }
    ensures few { result.1 ≤ 10 }
{
    let mut last = Ok(None);
    let mut count = 0;
    let mut agrees = true;
    for key in 1..11 {
        last = ask(tree, pass, Put(key, key));
        if last.is_ok() {
            count += 1;
        }
        let wanted = if last.is_ok() { Some(key) } else { None };
        agrees = agrees && ask(tree, pass, Find(key)) == Ok(wanted);
    }
    (last, count, agrees)
}

// What was told of ten puts, and of an eleventh, if one was made.
#[derive(Drop)]
struct Told {
    tenth: Result<Reply, Full>,
    rebuild: Option<Full>,
    eleventh: Result<Reply, Full>,
    // how many pairs there are then
    count: u64,
    // whether each find is as the puts were answered
    agrees: bool,
}

// Ten puts, with an eleventh after them or not.
fn put_more(tree: &Tree, pass: &mut Pass, with_more: bool) -> Told
    requires same_tree { pass.old.tree ≡ tree.now }
    ensures same_tree { pass.new.tree ≡ tree.now }
{
    let (tenth, count, found) = put_ten(tree, pass);
    let rebuild = pass.rebuild_refused();
    let mut eleventh = Ok(None);
    let mut more = 0;
    if with_more {
        eleventh = ask(tree, pass, Put(11, 11));
        more = if eleventh.is_ok() { 1 } else { 0 };
    }
    let tenth_found = (ask(tree, pass, Find(10)) != Ok(None)) == tenth.is_ok();
    Told {
        tenth,
        rebuild,
        eleventh,
        count: count + more,
        agrees: found && tenth_found,
    }
}

// The same in a tree of so many words.
fn outcome_in(alloc: Global, words: u32, with_more: bool) -> Result<Outcome, OpenFault>
    requires least { 4 ≤ words }
    requires most { words ≤ 1000 }
{
    let (tree, mut maker) = Tree::open(alloc, words, &[])?;
    let mut pass = tree.pass(&mut maker);
    let told = put_more(&tree, &mut pass, with_more);
    let closed = close_by(tree, maker, pass);
    let agrees = told.agrees && closed.pairs(alloc)?.len() as u64 == told.count;
    Ok(Outcome {
        tenth: told.tenth,
        rebuild: told.rebuild,
        eleventh: told.eleventh,
        used: closed.used(),
        settled: closed.settled(),
        agrees,
    })
}

// Whether a tree of so many words agrees with what eleven puts were answered.
fn agrees_in(alloc: Global, words: u32) -> Result<bool, OpenFault>
    requires least { 4 ≤ words }
    requires most { words ≤ 1000 }
{
    let outcome = outcome_in(alloc, words, true)?;
    Ok(outcome.agrees)
}

#[test]
fn what_was_answered_stands_in_a_tree_of_any_size(rt: HostRuntime) {
    for words in 4..259 {
        same(&rt, &agrees_in(rt.alloc(), words), &Ok(true), words);
    }
}

// The last answer of ten puts, the refused rebuild, the words used, whether the tree is settled, and whether it agrees.
type Ten = (Result<Reply, Full>, Option<Full>, u64, bool, bool);

fn ten_in(alloc: Global, words: u32) -> Result<Ten, OpenFault>
    requires least { 4 ≤ words }
    requires most { words ≤ 1000 }
{
    let came = outcome_in(alloc, words, false)?;
    Ok((
        came.tenth,
        came.rebuild,
        came.used,
        came.settled,
        came.agrees,
    ))
}

// The last two answers of eleven puts, and whether the tree agrees.
type Eleven = (Result<Reply, Full>, Result<Reply, Full>, bool);

fn eleven_in(alloc: Global, words: u32) -> Result<Eleven, OpenFault>
    requires least { 4 ≤ words }
    requires most { words ≤ 1000 }
{
    let came = outcome_in(alloc, words, true)?;
    Ok((came.tenth, came.eleventh, came.agrees))
}

fn full(next: u64, asked: u64, words: u64) -> Full {
    Full { next, asked, words }
}

// Fails unless ten puts in a tree of so many words are answered, with this refused rebuild, and leave so many words used and
// the tree settled or not; and unless an eleventh is refused so.
fn is_left(
    rt: &impl Abort,
    alloc: Global,
    words: u32,
    rebuild: Option<Full>,
    eleventh: Full,
    used: u64,
    settled: bool,
)
    requires least { 4 ≤ words }
    requires most { words ≤ 1000 }
{
    let wanted = (Ok(None), rebuild, used, settled, true);
    same(rt, &ten_in(alloc, words), &Ok(wanted), words);
    let wanted = (Ok(None), Err(eleventh), true);
    same(rt, &eleven_in(alloc, words), &Ok(wanted), words);
}

// Fails unless ten puts in a tree of so many words are answered, with this refused rebuild; the same for the rest.
fn is_unsettled(rt: &impl Abort, alloc: Global, words: u32, rebuild: Full, eleventh: Full)
    requires least { 4 ≤ words }
    requires most { words ≤ 1000 }
{
    is_left(
        rt,
        alloc,
        words,
        Some(rebuild),
        eleventh,
        rebuild.next,
        false,
    );
}

#[test]
fn a_refused_rebuild_leaves_the_put_answered(rt: HostRuntime) {
    let alloc = rt.alloc();
    // the words, the refused rebuild, whose first free word ends those that are used, then a put of 11
    is_unsettled(&rt, alloc, 177, full(177, 5, 177), full(177, 2, 177));
    is_unsettled(&rt, alloc, 185, full(182, 9, 185), full(184, 7, 185));
    is_unsettled(&rt, alloc, 191, full(191, 9, 191), full(191, 9, 191));
    is_unsettled(&rt, alloc, 200, full(200, 7, 200), full(200, 9, 200));
    is_unsettled(&rt, alloc, 249, full(249, 9, 249), full(249, 9, 249));
    is_left(&rt, alloc, 258, None, full(258, 2, 258), 258, true);
}
