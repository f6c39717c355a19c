//! Worked rows: what one pass is answered, and the words that it leaves.
ghost use Rattle.std.specs.Prelude.{◌≤◌};

use crate::asking::{ask, ask_each, find, find_when_told};
use crate::judging::same;
use crate::openings::{close_by, numbered};
use crate::shapes::is_ideal;
use Asked::{Find, Put, Remove};
use ist_core::{Full, Pair, Reply};
use ist_rest::Closed;
use ist_tree::{OpenFault, Tree};
use std::alloc::{AllocError, Global};
use test_tools::Asked;

// Opens a tree without pairs, asks it each in turn by one pass, and closes it. Gives the first of these
// that was answered otherwise than it is to be.
fn closed_after(
    alloc: Global,
    words: u32,
    cases: &[(Asked, Result<Reply, Full>)],
) -> Result<(Closed, Option<usize>), OpenFault>
    requires within { words ≤ 1000000 }
{
    let (tree, mut maker) = Tree::open(alloc, words, &[])?;
    let mut pass = tree.pass(&mut maker);
    let wrong = ask_each(&tree, &mut pass, cases);
    Ok((close_by(tree, maker, pass), wrong))
}

// The first of these that a tree of so many words is answered otherwise, and the words that it uses then.
fn used_after(
    alloc: Global,
    words: u32,
    cases: &[(Asked, Result<Reply, Full>)],
) -> Result<(Option<usize>, u64), OpenFault>
    requires within { words ≤ 1000000 }
{
    let (closed, wrong) = closed_after(alloc, words, cases)?;
    Ok((wrong, closed.used()))
}

#[test]
fn a_put_needs_eleven_words(rt: HostRuntime) {
    let full = Full {
        next: 6,
        asked: 9,
        words: 14,
    };
    let refused = [(Put(1, 1), Err(full)), (Find(1), Ok(None))];
    let found = used_after(rt.alloc(), 14, &refused);
    same(&rt, &found, &Ok((None, 6)), "14 words");
    let answered = [(Put(1, 1), Ok(None)), (Find(1), Ok(Some(1)))];
    let found = used_after(rt.alloc(), 15, &answered);
    same(&rt, &found, &Ok((None, 15)), "15 words");
}

// Whether these are the pairs of the closed tree from the first key to the last one.
fn has_list(
    alloc: Global,
    closed: &Closed,
    first: u64,
    last: u64,
    pairs: &[Pair],
) -> Result<bool, AllocError> {
    Ok(closed.list(alloc, first, last)?.as_slice() == pairs)
}

// Whether these are all pairs of the closed tree.
fn has_pairs(alloc: Global, closed: &Closed, pairs: &[Pair]) -> Result<bool, AllocError> {
    Ok(closed.pairs(alloc)?.as_slice() == pairs)
}

// The first of these that a tree of 53 words is answered otherwise, and the words that it uses then; whether it has both
// pairs, the second from 2 to 9, and none from 3 to 1.
type Left = (Option<usize>, u64, [Result<bool, AllocError>; 3]);

fn left_after(alloc: Global, cases: &[(Asked, Result<Reply, Full>)]) -> Result<Left, OpenFault> {
    let (closed, wrong) = closed_after(alloc, 53, cases)?;
    let both = [Pair { key: 1, value: 1 }, Pair { key: 2, value: 5 }];
    let lists = [
        has_pairs(alloc, &closed, &both),
        has_list(alloc, &closed, 2, 9, &both[1..]),
        has_list(alloc, &closed, 3, 1, &[]),
    ];
    Ok((wrong, closed.used(), lists))
}

#[test]
fn removed_keys_leave_their_slots(rt: HostRuntime) {
    let cases = [
        (Put(1, 1), Ok(None)),
        (Put(2, 2), Ok(None)),
        (Remove(2), Ok(Some(2))),
        (Remove(2), Ok(None)),
        (Put(2, 5), Ok(None)),
    ];
    let wanted = (None, 53, [Ok(true); 3]);
    same(
        &rt,
        &left_after(rt.alloc(), &cases),
        &Ok(wanted),
        "five updates",
    );
}

// Puts of 1 to 10, each key with its own number as the value, as a tree without pairs answers them.
fn ten_puts(alloc: Global) -> Result<Vec<(Asked, Result<Reply, Full>)>, AllocError> {
    let mut cases = Vec::new(alloc);
    for key in 1..=10 {
        cases.push((Put(key, key), Ok(None)))?;
    }
    Ok(cases)
}

// The tree of 1000 words after these puts.
fn closed_after_ten(alloc: Global) -> Result<(Closed, Option<usize>), OpenFault> {
    let cases = ten_puts(alloc)?;
    closed_after(alloc, 1000, &cases)
}

// Whether the pairs of a closed tree are 1 to 10, each with its own number as the value, and the tree over all of them
// is ideal, with counts of 0.
fn has_ten(alloc: Global, closed: &Closed) -> Result<(bool, bool), OpenFault> {
    let ten = numbered(alloc, 1, 11, 0)?;
    let all = has_pairs(alloc, closed, ten.pairs())?;
    Ok((all, is_ideal(alloc, closed, &ten)?))
}

// Whether those from 3 to 5 are listed so.
fn has_three(alloc: Global, closed: &Closed) -> Result<bool, AllocError> {
    let three = numbered(alloc, 3, 6, 0)?;
    has_list(alloc, closed, 3, 5, three.pairs())
}

// The first of ten puts that was answered otherwise, the words used after them, whether the tree is settled; whether it has the
// ten pairs and is ideal; and whether it lists three of them.
type Ten = (
    (Option<usize>, u64, bool),
    Result<(bool, bool), OpenFault>,
    Result<bool, AllocError>,
);

fn see_ten(alloc: Global) -> Result<Ten, OpenFault> {
    let (closed, wrong) = closed_after_ten(alloc)?;
    Ok((
        (wrong, closed.used(), closed.settled()),
        has_ten(alloc, &closed),
        has_three(alloc, &closed),
    ))
}

#[test]
fn the_tenth_put_rebuilds_the_first_pair_row(rt: HostRuntime) {
    let wanted = ((None, 258, true), Ok((true, true)), Ok(true));
    same(&rt, &see_ten(rt.alloc()), &Ok(wanted), "ten puts");
}

// What a put by one pass and a remove by another are answered; and what a pass finds that is told of the put, one that is
// told of the remove, and a third, whose maker is told.
type Told = ([Result<Reply, Full>; 2], [Reply; 3]);

fn told_in_turn(alloc: Global) -> Result<Told, OpenFault> {
    let (tree, mut maker) = Tree::open(alloc, 24, &[])?;
    let mut one = tree.pass(&mut maker);
    let mut two = tree.pass(&mut maker);
    let put = ask(&tree, &mut one, Put(1, 1));
    let found = find_when_told(&tree, &mut one, &mut two, 1);
    let removed = ask(&tree, &mut two, Remove(1));
    let gone = find_when_told(&tree, &mut two, &mut one, 1);
    let note = tree.note(&mut one);
    tree.learn(&mut maker, note);
    let mut three = tree.pass(&mut maker);
    let still = find(&tree, &mut three, 1);
    Ok(([put, removed], [found, gone, still]))
}

#[test]
fn passes_that_meet_see_what_each_has_done(rt: HostRuntime) {
    let wanted = ([Ok(None), Ok(Some(1))], [Some(1), None, None]);
    same(&rt, &told_in_turn(rt.alloc()), &Ok(wanted), "three passes");
}
