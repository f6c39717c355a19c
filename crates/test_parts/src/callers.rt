//! A caller that reserves, tokens that part and meet, and two threads that reserve until the table is full.
ghost use Rattle.ist_rows.specs.Rows.{IsCaller, IsAtTable};

use crate::judging::same;
use crate::tables::empty_table;
use ist_core::Full;
use ist_layout::NEXT_PLACE;
use ist_rows::{Caller, Kind, enter, fill, reserve};
use ist_rule::{TreeTable, close, join as join_seats, load, split};
use std::alloc::{AllocError, Global};
use std::thread::{Threads, join};

// What the caller is told that reserves a leaf row twice.
fn reserve_twice(table: &TreeTable, who: &mut Caller) -> (Result<u32, Full>, Result<u32, Full>)
    requires caller { IsAtTable table.now IsCaller who.old }
    ensures caller { IsAtTable table.now IsCaller who.new }
{
    let leaf = reserve(table, who, Kind::Leaf);
    (leaf, reserve(table, who, Kind::Leaf))
}

// What the caller is told that reserves a change row. If it holds a leaf row, it puts 9 at the key 1 there.
fn reserve_and_fill(table: &TreeTable, who: &mut Caller) -> Result<u32, Full>
    requires caller { IsAtTable table.now IsCaller who.old }
{
    let change = reserve(table, who, Kind::Change);
    if let Some(base) = who.leaf {
        fill(table, who, base, 1, 9);
    }
    change
}

// What is seen in a table of 14 words: the numbers of two callers; what the first one is told that reserves a leaf row twice, and
// the next row then; what it is told of a change row; and the leaf's value and the next row in the closed table.
type ReservedTwice = (
    (u32, u32),
    (Result<u32, Full>, Result<u32, Full>),
    u64,
    Result<u32, Full>,
    (u64, u64),
);

fn see_reserved(alloc: Global) -> Result<ReservedTwice, AllocError> {
    let (table, mut maker) = empty_table(alloc, 14)?;
    let mut first = enter(&table, &mut maker);
    let second = enter(&table, &mut maker);
    let numbers = (first.number, second.number);
    let leaves = reserve_twice(&table, &mut first);
    let next = load(&table, &mut maker, NEXT_PLACE);
    let change = reserve_and_fill(&table, &mut first);
    let closed = close(table, maker);
    let words = (closed.word(5), closed.word(NEXT_PLACE as usize));
    closed.free();
    Ok((numbers, leaves, next, change, words))
}

#[test]
fn a_caller_reserves_a_leaf_once_and_is_refused_a_change(rt: HostRuntime) {
    let full = Full {
        next: 6,
        asked: 9,
        words: 14,
    };
    let wanted = ((0, 1), (Ok(4), Ok(4)), 6, Err(full), (9, 6));
    same(&rt, &see_reserved(rt.alloc()), &Ok(wanted), "14 words");
}

// The leaf row that one caller reserves, the number of the next caller, and the next free word, once two tokens have met whose
// logs are of different length.
fn meet_in_14(alloc: Global) -> Result<(Result<u32, Full>, u32, u64), AllocError> {
    let (table, mut maker) = empty_table(alloc, 14)?;
    let mut first = enter(&table, &mut maker);
    let short = split(&table, &mut maker);
    let leaf = reserve(&table, &mut first, Kind::Leaf);
    let long = split(&table, &mut first.token);
    join_seats(&table, &mut maker, long);
    join_seats(&table, &mut first.token, short);
    let second = enter(&table, &mut maker);
    let next = load(&table, &mut first.token, NEXT_PLACE);
    Ok((leaf, second.number, next))
}

#[test]
fn logs_of_different_length_meet(rt: HostRuntime) {
    same(&rt, &meet_in_14(rt.alloc()), &Ok((Ok(4), 1, 6)), "the two");
}

// The row that a caller reserved, if there were words, and how many words it has.
type Reserved = (Option<u32>, u64);

// Reserves one row of each kind, as far as there are words.
fn reserve_each(table: &TreeTable, who: Caller) -> [Reserved; 4]
    requires caller { IsAtTable table.now IsCaller who }
{
    let mut who = who;
    let leaf = reserve(table, &mut who, Kind::Leaf).ok();
    let pair = reserve(table, &mut who, Kind::Pair).ok();
    let change = reserve(table, &mut who, Kind::Change).ok();
    let rebuild = reserve(table, &mut who, Kind::Rebuild).ok();
    [(leaf, 2), (pair, 7), (change, 9), (rebuild, 5)]
}

// Returns how many of the rows have a word at this place.
fn rows_over(rows: &[Reserved; 4], place: u64) -> u64 {
    let mut count = 0u64;
    for (base, words) in rows {
        if let Some(base) = base {
            let base = u64::from(*base);
            if base <= place && place - base < *words {
                count = count.wrapping_add(1);
            }
        }
    }
    count
}

// Was a row refused?
fn is_refused(rows: &[Reserved; 4]) -> bool {
    for (base, _) in rows {
        if base.is_none() {
            return true;
        }
    }
    false
}

// The first place of a table of 20 words that isn't in one of these rows, though it is from 4 on and before the next free word,
// or that is in one otherwise.
fn first_wrong(left: &[Reserved; 4], right: &[Reserved; 4], next: u64) -> Option<u64> {
    for place in 0..20 {
        let over = rows_over(left, place).wrapping_add(rows_over(right, place));
        let wanted = if place >= 4 && place < next { 1 } else { 0 };
        if over != wanted {
            return Some(place);
        }
    }
    None
}

// The first such place after two threads reserved all that they could, and whether each was refused a row.
fn reserve_beside<R: Threads + Sync>(
    rt: &R,
    alloc: Global,
) -> Result<(Option<u64>, bool, bool), AllocError> {
    let (table, mut maker) = empty_table(alloc, 20)?;
    let one = enter(&table, &mut maker);
    let two = enter(&table, &mut maker);
    let (left, right) = join(
        rt,
        ||
            requires caller { IsAtTable table IsCaller one }
        { reserve_each(&table, one) },
        ||
            requires caller { IsAtTable table IsCaller two }
        { reserve_each(&table, two) },
    );
    let next = load(&table, &mut maker, NEXT_PLACE);
    let wrong = first_wrong(&left, &right, next);
    Ok((wrong, is_refused(&left), is_refused(&right)))
}

#[test]
fn two_threads_reserve_until_the_table_is_full(rt: HostRuntime) {
    let seen = reserve_beside(&rt, rt.alloc());
    same(&rt, &seen, &Ok((None, true, true)), "20 words");
}
