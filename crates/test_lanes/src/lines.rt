//! Lines read from bytes, what is printed for them, and the map of one thread, call by call.
ghost use Rattle.std.specs.Prelude.{◌<◌};

use crate::judging::same;
use ist_core::{Command, Pair, Reply};
use plain_map::Plain;
use std::alloc::{AllocError, Global};
use std::process::Abort;
use tele_io::{MemorySink, MemorySource, SinkFault};
use tele_lines::{
    Cause, Item, Line, LineFault, Lines, Version, print_answer, print_bad, print_interval,
    print_pairs,
};

// What a call of `next` returns.
type Next = Result<Option<Line>, LineFault>;

fn asks(number: u64, item: Item) -> Next {
    Ok(Some(Line { number, item }))
}

fn put(number: u64, key: u64, value: u64) -> Next {
    asks(number, Item::Point(Command::Put { key, value }))
}

fn get(number: u64, key: u64) -> Next {
    asks(number, Item::Point(Command::Get { key }))
}

fn remove(number: u64, key: u64) -> Next {
    asks(number, Item::Point(Command::Remove { key }))
}

fn interval(number: u64, first: u64, last: u64) -> Next {
    asks(number, Item::Interval { first, last })
}

fn bad(line: u64, cause: Cause) -> Next {
    Err(LineFault::Bad { line, cause })
}

// Returns the number of the first call of `next` that returns something else than expected.
fn first_other_call(lines: &mut Lines, source: &mut MemorySource, calls: &[Next]) -> Option<usize> {
    for (i, expected) in calls.iter().enumerate() {
        if lines.next(source) != *expected {
            return Some(i);
        }
    }
    None
}

// The same for a new reader, over bytes that come in pieces of this size, with these reads failing.
fn first_other_line(
    alloc: Global,
    bytes: &[u8],
    piece: usize,
    fails: &[u64],
    calls: &[Next],
) -> Result<Option<usize>, AllocError>
    requires some { 0 < piece }
{
    let mut source = MemorySource::new(bytes.to_vec(alloc)?, piece, fails.to_vec(alloc)?);
    let mut lines = Lines::new(1_000);
    Ok(first_other_call(&mut lines, &mut source, calls))
}

// Returns the first size of pieces, of 1, 2, 3 and more than all, in which a call returns something
// else than expected.
fn first_other_piece(
    alloc: Global,
    bytes: &[u8],
    calls: &[Next],
) -> Result<Option<(usize, usize)>, AllocError> {
    for piece in [1usize, 2, 3, 1_000] {
        if let Some(call) = first_other_line(alloc, bytes, piece.max(1), &[], calls)? {
            return Ok(Some((piece, call)));
        }
    }
    Ok(None)
}

// Fails unless the calls of `next` return these, in whatever pieces the bytes come.
fn reads(rt: &impl Abort, alloc: Global, bytes: &[u8], calls: &[Next]) {
    same(
        rt,
        &first_other_piece(alloc, bytes, calls),
        &Ok(None),
        bytes,
    );
}

#[test]
fn good_lines_come_by_their_numbers_until_the_input_ends(rt: HostRuntime) {
    let alloc = rt.alloc();
    let end = Ok(None);
    // the input, what each call of `next` returns
    reads(&rt, alloc, b"", &[end, end]);
    let (point, all) = ([put(1, 5, 7), get(2, 5)], interval(4, 0, 10));
    let calls = [point[0], point[1], remove(3, 5), all, end, end];
    reads(&rt, alloc, b"P 5 7\nG 5\nR 5\nI 0 10\n", &calls);
    reads(&rt, alloc, b"# note\r\n\nG 1", &[get(3, 1), end]);
    let all = interval(1, u64::MAX, 3);
    reads(&rt, alloc, b"I 18446744073709551615 3", &[all, end]);
}

#[test]
fn long_lines_and_signed_numbers_are_read(rt: HostRuntime) {
    // the input, what each call of `next` returns
    let long = b"P 000000000000000000000000000000000000000000000000000000000000000000000000000\
        5 7\r\n";
    reads(&rt, rt.alloc(), long, &[put(1, 5, 7), Ok(None)]);
    let signed = b"V 2\nP -1 0\nG 9223372036854775807\n";
    let calls = [put(2, (1 << 63) - 1, 1 << 63), get(3, u64::MAX), Ok(None)];
    reads(&rt, rt.alloc(), signed, &calls);
}

#[test]
fn a_bad_line_ends_the_reading(rt: HostRuntime) {
    let alloc = rt.alloc();
    // the input, what each call of `next` returns; the last is returned again and again
    let letter = bad(2, Cause::Letter);
    let calls = [put(1, 1, 1), letter, letter];
    reads(&rt, alloc, b"P 1 1\nX 2\nP 3 3\n", &calls);
    reads(&rt, alloc, b"G 1\nV 2\n", &[get(1, 1), letter]);
    let fields = bad(1, Cause::Fields);
    reads(&rt, alloc, b"P 1", &[fields, fields]);
    let number = bad(1, Cause::Number);
    reads(&rt, alloc, b"P 1 x\n", &[number]);
    reads(&rt, alloc, b"P 18446744073709551616 1\n", &[number]);
    let number = bad(3, Cause::Number);
    reads(&rt, alloc, b"V 2\n\nG 9223372036854775808", &[number]);
    let long = b"P 0000000000000000000000000000000000000000000000000000000000000000000000000000\
        5 7\nG 1\n";
    let cause = bad(1, Cause::Long);
    reads(&rt, alloc, long, &[cause, cause]);
}

// What a call of `next` returns if two lines are allowed.
fn next_of_two(alloc: Global, bytes: &[u8]) -> Result<Next, AllocError> {
    let mut source = MemorySource::new(bytes.to_vec(alloc)?, 3, Vec::new(alloc));
    let mut lines = Lines::new(2);
    Ok(lines.next(&mut source))
}

#[test]
fn a_line_beyond_the_limit_is_bad(rt: HostRuntime) {
    let third = next_of_two(rt.alloc(), b"\n\nG 1\n");
    same(&rt, &third, &Ok(bad(3, Cause::Lines)), "the third line");
    let none = next_of_two(rt.alloc(), b"\n\n");
    same(&rt, &none, &Ok(Ok(None)), "two lines");
}

// Fails unless the calls of `next` return these, while the bytes come in pieces of this size and these reads fail.
fn goes_on(rt: &impl Abort, alloc: Global, piece: usize, fails: &[u64], calls: &[Next]) {
    let other = first_other_line(alloc, b"P 5 7\nG 5", piece.max(1), fails, calls);
    same(rt, &other, &Ok(None), piece);
}

#[test]
fn a_reader_goes_on_after_a_failed_read(rt: HostRuntime) {
    let alloc = rt.alloc();
    let (first, second) = (put(1, 5, 7), get(2, 5));
    let (failed, end) = (Err(LineFault::Read), Ok(None));
    // the size of pieces, which reads fail, what each call of `next` returns
    goes_on(&rt, alloc, 1, &[3], &[failed, first, second, end]);
    goes_on(&rt, alloc, 3, &[3], &[first, failed, second, end]);
    let calls = [first, failed, failed, second, end];
    goes_on(&rt, alloc, 100, &[1, 2], &calls);
}

#[test]
fn each_reply_has_its_line(rt: HostRuntime) {
    let pairs = [
        Pair { key: 1, value: 2 },
        Pair {
            key: 1 << 63,
            value: 0,
        },
    ];
    let mut out = MemorySink::new(rt.alloc(), Vec::new(rt.alloc()));
    let printed = [
        print_answer(&mut out, Version::One, 17, Some(1200)),
        print_answer(&mut out, Version::One, 18, None),
        print_answer(&mut out, Version::Two, 19, Some(1200)),
        print_interval(&mut out, Version::One, 20, &pairs),
        print_interval(&mut out, Version::One, 21, &[]),
        print_pairs(&mut out, Version::Two, &pairs),
        print_bad(&mut out, 22, Cause::Long),
        print_bad(&mut out, 23, Cause::Letter),
        print_bad(&mut out, 24, Cause::Fields),
        print_bad(&mut out, 25, Cause::Number),
        print_bad(&mut out, u64::MAX, Cause::Lines),
    ];
    same(&rt, &printed, &[Ok(()); 11], "the replies");
    let text: &[u8] = b"17 1200\n18 -\n19 -9223372036854774608\n\
        20 2\n1 2\n9223372036854775808 0\n21 0\n\
        -9223372036854775807 -9223372036854775806\n0 -9223372036854775808\n\
        ! 22 long\n! 23 letter\n! 24 fields\n! 25 number\n! 18446744073709551615 lines\n";
    same(&rt, &out.bytes(), &text, "the text");
}

// How the printing of two pairs ends if the write of this number fails, and whether this is written before it.
fn print_failing(
    alloc: Global,
    fails: u64,
    before: &[u8],
) -> Result<(Result<(), SinkFault>, bool), AllocError> {
    let pairs = [Pair { key: 1, value: 2 }, Pair { key: 3, value: 4 }];
    let mut out = MemorySink::new(alloc, [fails].to_vec(alloc)?);
    let printed = print_interval(&mut out, Version::One, 9, &pairs);
    Ok((printed, out.bytes() == before))
}

#[test]
fn a_failed_write_leaves_the_lines_before_it(rt: HostRuntime) {
    // which write fails, what is written before it
    let rows: [(u64, &[u8]); 3] = [(0, b""), (1, b"9 2\n"), (2, b"9 2\n1 2\n")];
    for (fails, before) in rows {
        let printed = print_failing(rt.alloc(), fails, before);
        same(&rt, &printed, &Ok((Err(SinkFault::Failed), true)), fails);
    }
}

#[test]
fn a_map_of_one_thread_replies_with_the_value_before(rt: HostRuntime) {
    let mut map = Plain::new(rt.alloc());
    // a command, the reply to it
    let rows: [(Command, Reply); 6] = [
        (Command::Put { key: 5, value: 7 }, None),
        (Command::Put { key: 5, value: 9 }, Some(7)),
        (Command::Get { key: 5 }, Some(9)),
        (Command::Remove { key: 5 }, Some(9)),
        (Command::Get { key: 5 }, None),
        (Command::Remove { key: 5 }, None),
    ];
    for (command, expected) in rows {
        same(&rt, &map.apply(command), &Ok(expected), command);
    }
    same(&rt, &map.pairs().len(), &0, "the pairs at the end");
}

// The pairs of the map below as they rise.
const FOUR: [Pair; 4] = [
    Pair { key: 1, value: 0 },
    Pair { key: 5, value: 2 },
    Pair { key: 9, value: 4 },
    Pair {
        key: u64::MAX,
        value: u64::MAX / 2,
    },
];

// The map in which four keys were put, each with half of it as the value.
fn map_of_four(alloc: Global) -> Result<Plain, AllocError> {
    let mut map = Plain::new(alloc);
    for key in [9u64, 1, 5, u64::MAX] {
        map.apply(Command::Put {
            key,
            value: key / 2,
        })?;
    }
    Ok(map)
}

// The first interval whose list isn't the part of the four pairs from number `from` on, to the one before `to`.
fn first_other_list(
    alloc: Global,
    rows: &[(u64, u64, usize, usize)],
) -> Result<Option<(u64, u64)>, AllocError> {
    let map = map_of_four(alloc)?;
    for (first, last, from, to) in rows {
        if Some(map.list(*first, *last)) != FOUR.get(*from..*to) {
            return Ok(Some((*first, *last)));
        }
    }
    Ok(None)
}

#[test]
fn a_map_of_one_thread_lists_from_one_key_to_another(rt: HostRuntime) {
    // the first key, the last, the part of all pairs that is listed
    let rows = [
        (0, u64::MAX, 0, 4),
        (1, 9, 0, 3),
        (2, 9, 1, 3),
        (1, 8, 0, 2),
        (6, 8, 2, 2),
        (9, 1, 0, 0),
    ];
    let other = first_other_list(rt.alloc(), &rows);
    same(&rt, &other, &Ok(None), "the lists");
}
