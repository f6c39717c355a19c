//! Searches of small tables, one of them with a put that waits to be decided, and the loads of searches.
ghost use Rattle.std.specs.Prelude.{◌≡◌, ◌<◌, ◌^◌, None, IfOk};
ghost use Rattle.ist_rows.specs.Rows.{IsCaller, IsAtTable, spares_of, no_spares};

use crate::changes::begin_put;
use crate::helping::help_met;
use crate::judging::same;
use crate::samples::pairs_of;
use crate::tables::empty_table;
use ist_core::Pair;
use ist_dcss::Decision;
use ist_find::{Child, Found, Span, child_at, find_and_loads, find_from_anchor, find_span};
use ist_image::lay_image;
use ist_rows::{Caller, enter};
use ist_rule::{TreeTable, TreeToken, begin_search, open_table};
use std::alloc::{AllocError, Global};

// Returns the child for a key in the row of a table of 20 words with the pairs (5, 7) and (9, 1), an
// inner row at 4 and two leaves, and what is found at the key.
fn found_in_two(alloc: Global, key: u64) -> Result<(Child, Found), AllocError> {
    let pairs = vec![in alloc; Pair { key: 5, value: 7 }, Pair { key: 9, value: 1 }]?;
    let image = lay_image(alloc, 20, pairs.as_slice())?;
    let (table, mut token) = open_table(alloc, image, &pairs)?;
    let child = child_at(&table, &mut token, 4, key);
    let found = find_from_anchor(&table, &mut token, key);
    Ok((child, found))
}

#[test]
fn each_key_is_found_with_its_value(rt: HostRuntime) {
    // the key, its child in the row, the word in its slot, its value
    let cases = [
        (5, 0, 89, Some(7)),
        (9, 1, 105, Some(1)),
        (6, 0, 89, None),
        (0, 0, 89, None),
        (10, 1, 105, None),
        (u64::MAX, 1, 105, None),
    ];
    for (key, index, word, value) in cases {
        let node = 4;
        let wanted = (Child { index, word }, Found { value, node, index });
        same(&rt, &found_in_two(rt.alloc(), key), &Ok(wanted), key);
    }
}

// A table of 100 words with ten pairs, whose keys are three apart: a row at 4 with the keys 13 and
// 22, and below it rows with one key each.
fn ten_pairs(alloc: Global) -> Result<(TreeTable, TreeToken), AllocError>
    ensures same_table { IfOk result (λ t. t.1.view.table ≡ t.0.table) }
{
    let pairs = vec![in alloc;
        Pair { key: 1, value: 0 },
        Pair { key: 4, value: 1 },
        Pair { key: 7, value: 2 },
        Pair { key: 10, value: 3 },
        Pair { key: 13, value: 4 },
        Pair { key: 16, value: 5 },
        Pair { key: 19, value: 6 },
        Pair { key: 22, value: 7 },
        Pair { key: 25, value: 8 },
        Pair { key: 28, value: 9 },
    ]?;
    let image = lay_image(alloc, 100, pairs.as_slice())?;
    open_table(alloc, image, &pairs)
}

// Returns what is found at a key in the table of ten pairs, and the loads of the search.
fn search_of_ten(alloc: Global, key: u64) -> Result<(Option<u64>, u64), AllocError> {
    let (table, mut token) = ten_pairs(alloc)?;
    let found = find_and_loads(&table, &mut token, key);
    Ok((found.value.value, found.loads))
}

#[test]
fn a_search_loads_the_words_of_its_way_alone(rt: HostRuntime) {
    // Each search loads word 0 and the anchor's slot. A row of degree d costs d + 1 loads: its
    // degree, its d - 1 keys, a slot. A leaf costs one, and its value another. Through rows of the
    // degrees 3, 2 and 2 that is 2 + 4 + 3 + 3 + 1, and through 3 and 2 it is 3 less.
    // The key, its value, the loads.
    let cases = [
        (0, None, 13),
        (1, Some(0), 14),
        (2, None, 13),
        (4, Some(1), 14),
        (6, None, 13),
        (7, Some(2), 14),
        (9, None, 13),
        (10, Some(3), 14),
        (12, None, 13),
        (13, Some(4), 14),
        (15, None, 13),
        (16, Some(5), 14),
        (18, None, 13),
        (19, Some(6), 11),
        (21, None, 10),
        (22, Some(7), 14),
        (24, None, 13),
        (25, Some(8), 14),
        (27, None, 13),
        (28, Some(9), 11),
        (29, None, 10),
        (u64::MAX, None, 10),
    ];
    for (key, value, loads) in cases {
        let found = search_of_ten(rt.alloc(), key);
        same(&rt, &found, &Ok((value, loads)), key);
    }
}

// Returns the span of a key in the table of ten pairs.
fn span_of_ten(alloc: Global, key: u64) -> Result<Span, AllocError> {
    let (table, mut token) = ten_pairs(alloc)?;
    begin_search(&table, &mut token);
    let span = find_span(&table, &mut token, key);
    Ok(span)
}

#[test]
fn a_span_reaches_from_its_pair_to_before_the_next_one(rt: HostRuntime) {
    // the key, the ends of its span, the key and the value of the pair in it
    let cases = [
        (0, 0, 3, 1, 0),
        (1, 0, 3, 1, 0),
        (3, 0, 3, 1, 0),
        (4, 4, 6, 4, 1),
        (9, 7, 9, 7, 2),
        (12, 10, 12, 10, 3),
        (13, 13, 15, 13, 4),
        (17, 16, 18, 16, 5),
        (21, 19, 21, 19, 6),
        (22, 22, 24, 22, 7),
        (27, 25, 27, 25, 8),
        (28, 28, u64::MAX, 28, 9),
        (u64::MAX, 28, u64::MAX, 28, 9),
    ];
    for (asked, first, last, key, value) in cases {
        let pair = Some(Pair { key, value });
        let span = Span { first, last, pair };
        same(&rt, &span_of_ten(rt.alloc(), asked), &Ok(span), asked);
    }
}

// Returns what is found at a key in a table of this many pairs, with the keys from 0 on, and the loads
// of the search.
fn search_of(alloc: Global, count: u64, key: u64) -> Result<(Option<u64>, u64), AllocError>
    requires few { count < 2 ^ 20 }
{
    let pairs = pairs_of(alloc, count)?;
    let image = lay_image(alloc, 9 * count + 10, pairs.as_slice())?;
    let (table, mut token) = open_table(alloc, image, &pairs)?;
    let found = find_and_loads(&table, &mut token, key);
    Ok((found.value.value, found.loads))
}

#[test]
fn a_search_loads_few_keys_of_a_row_with_more_than_four(rt: HostRuntime) {
    // 36 pairs: a row with the keys 6, 12, 18, 24 and 30 over rows of six pairs, these over two
    // rows of three, and these over a row of two and a leaf. The first row costs its degree, the
    // keys at both ends, a slot; for a key between them, the key at the guess too, which is right,
    // and the one before, if that isn't the first. All others have one key, and cost 3.
    // The key, its value, the loads.
    let cases = [
        (0, Some(1), 2 + 4 + 9 + 2),
        (5, Some(6), 2 + 4 + 6 + 2),
        (6, Some(7), 2 + 5 + 9 + 2),
        (8, Some(9), 2 + 5 + 6 + 2),
        (12, Some(13), 2 + 6 + 9 + 2),
        (17, Some(18), 2 + 6 + 6 + 2),
        (23, Some(24), 2 + 6 + 6 + 2),
        (24, Some(25), 2 + 6 + 9 + 2),
        (29, Some(30), 2 + 6 + 6 + 2),
        (30, Some(31), 2 + 4 + 9 + 2),
        (35, Some(36), 2 + 4 + 6 + 2),
        (36, None, 2 + 4 + 6 + 1),
        (u64::MAX, None, 2 + 4 + 6 + 1),
    ];
    for (key, value, loads) in cases {
        let found = search_of(rt.alloc(), 36, key);
        same(&rt, &found, &Ok((value, loads)), key);
    }
}

// What is found during a put of 1 at 1.
#[derive(Debug, PartialEq, Drop)]
struct Beside {
    // at 1 before the put is installed
    before: Option<u64>,
    // at 1 while it waits, and the loads of that search
    waiting: (Option<u64>, u64),
    decision: Option<Decision>,
    // at 1 and at 2 after the decision
    there: Found,
    other: Option<u64>,
}

// The first caller installs the put, and the second helps it.
fn find_beside(
    table: &TreeTable,
    maker: &mut TreeToken,
    first: &mut Caller,
    second: &mut Caller,
) -> Option<Beside>
    requires maker_table { maker.old.view.table ≡ table.now.table }
    requires first { IsAtTable table.now IsCaller first.old }
    requires no_rows { spares_of first.old ≡ no_spares }
    requires in_none { first.old.token.view.pending ≡ None }
    requires second { IsAtTable table.now IsCaller second.old }
{
    let before = find_from_anchor(table, maker, 1).value;
    if !begin_put(table, first) {
        return None;
    }
    let waiting = find_and_loads(table, maker, 1);
    Some(Beside {
        before,
        waiting: (waiting.value.value, waiting.loads),
        decision: help_met(table, second),
        there: find_from_anchor(table, maker, 1),
        other: find_from_anchor(table, maker, 2).value,
    })
}

// The same in an empty table.
fn find_in_empty(alloc: Global) -> Result<Option<Beside>, AllocError> {
    let (table, mut maker) = empty_table(alloc, 26)?;
    let mut first = enter(&table, &mut maker);
    let mut second = enter(&table, &mut maker);
    let seen = find_beside(&table, &mut maker, &mut first, &mut second);
    Ok(seen)
}

#[test]
fn a_put_is_found_once_it_is_decided(rt: HostRuntime) {
    let seen = find_in_empty(rt.alloc());
    let wanted = Beside {
        before: None,
        // word 0, the anchor's slot, the change's decision, its `from`
        waiting: (None, 4),
        decision: Some(Decision::Yes),
        there: Found {
            value: Some(1),
            node: 2,
            index: 0,
        },
        other: None,
    };
    same(&rt, &seen, &Ok(Some(wanted)), "the put");
}
