//! Finds the child of an inner row in whose range a key lies.
ghost use Rattle.std.specs.Prelude.{◌≡◌, ◌+◌, ◌-◌, ◌<◌, ◌≤◌, length, get_or};
ghost use Rattle.ist_core.specs.Arithmetic.{child_count};
ghost use Rattle.ist_core.specs.RowLayout.{next_place, place_limit};
ghost use Rattle.ist_rest.specs.WordRows.{word_at, row_degree, row_keys};
ghost use Rattle.ist_rest.specs.Steps.{IsRowHere};

use crate::rows::{degree_at, key_at};
use crate::words::WordList;
use ist_math::guess;

/// Returns the child of an inner row in whose range `key` lies, counted from 0: the number of keys
/// that are at most `key`.
///
/// It starts where linear interpolation between the end keys points, and continues from there one
/// key at a time. No clause bounds how many keys it reads.
///
/// Source: Perl, Itai and Avni, "Interpolation search", CACM 1978.
pub fn child_for<W: WordList>(words: &W, base: u32, key: u64) -> u64
    requires used { word_at (W.list words.now) next_place ≤ length (W.list words.now) }
    requires most { length (W.list words.now) ≤ place_limit }
    requires row { IsRowHere (W.list words.now) base }
    ensures value { result ≡ child_count (row_keys (W.list words.now) base) key }
    ensures within { result < row_degree (W.list words.now) base }
{
    let degree = degree_at(words, base);
    let first = key_at(words, base, degree, 0);
    let last = key_at(words, base, degree, degree - 2);
    let near = guess(first, last, degree - 1, key);
    walk_down(
        words,
        base,
        degree,
        walk_up(words, base, degree, near, key),
        key,
    )
}

// Goes up from `from` past the keys that are at most `key`.
fn walk_up<W: WordList>(words: &W, base: u32, degree: u64, from: u64, key: u64) -> u64
    requires used { word_at (W.list words.now) next_place ≤ length (W.list words.now) }
    requires most { length (W.list words.now) ≤ place_limit }
    requires row { IsRowHere (W.list words.now) base }
    requires degree { degree ≡ row_degree (W.list words.now) base }
    requires from { from < degree }
    ensures within { result < degree }
    ensures above { result + 1 < degree → key < get_or (row_keys (W.list words.now) base) result 0 }
{
    let mut at = from;
    while at + 1 < degree && key_at(words, base, degree, at) <= key {
        at += 1;
    }
    at
}

// Goes down from `from` past the keys that are above `key`.
fn walk_down<W: WordList>(words: &W, base: u32, degree: u64, from: u64, key: u64) -> u64
    requires used { word_at (W.list words.now) next_place ≤ length (W.list words.now) }
    requires most { length (W.list words.now) ≤ place_limit }
    requires row { IsRowHere (W.list words.now) base }
    requires degree { degree ≡ row_degree (W.list words.now) base }
    requires from { from < degree }
    requires above { from + 1 < degree → key < get_or (row_keys (W.list words.now) base) from 0 }
    ensures within { result < degree }
    ensures above { result + 1 < degree → key < get_or (row_keys (W.list words.now) base) result 0 }
    ensures below { 0 < result → get_or (row_keys (W.list words.now) base) (result - 1) 0 ≤ key }
{
    let mut at = from;
    while at > 0 && key_at(words, base, degree, at - 1) > key {
        at -= 1;
    }
    at
}
