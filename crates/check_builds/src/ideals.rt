//! Whether the rows of an event are the rows of an ideal subtree over some leaves.
ghost use Rattle.std.specs.Prelude.{◌≡◌, ◌↔◌, ◌≤◌, ◌<◌, ◌^◌, ◌+◌, ℕ, IsTrue, IfSome, MatchOption, List, Some, None, slice_get, ◌-◌, length, min};
ghost use Rattle.ist_core.specs.Arithmetic.{part_len};
ghost use Rattle.ist_core.specs.References.{LeafAt, ref_of};
ghost use Rattle.ist_core.specs.Parts.{cut, first_keys};
ghost use Rattle.check_builds.specs.Built.{part_lens_from, key_of_leaf, HasTopSlots, BuildsAt, BuildsAll, CountsRows};

use check_events::{FoundLeaf, inner_of_word, leaf_of_word, names_nothing};
use check_fairness::{degree_of, part_len_of};
use ist_core::Row;

/// The status of a row that was never touched.
const OPEN_WORD: u64 = 0;

/// Returns how many of `len` elements belong to part `j` of `n`, as far as they go.
fn part_end(n: u64, j: u64, len: usize) -> usize
    ensures value { result ≡ min (part_len n j) len }
{
    let part = part_len_of(n, j);
    if part < len as u64 {
        part as usize
    } else {
        len
    }
}

/// Returns whether these are the keys of the first leaves of `left` parts of `n` leaves, from part
/// `j` on.
fn are_keys(n: u64, j: u64, left: u64, keys: &[u64], leaves: &[FoundLeaf]) -> bool
    requires parts { j + left < 2 ^ 64 }
    ensures exact { IsTrue result
        ↔ (keys.now ≡ first_keys key_of_leaf (cut (part_lens_from n j left) leaves.now)) }
{
    if left == 0 {
        return keys.len() == 0;
    }
    let end = part_end(n, j, leaves.len());
    if end == 0 {
        return are_keys(n, j + 1, left - 1, keys, &leaves[end..]);
    }
    match keys {
        [] => false,
        [key, more @ ..] => {
            if *key != leaves[0].key() {
                return false;
            }
            are_keys(n, j + 1, left - 1, more, &leaves[end..])
        }
    }
}

/// Returns the slots of the row, if its words are the words of the top row of the ideal subtree
/// over the leaves, with a base above this one.
pub fn top_slots<'a>(row: &'a Row, leaves: &[FoundLeaf], above: u64) -> Option<&'a [u64]>
    ensures exact { MatchOption result
        ((slots : List ℕ) → ¬ (HasTopSlots row.now leaves.now above slots))
        (λ slots. HasTopSlots row.now leaves.now above slots.now) }
{
    if leaves.len() < 2 || row.base <= above {
        return None;
    }
    let n = leaves.len() as u64;
    match row.words.as_slice() {
        [status, count, degree, size, rest @ ..] => {
            if *status != OPEN_WORD || *count != 0 || *size != n || *degree != degree_of(n) {
                return None;
            }
            let end = keys_end(*degree, rest.len());
            let first = part_end(n, 0, leaves.len());
            if !are_keys(n, 1, *degree - 1, &rest[..end], &leaves[first..]) {
                return None;
            }
            Some(&rest[end..])
        }
        _ => None,
    }
}

/// Returns how many of the `len` words after the fields of a row of this degree are keys.
fn keys_end(degree: u64, len: usize) -> usize
    requires some { 0 < degree }
    ensures value { result ≡ min (degree - 1) len }
{
    if degree - 1 < len as u64 {
        (degree - 1) as usize
    } else {
        len
    }
}

/// Returns how many of the rows are the inner rows of the ideal subtree over the leaves at the
/// word, with bases above this one.
#[cycle(built)]
pub fn built(word: u64, leaves: &[FoundLeaf], above: u64, rows: &[Row]) -> Option<usize>
    ensures within { IfSome result (λ k. k ≤ length rows.now) }
    ensures exact { CountsRows (λ rs. BuildsAt word leaves.now above rs) rows.now result }
{
    if leaves.len() == 0 {
        return if names_nothing(word) { Some(0) } else { None };
    }
    if leaves.len() == 1 {
        return if is_leaf_at(word, leaves[0].base()) {
            Some(0)
        } else {
            None
        };
    }
    match inner_of_word(word) {
        None => None,
        Some(base) => match rows {
            [] => None,
            [row, more @ ..] => {
                if row.base != base {
                    return None;
                }
                match top_slots(row, leaves, above) {
                    None => None,
                    Some(slots) => {
                        let n = leaves.len() as u64;
                        match parts_built(n, 0, degree_of(n), slots, leaves, base, more) {
                            None => None,
                            Some(used) => Some(used + 1),
                        }
                    }
                }
            }
        },
    }
}

/// Returns whether the word names the leaf at this base.
fn is_leaf_at(word: u64, base: u64) -> bool
    ensures exact { IsTrue result ↔ (ref_of word ≡ Some (LeafAt base)) }
{
    match leaf_of_word(word) {
        None => false,
        Some(found) => found == base,
    }
}

/// Returns how many of the rows are the inner rows at the slots of `left` parts of `n` leaves, from
/// part `j` on.
#[cycle(built)]
fn parts_built(
    n: u64,
    j: u64,
    left: u64,
    slots: &[u64],
    leaves: &[FoundLeaf],
    above: u64,
    rows: &[Row],
) -> Option<usize>
    requires two { 2 ≤ n }
    requires parts { j + left < 2 ^ 64 }
    ensures within { IfSome result (λ k. k ≤ length rows.now) }
    ensures exact { CountsRows (λ rs. BuildsAll slots.now (cut (part_lens_from n j left) leaves.now)
        above rs) rows.now result }
{
    match slots {
        [] => if left == 0 { Some(0) } else { None },
        [word, more @ ..] => {
            if left == 0 {
                return None;
            }
            let end = part_end(n, j, leaves.len());
            match built(*word, &leaves[..end], above, rows) {
                None => None,
                Some(used) => {
                    match parts_built(
                        n,
                        j + 1,
                        left - 1,
                        more,
                        &leaves[end..],
                        above,
                        &rows[used..],
                    ) {
                        None => None,
                        Some(further) => Some(used + further),
                    }
                }
            }
        }
    }
}

/// Returns part `i` of `left` parts of `n` leaves, from part `j` on.
pub fn nth_part<'a>(
    n: u64,
    j: u64,
    left: u64,
    leaves: &'a [FoundLeaf],
    i: u64,
) -> Option<&'a [FoundLeaf]>
    requires parts { j + left < 2 ^ 64 }
    ensures exact { MatchOption result
        (slice_get (cut (part_lens_from n j left) leaves.now) i ≡ None)
        (λ part. slice_get (cut (part_lens_from n j left) leaves.now) i ≡ Some part.now) }
{
    if left == 0 {
        return None;
    }
    let end = part_end(n, j, leaves.len());
    if i == 0 {
        return Some(&leaves[..end]);
    }
    nth_part(n, j + 1, left - 1, &leaves[end..], i - 1)
}
