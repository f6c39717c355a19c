//! How the keys of a node are shared among its children.
ghost use Rattle.std.specs.Prelude.{◌≡◌, ◌+◌, ◌*◌, ◌<◌, ◌≤◌, ◌^◌};
ghost use Rattle.ist_core.specs.Arithmetic.{degree, part_len, part_start};

use crate::parts::Part;

/// Returns how many children the root of an ideal tree of `n` keys has: the square root of `n`,
/// rounded down, but at least 2.
pub fn degree(n: u64) -> u64
    requires several { 2 ≤ n }
    requires fits { n < 2 ^ 32 }
    ensures value { result ≡ degree n }
    ensures least { 2 ≤ result }
    ensures most { result ≤ n }
{
    root(n).max(2)
}

/// Returns the square root, rounded down: it halves between two neighbouring powers of two.
fn root(n: u64) -> u64
    requires some { 1 ≤ n }
    requires fits { n < 2 ^ 32 }
    ensures square { result * result ≤ n }
    ensures next_square { n < (result + 1) * (result + 1) }
{
    let mut low = 1 << ((63 - n.leading_zeros()) / 2);
    let mut high = 2 * low;
    while low + 1 < high {
        let middle = (low + high) / 2;
        if middle * middle <= n {
            low = middle;
        } else {
            high = middle;
        }
    }
    low
}

/// Returns the keys of child `j`, counted from 0, of the root of an ideal tree of `n` keys.
///
/// The lengths of two children differ by at most 1, and the longer ones come first.
pub fn part(n: u64, j: u64) -> Part
    requires several { 2 ≤ n }
    requires fits { n < 2 ^ 32 }
    requires within { j < degree n }
    ensures start { result.start ≡ part_start n j }
    ensures len { result.len ≡ part_len n j }
    ensures some { 1 ≤ result.len }
    ensures fewer { result.len < n }
    ensures inside { result.start + result.len ≤ n }
{
    let children = degree(n);
    let share = n / children;
    let left_over = n % children;
    Part {
        start: j * share + j.min(left_over),
        len: if j < left_over { share + 1 } else { share },
    }
}
