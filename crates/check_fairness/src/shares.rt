//! Degrees and parts of ideal trees, for every number of keys: a log may name any.
ghost use Rattle.std.specs.Prelude.{◌≡◌, ◌≤◌, ◌<◌, ◌^◌};
ghost use Rattle.ist_core.specs.Arithmetic.{degree, part_len};

/// Returns how many children the root of an ideal tree of `n` keys has.
pub fn degree_of(n: u64) -> u64
    ensures value { result ≡ degree n }
    ensures least { 2 ≤ result }
    ensures bound { result < 2 ^ 33 }
{
    n.isqrt().max(2)
}

/// Returns how many keys child `j` of the root of an ideal tree of `n` keys has.
pub fn part_len_of(n: u64, j: u64) -> u64
    ensures value { result ≡ part_len n j }
    ensures fewer { 2 ≤ n → result < n }
{
    let children = degree_of(n);
    let share = n / children;
    if j < n % children { share + 1 } else { share }
}
