//! In which child of a node a key lies.
ghost use Rattle.std.specs.Prelude.{◌≡◌, ℕ, ◌+◌, ◌-◌, ◌*◌, ◌<◌, ◌≤◌, ◌^◌, length, slice_index};
ghost use Rattle.std.specs.List.Sorted.{IsStrictlyIncreasing};
ghost use Rattle.ist_core.specs.Arithmetic.{child_count};
ghost use Rattle.ist_math.specs.Guess.{guess_of, guess_in, distance};

use crate::gallops::Gallop;
use crate::quotients::share_of;

/// With at most this many keys each key is looked at, without a guess.
pub const FEW_KEYS: u64 = 4;

/// Returns how many of `m` keys are at most `x`, if they are spread evenly between `first` and
/// `last`: a guess at the child for `x`.
///
/// It is exact for all keys, though the product may have 128 bits, and only divides by 64 bits.
///
/// Source: Perl, Itai and Avni, "Interpolation search", CACM 1978.
#[inline]
pub fn guess(first: u64, last: u64, m: u64, x: u64) -> u64
    requires some { 1 ≤ m }
    requires one_key { m ≡ 1 → first ≡ last }
    requires rising { 2 ≤ m → first < last }
    ensures value { result ≡ guess_of first last m x }
    ensures within { result ≤ m }
{
    if x < first {
        return 0;
    }
    if x >= last {
        return m;
    }
    1 + share_of(x - first, m - 1, last - first)
}

/// A child, and how many keys were looked at to find it.
#[derive(Clone, Copy, Drop)]
pub struct ChildFound {
    /// The number of the child, from 0.
    pub child: usize,
    /// How many keys were looked at.
    pub looks: usize,
}

/// Returns the child of a node with these keys in whose range `x` lies, counted from 0: the number
/// of keys that are at most `x`.
#[inline]
pub fn child_of(keys: &[u64], x: u64) -> usize
    requires rising { IsStrictlyIncreasing keys.now }
    ensures value { result ≡ child_count keys.now x }
    ensures within { result ≤ length keys.now }
{
    child_and_looks(keys, x).child
}

/// Returns the child as `child_of` does, and how many keys were looked at for it.
///
/// If there are at most four keys, each is looked at. Otherwise the search begins at the guess and
/// gallops: it goes away from the guess by steps of one, two, four, .. keys, and halves the range
/// that is left once it passed the child. So it looks at few keys if the guess is near, and never
/// at many.
#[inline]
pub fn child_and_looks(keys: &[u64], x: u64) -> ChildFound
    requires rising { IsStrictlyIncreasing keys.now }
    ensures value { result.child ≡ child_count keys.now x }
    ensures within { result.child ≤ length keys.now }
    ensures few { length keys.now ≤ 4 → result.looks ≡ length keys.now }
    ensures near { result.looks ≤ distance (guess_in keys.now x) result.child + 5 }
    ensures far { (k : ℕ) → distance (guess_in keys.now x) result.child < 2 ^ k
        → result.looks ≤ 2 * k + 4 }
{
    let count = keys.len();
    if count <= FEW_KEYS as usize {
        return ChildFound {
            child: keys.iter().filter(|key| **key <= x).count(),
            looks: count,
        };
    }
    if x < keys[0] {
        return ChildFound { child: 0, looks: 1 };
    }
    if keys[count - 1] <= x {
        return ChildFound {
            child: count,
            looks: 2,
        };
    }
    let found = gallop_from(
        keys,
        x,
        guess(keys[0], keys[count - 1], count as u64, x) as usize,
    );
    ChildFound {
        child: found.child,
        looks: found.looks + 2,
    }
}

/// Finds the child by a gallop that begins at `from`.
fn gallop_from(keys: &[u64], x: u64, from: usize) -> ChildFound
    requires rising { IsStrictlyIncreasing keys.now }
    requires some { 1 ≤ from }
    requires within { from < length keys.now }
    requires first { slice_index keys.now 0 ≤ x }
    requires last { x < slice_index keys.now (length keys.now - 1) }
    ensures value { result.child ≡ child_count keys.now x }
    ensures within { result.child < length keys.now }
    ensures near { result.looks ≤ distance from result.child + 3 }
    ensures far { (k : ℕ) → distance from result.child < 2 ^ k → result.looks ≤ 2 * k + 2 }
{
    let mut gallop = Gallop::begin(keys.len() as u64, from as u64, keys[from] > x);
    let mut looks = 1;
    while gallop.is_open() {
        let at = gallop.probe();
        gallop = gallop.told(at, keys[at as usize] > x);
        looks += 1;
    }
    ChildFound {
        child: gallop.high as usize,
        looks,
    }
}
