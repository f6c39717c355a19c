//! How many words an ideal subtree takes, and after how many updates a node is due.
ghost use Rattle.std.specs.Prelude.{◌≡◌, ◌+◌, ◌*◌, ◌<◌, ◌≤◌, ◌^◌};
ghost use Rattle.ist_core.specs.Arithmetic.{degree, limit};
ghost use Rattle.ist_core.specs.Shapes.{ideal_words};

use crate::shares::degree;

/// From this many keys on, the helpers of a rebuild share its root and build one part each.
pub const SHARE_FROM: u64 = 256;

/// The words of a leaf.
const LEAF_WORDS: u64 = 2;

/// The part of an inner row's words that doesn't grow with its degree.
const FIXED_WORDS: u64 = 3;

/// A node is due for a rebuild after at least this many updates.
const LEAST_LIMIT: u64 = 8;

/// Returns after how many updates a node that was built over `size` keys is due for a rebuild: a
/// quarter of its keys, but at least 8.
pub fn limit(size: u64) -> u64
    ensures value { result ≡ limit size }
{
    (size / 4).max(LEAST_LIMIT)
}

/// Returns how many words an ideal tree of `n` keys takes, with its leaves.
///
/// The parts of all nodes of one level have at most two sizes, so each level costs the same few
/// steps.
pub fn ideal_words(n: u64) -> u64
    requires fits { n < 2 ^ 32 }
    ensures value { result ≡ ideal_words n }
    ensures most { result ≤ 9 * n }
{
    if n < 2 {
        return n * LEAF_WORDS;
    }
    let shortest = n / degree(n);
    words_of_node(n, shortest, words_of_both(shortest))
}

/// The words of two ideal trees; the second has one key more than the first.
#[derive(Clone, Copy, Drop)]
struct Both {
    first: u64,
    second: u64,
}

/// Returns the words of ideal trees of `n` and of `n + 1` keys.
fn words_of_both(n: u64) -> Both
    requires fits { n < 2 ^ 31 }
    ensures first { result.first ≡ ideal_words n }
    ensures second { result.second ≡ ideal_words (n + 1) }
{
    if n == 0 {
        return Both {
            first: 0,
            second: LEAF_WORDS,
        };
    }
    if n == 1 {
        return Both {
            first: LEAF_WORDS,
            second: 2 * LEAF_WORDS + 2 * 2 + FIXED_WORDS,
        };
    }
    let shortest = (n / degree(n)).min((n + 1) / degree(n + 1));
    let parts = words_of_both(shortest);
    Both {
        first: words_of_node(n, shortest, parts),
        second: words_of_node(n + 1, shortest, parts),
    }
}

/// Returns the words of an ideal tree of `n` keys whose parts have `shortest` keys, or one more.
fn words_of_node(n: u64, shortest: u64, parts: Both) -> u64
    requires several { 2 ≤ n }
    requires fits { n < 2 ^ 32 }
    requires enough { degree n * shortest ≤ n }
    requires near { n ≤ degree n * (shortest + 1) }
    requires first { parts.first ≡ ideal_words shortest }
    requires second { parts.second ≡ ideal_words (shortest + 1) }
    ensures value { result ≡ ideal_words n }
    ensures most { result ≤ 9 * n }
{
    let children = degree(n);
    let longer = n - children * shortest;
    let row = 2 * children + FIXED_WORDS;
    row + (longer * parts.second + (children - longer) * parts.first)
}
