//! How many words the tables of a round have.
ghost use Rattle.std.specs.Prelude.{◌≡◌, ◌+◌, ◌≤◌, ◌^◌};
ghost use Rattle.tele_generations.specs.Sizes.{least_words, first_words, next_words};

use ist_math::ideal_words;

/// The most words that a table has.
const MOST_WORDS: u64 = 1 << 28;

/// Returns the words of the first table of a round, by its pairs and its lines: at most `most`,
/// unless the pairs need more.
pub fn first_words(most: u32, workers: u32, pairs: u64, lines: u64) -> u32
    requires few { pairs + lines ≤ 2 ^ 24 }
    requires at_most { workers ≤ 64 }
    requires within { most ≤ 2 ^ 28 }
    ensures value { result ≡ first_words most workers pairs lines }
    ensures fits { result ≤ 2 ^ 28 }
    ensures holds { least_words pairs ≤ result }
{
    let least = 4 + ideal_words(pairs);
    let wanted = least + 512 * u64::from(workers) * lines;
    least.max(wanted.min(u64::from(most))) as u32
}

/// Returns the words of the table that follows a table of `words` words that ran full.
pub fn next_words(words: u32, pairs: u64) -> u32
    requires few { pairs ≤ 2 ^ 24 }
    requires within { words ≤ 2 ^ 28 }
    ensures value { result ≡ next_words words pairs }
    ensures fits { result ≤ 2 ^ 28 }
    ensures holds { least_words pairs ≤ result }
{
    let least = 4 + ideal_words(pairs);
    MOST_WORDS.min(least.max(2 * u64::from(words))) as u32
}
