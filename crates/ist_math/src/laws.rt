//! What follows from the definitions, for all numbers. Each law is the contract of a function that
//! does nothing.
ghost use Rattle.std.specs.Prelude.{◌≡◌, ℕ, ◌+◌, ◌*◌, ◌<◌, ◌≤◌, ◌^◌};
ghost use Rattle.std.specs.List.{sum};
ghost use Rattle.ist_core.specs.Arithmetic.{square_root, part_len, part_lens};
ghost use Rattle.ist_core.specs.Shapes.{ideal_words, shape, depth, share_from};
ghost use Rattle.ist_math.specs.declared.gallops.Gallop.{Gallop};
ghost use Rattle.ist_math.specs.Guess.{guess_of, distance};
ghost use Rattle.ist_math.specs.Gallops.{Gallops};

use crate::sizes::SHARE_FROM;

/// The square root, rounded down, is the one number whose square is at most `n`, while the next
/// square is above `n`.
pub fn square_root_is_the_last()
    ensures square { (n : ℕ) → square_root n * square_root n ≤ n }
    ensures next_square { (n : ℕ) → n < (square_root n + 1) * (square_root n + 1) }
    ensures only { (n r : ℕ) → r * r ≤ n → n < (r + 1) * (r + 1) → square_root n ≡ r }
{}

/// The guess lies between 0 and the number of keys, and between the end keys it is neither.
pub fn guess_lies_within()
    ensures within { (first last m x : ℕ) → 1 ≤ m → guess_of first last m x ≤ m }
    ensures between { (first last m x : ℕ) → 2 ≤ m → first ≤ x → x < last
        → (1 ≤ guess_of first last m x) × (guess_of first last m x < m) }
{}

/// A gallop that has ended made few looks: at most three more than the distance from its guess to
/// the child, and at most two for each bit of that distance plus two.
pub fn gallops_are_short()
    ensures near { (g : Gallop) (guess looks : ℕ) → Gallops g guess looks → g.low + 1 ≡ g.high
        → looks ≤ distance guess g.high + 3 }
    ensures far { (g : Gallop) (guess looks : ℕ) → Gallops g guess looks → g.low + 1 ≡ g.high
        → (k : ℕ) → distance guess g.high < 2 ^ k → looks ≤ 2 * k + 2 }
{}

/// The parts of a node have all its keys, and none is empty.
pub fn parts_have_all_keys()
    ensures sum { (n : ℕ) → sum (part_lens n) ≡ n }
    ensures some { (n j : ℕ) → 2 ≤ n → 1 ≤ part_len n j }
{}

/// An ideal tree takes two words for each key, and its inner rows.
pub fn words_are_leaves_and_rows()
    ensures sum { (n : ℕ) → ideal_words n ≡ 2 * n + sum (shape n) }
{}

/// An ideal tree takes at most nine words for each key.
pub fn words_are_nine_a_key()
    ensures most { (n : ℕ) → ideal_words n ≤ 9 * n }
{}

/// A path of an ideal tree of fewer than 2^32 keys has at most seven inner rows.
pub fn paths_are_short()
    ensures most { (n : ℕ) → n < 2 ^ 32 → depth n ≤ 7 }
{}

/// The constant is the one that the definitions name, and a shared root has at least two keys.
pub fn shared_roots_have_several_keys()
    ensures value { SHARE_FROM ≡ share_from }
    ensures least { 2 ≤ share_from }
{}
