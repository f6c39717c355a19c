//! Plans: what a run measures.
ghost use Rattle.std.specs.Prelude.{◌≡◌, ◌≤◌, true};
ghost use Rattle.ist_core.specs.RowLayout.{place_limit};

use test_tools::{Shares, Spread};

/// How many threads there are at most.
pub(crate) const MOST_THREADS: u64 = 64;

/// How many keys there are at most.
pub(crate) const MOST_KEYS: u64 = 10_000_000;

/// How many words there are at most.
pub(crate) const MOST_WORDS: u32 = 268_435_456;

/// What a run measures.
#[derive(Clone, Copy, Drop)]
pub(crate) struct Plan {
    /// What all calls are drawn from.
    pub seed: u64,
    /// How many threads there are.
    pub threads: u64,
    /// How many calls each of them makes.
    pub calls: u64,
    /// How often each kind of call is drawn.
    pub shares: Shares,
    /// How the keys lie.
    pub spread: Spread,
    /// How many keys the tree has at the opening: those with the numbers below this one.
    pub keys: u64,
    /// Whether these keys were put one after another, in the order of their numbers, into an empty tree.
    pub grown: bool,
    /// The calls draw the keys with the numbers below this one.
    pub span: u64,
    /// What a find reads: its key if 0, the next pair if 1, and otherwise the pairs of this many keys from
    /// its own on.
    pub width: u64,
    /// Whether a put is conditional: it takes effect only if the key has the value that each put gives it.
    pub expects: bool,
    /// How many words the tree has.
    pub words: u32,
}

impl Plan {
    /// Whether the plan can be run.
    pub(crate) fn is_fit(&self) -> bool
        ensures threads { result ≡ true → self.now.threads ≤ MOST_THREADS }
        ensures some { result ≡ true → 1 ≤ self.now.span }
        ensures words { result ≡ true → self.now.words ≤ place_limit }
    {
        self.has_threads() && self.has_keys() && self.has_words() && self.shares.all() > 0
    }

    fn has_threads(&self) -> bool
        ensures { result ≡ true → self.now.threads ≤ MOST_THREADS }
    {
        1 <= self.threads && self.threads <= MOST_THREADS
    }

    fn has_keys(&self) -> bool
        ensures { result ≡ true → 1 ≤ self.now.span }
    {
        1 <= self.span && self.span <= MOST_KEYS && self.keys <= MOST_KEYS
    }

    fn has_words(&self) -> bool
        ensures { result ≡ true → self.now.words ≤ place_limit }
    {
        self.words <= MOST_WORDS
    }
}
