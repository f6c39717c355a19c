//! How a run is to go, and whether it can.
ghost use Rattle.std.specs.Prelude.{◌≡◌, ◌≤◌, true};
ghost use Rattle.ist_core.specs.RowLayout.{place_limit};

use test_tools::Shares;

/// How many passes there are at most.
pub(crate) const MOST_PASSES: u64 = 64;

/// How many keys there are at most.
pub(crate) const MOST_KEYS: u64 = 1_000_000;

/// How many words there are at most.
pub(crate) const MOST_WORDS: u32 = 268_435_456;

/// How a run is to go.
#[derive(Clone, Copy, Drop)]
pub(crate) struct Plan {
    /// What all calls are drawn from.
    pub seed: u64,
    /// How many threads there are, each with a pass of its own.
    pub passes: u64,
    /// How many rounds there are. After each of them the passes learn from each other by notes.
    pub rounds: u64,
    /// How many calls each thread makes in a round.
    pub calls: u64,
    /// How often each kind of call is drawn, beside the others.
    pub shares: Shares,
    /// How many keys there are: the numbers below this one. The lower half have values at the opening.
    pub span: u64,
    /// How many words the tree has, or the map's first tree, if the pairs don't need more.
    pub words: u32,
    /// Whether the threads run a map that grows, in place of one tree.
    pub map: bool,
}

impl Plan {
    /// Whether the plan can be run: there is a pass, a key and a kind of call, and there are no more
    /// passes, keys and words than a run has.
    pub(crate) fn is_fit(&self) -> bool
        ensures passes { result ≡ true → self.now.passes ≤ MOST_PASSES }
        ensures some { result ≡ true → 1 ≤ self.now.span }
        ensures keys { result ≡ true → self.now.span ≤ MOST_KEYS }
        ensures words { result ≡ true → self.now.words ≤ place_limit }
    {
        if self.passes < 1 || MOST_PASSES < self.passes {
            return false;
        }
        if self.span < 1 || MOST_KEYS < self.span {
            return false;
        }
        self.words <= MOST_WORDS && self.shares.all() > 0
    }
}
