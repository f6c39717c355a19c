//! The search for the place at which keys change from at most a key to above it, without the keys.
ghost use Rattle.std.specs.Prelude.{◌≡◌, ℕ, suc, ◌+◌, ◌-◌, ◌<◌, ◌≤◌, ◌^◌, MatchBool, false, if◌then◌else◌};
ghost use Rattle.ist_math.specs.Gallops.{probe_of, next_step_of, Gallops};

/// A search between two keys: the one at `low` is at most the key that is sought, and the one at
/// `high` is above it. It ends when they are neighbours: then `high` is the child.
///
/// It goes away from a guess by steps of one, two, four, .. keys. Once it passed the key that is
/// sought, it halves the distance between the two keys. Its caller looks at the keys: `probe` names
/// the next one to look at, and the caller passes to `told` whether that one is above the key that
/// is sought.
///
/// Source: Bentley and Yao, "An almost optimal algorithm for unbounded searching", Information
/// Processing Letters, 1976.
#[derive(Clone, Copy, Drop)]
pub struct Gallop {
    /// The number of a key that is at most the key that is sought.
    pub low: u64,
    /// The number of a key that is above it.
    pub high: u64,
    /// How far the next look goes. If that is at least the distance between the two keys, the
    /// search halves it.
    pub step: u64,
    /// Whether it goes down from the guess.
    pub down: bool,
}

impl Gallop {
    /// Begins at the guess, among `count` keys, of which the first is at most the key that is
    /// sought and the last is above it. `above` says the same of the key at the guess, which counts
    /// as one look.
    #[inline]
    pub fn begin(count: u64, guess: u64, above: bool) -> Gallop
        requires first { 1 ≤ guess }
        requires within { guess < count }
        requires last { above ≡ false → guess + 1 < count }
        ensures low { result.low ≡ (if above then 0 else guess) }
        ensures high { result.high ≡ (if above then guess else count - 1) }
        ensures gallops { Gallops result guess 1 }
    {
        if above {
            Gallop {
                low: 0,
                high: guess,
                step: 1,
                down: true,
            }
        } else {
            Gallop {
                low: guess,
                high: count - 1,
                step: 1,
                down: false,
            }
        }
    }

    /// Returns whether there is still a key to look at.
    #[inline]
    pub fn is_open(&self) -> bool
        requires some { self.now.low < self.now.high }
        ensures exact { let next = self.now.low + 1 in
            MatchBool result (next < self.now.high) (next ≡ self.now.high) }
    {
        self.low + 1 < self.high
    }

    /// Returns the number of the key to look at next.
    #[inline]
    pub fn probe(&self) -> u64
        requires between { self.now.low + 1 < self.now.high }
        requires steps { 1 ≤ self.now.step }
        ensures value { result ≡ probe_of self.now }
        ensures after_low { self.now.low < result }
        ensures before_high { result < self.now.high }
    {
        let width = self.high - self.low;
        if self.step >= width {
            self.low + width / 2
        } else if self.down {
            self.high - self.step
        } else {
            self.low + self.step
        }
    }

    /// Returns the search after a look at the probe, which showed whether that key is above the one
    /// that is sought.
    #[inline]
    pub fn told(self, at: u64, above: bool) -> Gallop
        requires between { self.low + 1 < self.high }
        requires fits { self.high < 2 ^ 63 }
        requires at { at ≡ probe_of self }
        ensures low { result.low ≡ (if above then self.low else at) }
        ensures high { result.high ≡ (if above then at else self.high) }
        ensures gallops { (guess looks : ℕ) → Gallops self guess looks
            → Gallops result guess (suc looks) }
    {
        if above {
            Gallop {
                low: self.low,
                high: at,
                step: self.next_step(self.down),
                down: self.down,
            }
        } else {
            Gallop {
                low: at,
                high: self.high,
                step: self.next_step(!self.down),
                down: self.down,
            }
        }
    }

    // Doubles the step, if the look at it stayed on the side to which the gallop goes.
    #[inline]
    fn next_step(&self, goes_on: bool) -> u64
        requires between { self.now.low < self.now.high }
        requires fits { self.now.high < 2 ^ 63 }
        ensures value { result ≡ next_step_of self.now goes_on }
    {
        if self.step < self.high - self.low && goes_on {
            2 * self.step
        } else {
            self.step
        }
    }
}
