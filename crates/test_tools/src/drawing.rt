//! Numbers that look random, made from a seed.
ghost use Rattle.std.specs.Prelude.{◌≤◌, ◌<◌};

/// What is added from one number to the next.
const STEP: u64 = 0x9e37_79b9_7f4a_7c15;

/// Makes numbers, one after another. The same start makes the same numbers.
///
/// Source: Steele, Lea and Flood, "Fast splittable pseudorandom number generators", OOPSLA 2014.
#[derive(Drop)]
pub struct Draws {
    state: u64,
}

impl Draws {
    /// Makes the numbers from this start on.
    pub fn new(start: u64) -> Draws {
        Draws { state: start }
    }

    /// Makes the numbers of a thread, from the seed of its run and its own number.
    pub fn for_thread(seed: u64, number: u64) -> Draws {
        let mut own = Draws::new(number);
        Draws::new(seed.wrapping_add(own.next()))
    }

    /// Returns the next number.
    pub fn next(&mut self) -> u64 {
        self.state = self.state.wrapping_add(STEP);
        mixed(self.state)
    }

    /// Returns the next number below `end`.
    pub fn below(&mut self, end: u64) -> u64
        requires some { 1 ≤ end }
        ensures less { result < end }
    {
        self.next() % end
    }
}

/// Mixes the bits of a number. Different numbers are mixed to different numbers.
pub(crate) fn mixed(number: u64) -> u64 {
    let once = (number ^ (number >> 30)).wrapping_mul(0xbf58_476d_1ce4_e5b9);
    let twice = (once ^ (once >> 27)).wrapping_mul(0x94d0_49bb_1331_11eb);
    twice ^ (twice >> 31)
}
