//! How keys are spread.

use crate::drawing::mixed;

/// How many consecutive keys a burst has.
const BURST: u64 = 1024;

/// How keys are spread.
#[derive(Clone, Copy, Debug, PartialEq, Eq, Drop)]
pub enum Spread {
    /// Anywhere below 2^64.
    Uniform,
    /// Consecutive, from 0 on.
    Rising,
    /// In bursts of 1,024 consecutive keys, each burst anywhere.
    Clustered,
}

impl Spread {
    /// Returns the key with this number, counted from 0. Uniform and rising keys are different. Of
    /// clustered keys two bursts may coincide, which is unlikely for a few thousand bursts.
    pub fn key(&self, number: u64) -> u64 {
        match self {
            Spread::Uniform => mixed(number),
            Spread::Rising => number,
            Spread::Clustered => {
                let burst = mixed(number / BURST);
                (burst & !(BURST - 1)) | (number % BURST)
            }
        }
    }
}
