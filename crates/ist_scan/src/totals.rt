//! The readings of some pairs, summed up.
ghost use Rattle.std.specs.Prelude.{◌≡◌, ◌+◌, ◌*◌, ◌^◌, ◌<◌, ◌≤◌, []};
ghost use Rattle.ist_scan.specs.Totals.{total_of, least_with, greatest_with};

/// The readings of some pairs, summed up: how many pairs there are, the sum of their values, the
/// least and the greatest of them.
#[derive(Clone, Copy, Debug, PartialEq, Eq, Drop)]
pub struct Total {
    /// How many pairs there are.
    pub keys: u64,
    /// The sum of their values.
    pub sum: u128,
    /// The least value; `None` if there are no pairs.
    pub least: Option<u64>,
    /// The greatest value; `None` if there are no pairs.
    pub greatest: Option<u64>,
}

impl Total {
    /// Returns the total of no pairs.
    pub fn of_none() -> Total
        ensures value { result ≡ total_of [] }
    {
        Total {
            keys: 0,
            sum: 0,
            least: None,
            greatest: None,
        }
    }

    // Returns the total with one more value.
    pub(crate) fn with(self, value: u64) -> Total
        requires few { self.keys + 1 < 2 ^ 64 }
        requires sum { self.sum ≤ self.keys * 2 ^ 64 }
        ensures keys { result.keys ≡ self.keys + 1 }
        ensures sum { result.sum ≡ self.sum + value }
        ensures least { result.least ≡ least_with value self.least }
        ensures greatest { result.greatest ≡ greatest_with value self.greatest }
        ensures bound { result.sum ≤ result.keys * 2 ^ 64 }
    {
        Total {
            keys: self.keys + 1,
            sum: self.sum + u128::from(value),
            least: match self.least {
                Some(least) => Some(value.min(least)),
                None => Some(value),
            },
            greatest: match self.greatest {
                Some(greatest) => Some(value.max(greatest)),
                None => Some(value),
            },
        }
    }
}
