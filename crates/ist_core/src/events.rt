//! The events of a log, and who makes them.
use crate::lists::{Bases, Rows};

/// Who acts on a table. The maker enters callers, a caller makes all other events, and no one else
/// makes any.
pub enum Who {
    Maker,
    Caller(u64),
    /// A note, which reports what its caller has seen, if it was split from one.
    Note(Option<u64>),
    /// One that was joined away.
    Spent,
}

/// One atomic step that counts, on one word of the table. `Enabled.antt` says when it may come,
/// and `After.antt` what it writes.
///
/// `caller` is the number of the caller whose seat makes the step; in `Enter` it is the new
/// caller's number, and the maker's seat makes the step. `change`, `node` and `rebuild` are bases
/// of rows, and `rows` is what the step publishes.
#[derive(Drop)]
pub enum Event {
    /// A new caller: adds 1 to the number of callers.
    Enter {
        caller: u64,
    },
    /// Takes `size` words from the free ones: exchanges the first free word for `base + size`.
    Reserve {
        caller: u64,
        base: u64,
        size: u64,
    },
    /// Puts the change into its slot: exchanges the slot's word for the change's.
    Install {
        caller: u64,
        change: u64,
        rows: Rows,
    },
    /// Sees the change's node open: loads its status.
    Okay {
        caller: u64,
        change: u64,
    },
    /// Fixes the outcome of the change: exchanges its decision for yes or no.
    Decide {
        caller: u64,
        change: u64,
        yes: bool,
    },
    /// Takes the change out of its slot: exchanges its word for the one that its decision leaves.
    Resolve {
        caller: u64,
        change: u64,
    },
    /// Counts a put or remove at the node: adds 1 to its count.
    Count {
        caller: u64,
        node: u64,
    },
    /// Marks the node: exchanges its status.
    Mark {
        caller: u64,
        node: u64,
    },
    /// Sees a slot of a marked node free of changes: loads it.
    Pass {
        caller: u64,
        node: u64,
        index: u64,
        word: u64,
    },
    /// Gives the node its number of keys: exchanges its status.
    Finish {
        caller: u64,
        node: u64,
        keys: u64,
    },
    /// Gives the rebuild its root: exchanges its root word.
    Root {
        caller: u64,
        rebuild: u64,
        word: u64,
        rows: Rows,
    },
    /// Draws a part of a shared root to build: adds 1 to the rebuild's draw word.
    Draw {
        caller: u64,
        rebuild: u64,
        part: u64,
    },
    /// Puts a built part into a shared root: exchanges the slot's word.
    Place {
        caller: u64,
        rebuild: u64,
        part: u64,
        word: u64,
        rows: Rows,
    },
    /// Gives up held rows that may be too late: a failed exchange of a Root or Place, or a load.
    Lose {
        caller: u64,
        bases: Bases,
    },
}
