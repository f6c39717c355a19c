//! What a caller asks of a map, and the reply.

/// One command on a map from `u64` keys to `u64` values. `Map.antt` says what it does.
#[derive(Clone, Copy, Debug, PartialEq, Eq, Drop)]
pub enum Command {
    /// Sets the value at the key, whether or not it has one.
    Put { key: u64, value: u64 },
    /// Takes the key away, if it is there.
    Remove { key: u64 },
    /// Changes nothing.
    Get { key: u64 },
}

/// The value that the command's key had before the command, or `None`.
pub type Reply = Option<u64>;
