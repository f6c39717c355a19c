//! A load of a search, and how long the log was at that moment.

/// A load: its place, the word that it returned, and how many events the log had at that moment.
pub struct Load {
    pub place: u64,
    pub word: u64,
    pub length: u64,
}
