//! What is wrong with bytes that are no dump of lawful words, and why an audit has no result.

/// What is wrong with bytes that are no dump of lawful words. An audit names the first of these in
/// the order in which a dump is read.
#[derive(Clone, Copy, Debug, PartialEq, Eq, Drop)]
pub enum Flaw {
    /// They don't begin with the eight bytes that a dump begins with.
    Magic,
    /// They end too early.
    Short,
    /// The number of words is below 4 or above 2^28.
    Size,
    /// The first free word is below 4 or above the number of words.
    Used,
    /// They continue after the last used word.
    Long,
    /// The anchor isn't open.
    Anchor,
    /// The slot at this place is the first one of the walk that breaks the rules or leads to a row
    /// that does.
    Row { place: u64 },
}

/// Why an audit has no result.
#[derive(Clone, Copy, Debug, PartialEq, Eq, Drop)]
pub enum AuditFault {
    /// The bytes are no dump of lawful words.
    Bad(Flaw),
    /// The source failed.
    Read,
    /// Memory ran out.
    Memory,
}
