//! What becomes of a change.

/// Whether a change was installed.
#[derive(Clone, Copy, Debug, PartialEq, Eq, Drop)]
pub enum Installed {
    /// It is in its slot.
    Yes,
    /// The slot held this other word.
    Other(u64),
}

/// How a change was decided.
#[derive(Clone, Copy, Debug, PartialEq, Eq, Drop)]
pub enum Decision {
    /// It took effect.
    Yes,
    /// It was taken back.
    No,
}
