//! The results of starting a rebuild, and of helping one.

/// The result of starting a rebuild.
#[derive(Clone, Copy, Debug, PartialEq, Eq, Drop)]
pub enum Started {
    /// The rebuild with this base is in the slot.
    Yes { rebuild: u32 },
    /// The slot held this word, and not the target.
    Other(u64),
    /// The parent isn't open.
    Marked,
}

/// The result of helping a rebuild.
#[derive(Clone, Copy, Debug, PartialEq, Eq, Drop)]
pub enum Helped {
    /// The root of the rebuild was put in its place.
    Replaced,
    /// The rebuild is still in its slot: the parent isn't open.
    ParentMarked,
}
