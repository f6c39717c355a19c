//! What hangs below a slot.

/// What hangs below a slot that was passed.
#[derive(Clone, Copy, Drop)]
pub(crate) enum PassedChild {
    /// This many keys, and no inner row.
    Keys(u64),
    /// An inner row.
    Node(u32),
}
