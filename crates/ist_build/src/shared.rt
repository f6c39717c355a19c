//! A root that callers fill together.

// The root of a rebuild over many keys: it has a slot for each part, and any caller may fill it.
#[derive(Clone, Copy, Drop)]
pub(crate) struct SharedRoot {
    pub(crate) rebuild: u32,
    pub(crate) target: u32,
    pub(crate) root: u32,
    // How many keys the target has.
    pub(crate) keys: u64,
    // How many slots the root has.
    pub(crate) degree: u64,
}
