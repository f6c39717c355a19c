//! A key with its value.

/// A key of a map and the value that it has. In memory as C has it: the key first.
#[repr(C)]
#[derive(Clone, Copy, Debug, PartialEq, Eq, Drop)]
pub struct Pair {
    pub key: u64,
    pub value: u64,
}
