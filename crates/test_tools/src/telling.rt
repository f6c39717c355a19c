//! A thread's call on a map, and its reply.

use ist_core::Reply;

/// What is asked with one key: a put of the value, a remove, or the value.
#[derive(Clone, Copy, Debug, PartialEq, Eq, Drop)]
pub enum Asked {
    Put(u64, u64),
    Remove(u64),
    Find(u64),
}

impl Asked {
    /// Returns the key that is asked with.
    pub fn key(self) -> u64 {
        match self {
            Asked::Put(key, _) => key,
            Asked::Remove(key) => key,
            Asked::Find(key) => key,
        }
    }
}

/// A call and its reply.
#[derive(Clone, Copy, Debug, PartialEq, Eq, Drop)]
pub struct Told {
    pub asked: Asked,
    pub reply: Reply,
}
