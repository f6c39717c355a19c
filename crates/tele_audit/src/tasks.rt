//! The slots that an audit has still to visit.

/// A slot still to visit: its place and its word, the base of its node, and the keys that lead
/// there, from `low` on and below `high`.
#[derive(Clone, Copy, Drop)]
pub(crate) struct AuditTask {
    pub place: u64,
    pub word: u64,
    pub node: u64,
    pub low: u64,
    pub high: Option<u64>,
}
