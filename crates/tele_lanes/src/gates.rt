//! What the lanes report as they go.

/// Is notified of each call of each lane. The workers share it.
pub trait Gate {
    /// Is called when the lane of this number is about to make its call number `index`, counted
    /// from 0.
    fn before(&self, lane: u32, index: u64);

    /// Is called when the lane of this number has made its call number `index`, answered or
    /// refused.
    fn after(&self, lane: u32, index: u64);
}

/// A gate that does nothing.
#[derive(Clone, Copy, Drop)]
pub struct NoGate;

impl Gate for NoGate {
    fn before(&self, lane: u32, index: u64) {}

    fn after(&self, lane: u32, index: u64) {}
}
