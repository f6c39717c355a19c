//! What a tree or a map holds when a judged run begins.

use ist_core::Command;
use plain_map::Plain;
use std::alloc::{AllocError, Global};

/// Returns the pairs at the opening: the lower half of the keys below `span`, each with an odd value of
/// its own. So a value that was put is told from one of the opening if the run puts even values.
pub fn opening_pairs(alloc: Global, span: u64) -> Result<Plain, AllocError> {
    let mut plain = Plain::new(alloc);
    for key in 0..span / 2 {
        let value = key.wrapping_mul(2).wrapping_add(1);
        plain.apply(Command::Put { key, value })?;
    }
    Ok(plain)
}
