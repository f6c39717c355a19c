//! Pairs for the tests of searches.
ghost use Rattle.std.specs.Prelude.{◌≡◌, ℕ, ◌+◌, ◌*◌, ◌≤◌, ◌<◌, ◌^◌, length, IfOk};
ghost use Rattle.ist_core.specs.Lawful.{CanOpen};
ghost use Rattle.ist_core.specs.RowLayout.{place_limit};

use ist_core::Pair;
use std::alloc::{AllocError, Global};

/// Returns the pairs with the keys from 0 on, each with a value that is one more than its key.
pub(crate) fn pairs_of(alloc: Global, count: u64) -> Result<Vec<Pair>, AllocError>
    requires few { count < 2 ^ 20 }
    ensures count { IfOk result (λ pairs. length pairs.items ≡ count) }
    ensures opens { IfOk result (λ pairs. (words : ℕ) → 4 + 9 * count ≤ words → words ≤ place_limit
        → CanOpen pairs.items words) }
{
    let mut pairs = Vec::new(alloc);
    for key in 0..count {
        pairs.push(Pair {
            key,
            value: key + 1,
        })?;
    }
    Ok(pairs)
}
