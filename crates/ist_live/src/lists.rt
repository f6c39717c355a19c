//! The pairs between two keys.
ghost use Rattle.std.specs.Prelude.{◌≡◌, IfOk};
ghost use Rattle.ist_live.specs.Reading.{HasOnlyRead};
ghost use Rattle.ist_live.specs.Lists.{AreInTurn, AreLive, HasListedLive};

use ist_core::Pair;
use ist_tree::{Pass, Tree};
use std::alloc::{AllocError, Global};

/// Returns the pairs from `first` to `last`, both included, in strictly increasing order of keys.
/// Never blocks. If allocation fails it returns an error; the pass has then read some of the keys.
///
/// Each key from `first` to `last` had what the list gives it at a position of its own during the call:
/// not all at one moment, as in a shot. Time never goes back along the keys: a pair was in the map at
/// a position after some moment of the call, and each pair listed earlier at a position before it. The
/// keys are read slot after slot (`spans`), by one way down and up the tree.
pub fn list_live(
    alloc: Global,
    tree: &Tree,
    pass: &mut Pass,
    first: u64,
    last: u64,
) -> Result<Vec<Pair>, AllocError>
    requires same_tree { pass.old.tree ≡ tree.now }
    ensures read { HasOnlyRead pass.old pass.new }
    ensures live { IfOk result (λ found. AreLive pass.old pass.new first last found.items) }
    ensures in_turn { IfOk result (λ found. AreInTurn pass.old pass.new found.items) }
    ensures spans { IfOk result (λ found. HasListedLive pass.old pass.new first last found.items) }
{
    let mut found = Vec::new(alloc);
    if last < first {
        return Ok(found);
    }
    tree.sweep(pass, first, last, &mut found)?;
    Ok(found)
}
