//! Callers to start from: one reads a shot after its pass went on, and one hands a shot to another
//! pass.
ghost use Rattle.std.specs.Prelude.{◌≡◌, IfOk};
ghost use Rattle.ist_scan.specs.Callers.{IsTotalBefore, IsListOnce};

use crate::shots::Shot;
use crate::totals::Total;
use ist_core::{Full, Pair};
use ist_tree::{Pass, Tree};
use std::alloc::{AllocError, Global};

/// Removes a key, and returns the total of the keys from `first` to `last` as it was at one moment
/// before that. Whatever other passes do meanwhile, the total is of one position of the map, which
/// isn't before what the pass had seen, and the remove is at that position or after it.
///
/// Returns `Full` if the tree had too few words left for the shot or for the remove.
pub fn total_then_remove(
    tree: &Tree,
    pass: &mut Pass,
    first: u64,
    last: u64,
    key: u64,
) -> Result<Total, Full>
    requires same_tree { pass.old.tree ≡ tree.now }
    ensures before { IfOk result (IsTotalBefore pass.old pass.new first last key) }
{
    let shot = Shot::take(tree, pass)?;
    tree.remove(pass, key)?;
    pass.know();
    let total = shot.total(tree, pass, first, last);
    pass.know();
    Ok(total)
}

/// Why no list was made.
#[derive(Clone, Copy, Debug, PartialEq, Eq, Drop)]
pub enum ListFault {
    /// The tree had too few words left for the shot.
    Full(Full),
    /// Out of memory.
    Memory,
}

impl From<Full> for ListFault {
    fn from(full: Full) -> ListFault {
        ListFault::Full(full)
    }
}

impl From<AllocError> for ListFault {
    fn from(_error: AllocError) -> ListFault {
        ListFault::Memory
    }
}

/// Takes a shot by one pass, tells another pass of it by a note, and lists the shot by both, from
/// `first` to `last`.
///
/// Both lists are the same pairs: those that the map had at one position, which isn't before what
/// the taker had seen. Whatever the other pass had seen before, and whatever happens meanwhile,
/// makes no difference.
pub fn list_by_both(
    alloc: Global,
    tree: &Tree,
    taker: &mut Pass,
    other: &mut Pass,
    first: u64,
    last: u64,
) -> Result<(Vec<Pair>, Vec<Pair>), ListFault>
    requires same_tree { taker.old.tree ≡ tree.now }
    requires other_tree { other.old.tree ≡ tree.now }
    ensures same { IfOk result (λ lists. lists.0.items ≡ lists.1.items) }
    ensures once { IfOk result (λ lists.
        IsListOnce taker.old taker.new first last lists.0.items) }
{
    let shot = Shot::take(tree, taker)?;
    let note = tree.note(taker);
    taker.know();
    tree.meet(other, note);
    other.know();
    let mine = shot.list(alloc, tree, taker, first, last)?;
    taker.know();
    let others = shot.list(alloc, tree, other, first, last)?;
    Ok((mine, others))
}
