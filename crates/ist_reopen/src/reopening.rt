//! One tree after another.
ghost use Rattle.std.specs.Prelude.{◌≡◌, ◌≤◌, length, IfOk, IfErr, OnOk};
ghost use Rattle.ist_core.specs.Images.{IsImage};
ghost use Rattle.ist_core.specs.RowLayout.{place_limit};
ghost use Rattle.ist_core.specs.StartLayout.{start};
ghost use Rattle.ist_tree.specs.Closing.{ClosesWith};
ghost use Rattle.ist_reopen.specs.Reopening.{OpensAfter, BeginsAfter, IsReopenFaultOf};

use crate::faults::{NotReopened, ReopenFault};
use ist_image::Image;
use ist_rest::Closed;
use ist_tree::{Maker, Tree};
use std::alloc::Global;

/// The most words that a tree has.
pub const MOST_WORDS: u32 = 1 << 28;

/// Opens a tree of `words` words over the pairs of a closed one, in the memory of the image.
///
/// The closed tree stays as it is, also if no tree is opened. It returns `Beyond` exactly if more
/// than `MOST_WORDS` words were asked for, and `Small` only if the tree of the pairs takes more
/// words. `Memory` means that allocation failed.
pub fn open_after(
    alloc: Global,
    image: &mut Image,
    closed: &Closed,
    words: u32,
) -> Result<(Tree, Maker), ReopenFault>
    ensures new { IfOk result (λ t. OpensAfter closed.now words t.0 t.1) }
    ensures image { IfOk result (λ t. IsImage (start t.0.start words) image.new) }
    ensures within { OnOk result (words ≤ place_limit) }
    ensures fault { IfErr result (λ f. IsReopenFaultOf closed.now words f) }
{
    if words > MOST_WORDS {
        return Err(ReopenFault::Beyond { words });
    }
    let pairs = closed.pairs(alloc)?;
    closed.know();
    Ok(Tree::open_over(alloc, image, words, &pairs)?)
}

/// Closes the tree, and opens one of `words` words that begins with exactly the pairs that all
/// calls of its passes left. All passes were taken back. The new words are laid in the memory of
/// the image.
///
/// If no tree is opened, the closed one is returned, and holds these pairs. `open_after` opens a
/// tree of them, with other words or when there is memory again.
pub fn reopen(
    alloc: Global,
    image: &mut Image,
    tree: Tree,
    maker: Maker,
    words: u32,
) -> Result<(Tree, Maker), NotReopened>
    requires same_tree { maker.tree ≡ tree }
    requires all_back { length maker.taken ≡ maker.made }
    ensures follows { IfOk result (λ t. BeginsAfter maker words t.0 t.1) }
    ensures image { IfOk result (λ t. IsImage (start t.0.start words) image.new) }
    ensures kept { IfErr result (λ n. ClosesWith maker n.closed) }
    ensures size { IfErr result (λ n. length n.closed ≡ maker.tree.words) }
    ensures fault { IfErr result (λ n. IsReopenFaultOf n.closed words n.fault) }
{
    let closed = tree.close(maker);
    match open_after(alloc, image, &closed, words) {
        Ok(made) => Ok(made),
        Err(fault) => Err(NotReopened { closed, fault }),
    }
}
