//! A tree that was closed, and what is left of it.
ghost use Rattle.std.specs.Prelude.{◌≡◌, IfOk, IfErr};
ghost use Rattle.std.specs.Arc.{arc_value};
ghost use Rattle.ist_reopen.specs.Reopening.{OpensAfter, IsReopenFaultOf};
ghost use Rattle.ist_handles.specs.Leaving.{IsLeft};

use crate::owners::TreeOwner;
use crate::trees::NumberedTree;
use ist_core::Pair;
use ist_image::Image;
use ist_reopen::{ReopenFault, open_after};
use ist_rest::Closed;
use std::alloc::{AllocError, Global};
use std::sync::Arc;

/// A tree that was closed: its words after the last call.
#[derive(Drop)]
pub struct ClosedTree {
    pub closed: Closed,
}

/// What is left of a closed tree: its pairs, how many words it had, and how many of these were used.
#[derive(Drop)]
pub struct LeftPairs {
    pub pairs: Vec<Pair>,
    pub words: u64,
    pub used: u64,
}

impl ClosedTree {
    /// Opens a tree of the pairs, with this many words and this number, and returns its owner. The closed
    /// tree stays as it is.
    pub fn open(&self, alloc: Global, words: u32, number: u64) -> Result<TreeOwner, ReopenFault>
        ensures new { IfOk result (λ owner.
            OpensAfter self.now.closed words (arc_value owner.tree).tree owner.maker) }
        ensures number { IfOk result (λ owner. (arc_value owner.tree).number ≡ number) }
        ensures fault { IfErr result (IsReopenFaultOf self.now.closed words) }
    {
        let mut image = Image::new(alloc);
        let (tree, maker) = open_after(alloc, &mut image, &self.closed, words)?;
        match Arc::new(alloc, NumberedTree { tree, number }) {
            Ok(tree) => Ok(TreeOwner { tree, maker }),
            Err(_) => Err(ReopenFault::Memory),
        }
    }

    /// Returns what is left of the tree. Fails only if memory runs out.
    pub fn list(&self, alloc: Global) -> Result<LeftPairs, AllocError>
        ensures left { IfOk result (IsLeft self.now.closed) }
    {
        let pairs = self.closed.pairs(alloc)?;
        Ok(LeftPairs {
            pairs,
            words: self.closed.word_count(),
            used: self.closed.used(),
        })
    }
}
