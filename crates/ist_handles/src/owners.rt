//! The owner of a tree: it makes passes, and closes the tree.
ghost use Rattle.std.specs.Prelude.{◌≡◌, ◌+◌, ◌<◌, ◌≤◌, ◌^◌, [], length, map, IfOk, IfErr, OnOk, OnErr};
ghost use Rattle.std.specs.Arc.{arc_value};
ghost use Rattle.std.specs.List.Sorted.{IsStrictlyIncreasing};
ghost use Rattle.ist_core.specs.RowLayout.{place_limit};
ghost use Rattle.ist_tree.specs.Closing.{ClosesWith};
ghost use Rattle.ist_tree.specs.Opening.{IsNewTree, IsFaultOf};

use crate::closed_trees::ClosedTree;
use crate::passes::TreePass;
use crate::trees::NumberedTree;
use ist_core::Pair;
use ist_tree::{Maker, OpenFault, Tree};
use std::alloc::{AllocError, Global};
use std::sync::Arc;

/// How many pairs a tree is opened with at most.
pub const PAIRS_LIMIT: u64 = 0xffff_ffff;

/// How many passes a tree has at most.
const PASSES_LIMIT: u64 = 0xffff_ffff;

/// A tree with its maker.
#[derive(Drop)]
pub struct TreeOwner {
    pub tree: Arc<NumberedTree, Global>,
    pub maker: Maker,
    pub ghost same_tree: { maker.tree ≡ (arc_value tree).tree },
}

impl TreeOwner {
    /// Opens a tree of the pairs, with this many words and this number, and returns its owner.
    pub fn open(
        alloc: Global,
        words: u32,
        pairs: &[Pair],
        number: u64,
    ) -> Result<TreeOwner, OpenFault>
        requires rising { IsStrictlyIncreasing (map (λ pair. pair.key) pairs.now) }
        requires few { length pairs.now < 2 ^ 32 }
        requires within { words ≤ place_limit }
        ensures new { IfOk result (λ owner.
            IsNewTree words pairs.now (arc_value owner.tree).tree owner.maker) }
        ensures number { IfOk result (λ owner. (arc_value owner.tree).number ≡ number) }
        ensures fault { IfErr result (IsFaultOf words pairs.now) }
    {
        let (tree, maker) = Tree::open(alloc, words, pairs)?;
        match Arc::new(alloc, NumberedTree { tree, number }) {
            Ok(tree) => Ok(TreeOwner { tree, maker }),
            Err(_) => Err(OpenFault::Memory),
        }
    }

    /// Makes the next pass. Fails only if memory runs out, or if as many were made as there can be.
    pub fn pass(&mut self) -> Result<TreePass, AllocError>
        ensures tree { arc_value self.new.tree ≡ arc_value self.old.tree }
        ensures its_tree { IfOk result (λ made. arc_value made.tree ≡ arc_value self.old.tree) }
        ensures number { IfOk result (λ made. made.pass.number ≡ self.old.maker.made) }
        ensures no_calls { IfOk result (λ made. made.pass.calls ≡ []) }
        ensures made { OnOk result (self.new.maker.made ≡ self.old.maker.made + 1) }
        ensures taken { OnOk result (self.new.maker.taken ≡ self.old.maker.taken) }
        ensures unmade { OnErr result (self.new.maker ≡ self.old.maker) }
    {
        if self.maker.made() >= PASSES_LIMIT {
            return Err(AllocError);
        }
        let tree = Arc::try_clone(&self.tree)?;
        let pass = self.tree.tree.pass(&mut self.maker);
        Ok(TreePass { tree, pass })
    }

    /// Closes the tree and returns its words after the last call. If a pass or a note is out it returns the
    /// owner.
    pub fn close(self) -> Result<ClosedTree, TreeOwner>
        ensures closes { IfOk result (λ c. ClosesWith self.maker c.closed) }
        ensures size { IfOk result (λ c. length c.closed ≡ self.maker.tree.words) }
        ensures same { IfErr result (λ owner. (arc_value owner.tree ≡ arc_value self.tree)
            × (owner.maker ≡ self.maker)) }
    {
        if self.maker.made() != self.maker.taken_back() {
            return Err(self);
        }
        let TreeOwner { tree, maker } = self;
        match Arc::try_unwrap(tree) {
            Ok(NumberedTree { tree, number: _ }) => Ok(ClosedTree {
                closed: tree.close(maker),
            }),
            Err(tree) => Err(TreeOwner { tree, maker }),
        }
    }
}
