//! A pass with the tree that it calls, and a note with its tree.
ghost use Rattle.std.specs.Prelude.{◌≡◌, IfOk, IfErr};
ghost use Rattle.std.specs.Arc.{arc_value};
ghost use Rattle.ist_updates.specs.Asking.{command_for};
ghost use Rattle.ist_tree.specs.Faces.{noted};
ghost use Rattle.ist_tree.specs.Updates.{HasUpdated, HasWorked, IsTurnedAway};

use crate::trees::NumberedTree;
use ist_core::{Full, Reply};
use ist_tree::{Note, Pass};
use std::alloc::{AllocError, Global};
use std::sync::Arc;

/// A pass, and its tree, which it keeps alive: so each call of the tree may be made by this pass.
#[derive(Drop)]
pub struct TreePass {
    pub tree: Arc<NumberedTree, Global>,
    pub pass: Pass,
    pub ghost same_tree: { pass.tree ≡ (arc_value tree).tree },
}

/// A note of a pass, and its tree.
#[derive(Drop)]
pub struct TreeNote {
    pub tree: Arc<NumberedTree, Global>,
    pub note: Note,
    pub ghost same_tree: { note.tree ≡ (arc_value tree).tree },
}

impl TreePass {
    /// Puts the value at the key, or removes the key if there is no value, and returns the value that the
    /// key had.
    pub fn update(&mut self, key: u64, value: Option<u64>) -> Result<Reply, Full>
        ensures tree { arc_value self.new.tree ≡ arc_value self.old.tree }
        ensures worked { HasWorked self.old.pass self.new.pass }
        ensures updated { IfOk result
            (HasUpdated self.old.pass self.new.pass (command_for key value)) }
        ensures turned_away { IfErr result (IsTurnedAway self.old.pass self.new.pass key value) }
    {
        match value {
            Some(value) => self.tree.tree.put(&mut self.pass, key, value),
            None => self.tree.tree.remove(&mut self.pass, key),
        }
    }

    /// Makes a note of what the pass has seen, for another pass of its tree. Fails only if memory runs out.
    pub fn note(&mut self) -> Result<TreeNote, AllocError>
        ensures noted { IfOk result (λ told. told.note ≡ noted self.old.pass) }
        ensures its_tree { IfOk result (λ told. arc_value told.tree ≡ arc_value self.old.tree) }
        ensures unchanged { self.new.pass ≡ self.old.pass }
        ensures tree { arc_value self.new.tree ≡ arc_value self.old.tree }
    {
        let tree = Arc::try_clone(&self.tree)?;
        let note = self.tree.tree.note(&mut self.pass);
        Ok(TreeNote { tree, note })
    }
}
