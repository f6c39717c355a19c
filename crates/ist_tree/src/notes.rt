//! What a pass has seen, handed on by notes.
ghost use Rattle.std.specs.Prelude.{◌≡◌};
ghost use Rattle.ist_rule.specs.Speaking.{MomentsGoOn};
ghost use Rattle.ist_tree.specs.Faces.{noted};
ghost use Rattle.ist_tree.specs.Calls.{HasSeenMore, HasLearnt, MakerHasLearnt, MakerHasSeenMore, WeavesWith};

use crate::passes::{Maker, Note, Pass};
use crate::trees::Tree;
use ist_rule::{join, know, split};

impl Tree {
    /// Makes a note of all that the pass has seen. If a note is dropped it is lost, and nothing
    /// else changes.
    pub fn note(&self, pass: &mut Pass) -> Note
        requires same_tree { pass.old.tree ≡ self.now }
        ensures value { result ≡ noted pass.old }
        ensures unchanged { pass.new ≡ pass.old }
    {
        know(&pass.caller.token);
        let token = split(&self.table, &mut pass.caller.token);
        Note { token }
    }

    /// Lets the pass learn what the note holds. Its calls are as before.
    ///
    /// The calls of both passes are then woven into one legal history. Each later call of this pass
    /// comes after each call that the note keeps.
    pub fn meet(&self, pass: &mut Pass, note: Note)
        requires same_tree { pass.old.tree ≡ self.now }
        requires its_tree { note.tree ≡ self.now }
        ensures seen { HasSeenMore pass.old pass.new }
        ensures no_walk { pass.new.searches ≡ pass.old.searches }
        ensures calls { pass.new.calls ≡ pass.old.calls }
        ensures learnt { HasLearnt pass.new note }
        ensures woven { WeavesWith pass.new note }
        ensures note_heard { MomentsGoOn note.moments pass.new.moments }
        ensures refused { pass.new.refused ≡ pass.old.refused }
    {
        let Note { token } = note;
        join(&self.table, &mut pass.caller.token, token);
    }

    /// Lets the maker learn what the note holds. Each pass that it makes from then on has seen all
    /// of that, so that its calls come after each call that the note keeps.
    pub fn learn(&self, maker: &mut Maker, note: Note)
        requires same_tree { maker.old.tree ≡ self.now }
        requires its_tree { note.tree ≡ self.now }
        ensures maker { MakerHasSeenMore maker.old maker.new }
        ensures learnt { MakerHasLearnt maker.new note }
    {
        let Note { token } = note;
        join(&self.table, &mut maker.token, token);
    }
}
