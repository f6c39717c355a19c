//! A pass on its tree, as one caller of a shared map.
ghost use Rattle.std.specs.Prelude.{◌≡◌, ℕ, ◌+◌, ◌<◌, ◌++◌, [], ◌∷◌, Some, None, IfSome, IfOk, IfErr, OnOk, OnErr};
ghost use Rattle.ist_core.specs.Replies.{refusal, told};
ghost use Rattle.ist_tree.specs.Calls.{HasSeenMore, AddsCall};
ghost use Rattle.ist_tree.specs.Faces.{TreeFace};
ghost use Rattle.ist_tree.specs.RealTime.{ReturnsInTime};
ghost use Rattle.ist_tree.specs.Refusals.{IsRefusedCall, PassWasRefused};

use crate::passes::Pass;
use crate::trees::Tree;
use ist_core::{Command, Full, Port, Reply};
use std::marker::Model;
use std::sync::Wait;

// Makes the call by the pass.
fn answer(tree: &Tree, pass: &mut Pass, command: Command) -> Result<Reply, Full>
    requires same_tree { pass.old.tree ≡ tree.now }
    ensures seen { HasSeenMore pass.old pass.new }
    ensures added { IfOk result (λ reply. AddsCall pass.old pass.new command reply) }
    ensures timed { IfOk result (λ reply. ReturnsInTime pass.old pass.new command reply) }
    ensures full { IfErr result (λ full. PassWasRefused pass.new (refusal command full)) }
    ensures cause { IfErr result (IsRefusedCall pass.old pass.new command) }
    ensures small { IfErr result (λ full. full.words < full.next + full.asked) }
    ensures calls { OnErr result (pass.new.calls ≡ pass.old.calls) }
{
    match command {
        Command::Put { key, value } => tree.put(pass, key, value),
        Command::Remove { key } => tree.remove(pass, key),
        Command::Get { key } => Ok(tree.find(pass, key)),
    }
}

/// A pass on its tree, as one caller of a shared map: a put calls `put`, a remove `remove`, a get
/// `find`.
///
/// Contracts see its pass, and the last call that was refused, if one was.
#[derive(Drop)]
pub struct TreePort<'a> {
    tree: &'a Tree,
    pass: Pass,
    refused: Option<(Command, Full)>,
}

impl<'a> Model for TreePort<'a> {
    ghost use Rattle.std.specs.Prelude.{option_map};
    ghost use Rattle.ist_tree.specs.Faces.{PortFace};
    ghost use Rattle.ist_tree.specs.Insides.{refusal_in, IsPort};

    ghost Value = { PortFace };

    ghost view = { λ p. record { pass = p.pass; refused = option_map refusal_in p.refused } };

    ghost invariant = { λ p. IsPort p.tree.now p.pass (option_map refusal_in p.refused) };
}

impl<'a> TreePort<'a> {
    /// Makes the port of a pass on its tree. The pass has made no call.
    pub fn new(tree: &'a Tree, pass: Pass) -> TreePort<'a>
        requires same_tree { pass.tree ≡ tree.now }
        requires no_calls { pass.calls ≡ [] }
        ensures pass { result.pass ≡ pass }
        ensures unrefused { result.refused ≡ None }
    {
        TreePort {
            tree,
            pass,
            refused: None,
        }
    }

    /// Returns the pass of the port.
    pub fn into_pass(self) -> Pass
        ensures value { result ≡ self.entry.pass }
    {
        let TreePort { pass, .. } = self;
        pass
    }

    /// For proofs only: why the port's last refusal came, if it keeps one.
    pub fn know(&self)
        ensures cause { IfSome self.now.refused (PassWasRefused self.now.pass) }
    {
        let _ = &self.tree;
    }
}

impl<'a> Port for TreePort<'a> {
    ghost use Rattle.std.specs.Prelude.{map};
    ghost use Rattle.ist_core.specs.Resting.{told_by_call};

    type Tie = (Tree, u64);

    ghost calls = { λ p. map told_by_call p.pass.calls };

    ghost refused = { λ p. p.refused };

    ghost tie = { λ p. (p.pass.tree, p.pass.number) };

    fn call<R: Wait>(&mut self, rt: &R, command: Command) -> Result<Reply, Full>
        ensures recorded { IfOk result (λ r. map told_by_call self.new.pass.calls
            ≡ map told_by_call self.old.pass.calls ++ told command r ∷ []) }
        ensures timed { IfOk result (λ r.
            ReturnsInTime self.old.pass self.new.pass command r) }
        ensures unrefused { OnOk result (self.new.refused ≡ self.old.refused) }
        ensures full { IfErr result (λ f. f.words < f.next + f.asked) }
        ensures refused { IfErr result (λ f. self.new.refused ≡ Some (refusal command f)) }
        ensures unchanged { OnErr result
            (map told_by_call self.new.pass.calls ≡ map told_by_call self.old.pass.calls) }
        ensures same_tie { let then : TreeFace × ℕ = (self.old.pass.tree, self.old.pass.number) in
            let since : TreeFace × ℕ = (self.new.pass.tree, self.new.pass.number) in
            since ≡ then }
        ensures cause { IfErr result (IsRefusedCall self.old.pass self.new.pass command) }
    {
        let _ = rt;
        match answer(self.tree, &mut self.pass, command) {
            Ok(reply) => Ok(reply),
            Err(full) => {
                self.refused = Some((command, full));
                Err(full)
            }
        }
    }
}
