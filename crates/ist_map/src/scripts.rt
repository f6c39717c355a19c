//! A worker that makes given calls, one after another.
ghost use Rattle.std.specs.Prelude.{◌≡◌, ◌≤◌, ◌⊎◌, ◌++◌, ◌∷◌, [], length, map, Some};
ghost use Rattle.std.specs.Prelude.{IfOk, IfErr, OnErr, vec_capacity};
ghost use Rattle.ist_core.specs.declared.ports.Full.{Full};
ghost use Rattle.ist_core.specs.Replies.{told};
ghost use Rattle.ist_core.specs.Resting.{told_by_call};
ghost use Rattle.ist_tree.specs.Calls.{HasSeenMore};
ghost use Rattle.ist_map.specs.Refusing.{IsRefusedTo};
ghost use Rattle.ist_map.specs.Scripts.{told_in};

use crate::hands::Worker;
use crate::stops::{Stop, StopRequest};
use ist_core::{Command, Full, Reply};
use ist_tree::{Pass, Tree};
use std::alloc::{AllocError, Global};
use std::marker::Model;

/// Makes given calls in their order, and keeps the reply of each. It asks for a tree with more words
/// when a call is refused, or a rebuild was, and asks before each call whether it is to stop.
///
/// Contracts see its commands and the replies so far.
#[derive(Drop)]
pub struct Script {
    pub(crate) commands: Vec<Command>,
    pub(crate) replies: Vec<Reply>,
}

impl Model for Script {
    ghost use Rattle.std.specs.Prelude.{◌≤◌, length, vec_capacity};
    ghost use Rattle.ist_map.specs.Scripts.{ScriptFace, script};

    ghost Value = { ScriptFace };

    ghost view = { λ s. script s.commands.items s.replies.items };

    ghost invariant = { λ s. (length s.replies.items ≤ length s.commands.items)
        × (length s.commands.items ≤ vec_capacity s.replies) };
}

impl Worker for Script {
    ghost told = { λ s. told_in s.commands s.replies };

    ghost is_done = { λ s. length s.replies ≡ length s.commands };

    fn work(
        &mut self,
        tree: &Tree,
        pass: &mut Pass,
        stop: &Stop,
    ) -> Result<Option<StopRequest>, Full> {
        while self.replies.len() < self.commands.len() {
            let asked = stop.requested();
            if asked.is_some() {
                return Ok(asked);
            }
            let command = self.commands[self.replies.len()];
            let reply = call(tree, pass, command)?;
            self.replies.push_reserved(reply);
            if let Some(full) = pass.rebuild_refused() {
                return Err(full);
            }
        }
        Ok(None)
    }
}

impl Script {
    /// A worker that is to make these calls. All memory for the replies is allocated here.
    pub fn new(alloc: Global, commands: Vec<Command>) -> Result<Script, AllocError>
        ensures commands { IfOk result (λ s. s.commands ≡ commands.items) }
        ensures none { IfOk result (λ s. s.replies ≡ []) }
    {
        let replies = Vec::with_capacity(alloc, commands.len())?;
        Ok(Script { commands, replies })
    }

    /// Returns the commands.
    pub fn commands(&self) -> &[Command]
        ensures value { result.now ≡ self.now.commands }
    {
        &self.commands
    }

    /// Returns the replies so far, in the order of the commands.
    pub fn replies(&self) -> &[Reply]
        ensures value { result.now ≡ self.now.replies }
    {
        &self.replies
    }
}

// Makes one call.
fn call(tree: &Tree, pass: &mut Pass, command: Command) -> Result<Reply, Full>
    requires same_tree { pass.old.tree ≡ tree.now }
    ensures seen { HasSeenMore pass.old pass.new }
    ensures added { IfOk result (λ reply. map told_by_call pass.new.calls
        ≡ map told_by_call pass.old.calls ++ told command reply ∷ []) }
    ensures unchanged { OnErr result (pass.new.calls ≡ pass.old.calls) }
    ensures full { IfErr result (IsRefusedTo pass.old pass.new) }
    ensures refused { (full : Full) → pass.new.refused ≡ Some full
        → (pass.old.refused ≡ Some full) ⊎ IsRefusedTo pass.old pass.new full }
{
    match command {
        Command::Put { key, value } => tree.put(pass, key, value),
        Command::Remove { key } => tree.remove(pass, key),
        Command::Get { key } => Ok(tree.find(pass, key)),
    }
}
