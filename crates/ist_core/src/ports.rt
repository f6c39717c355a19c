//! What the program asks of a map that callers share.
ghost use Rattle.std.specs.Prelude.{◌≡◌, ◌+◌, ◌<◌, List, [], ◌∷◌, ◌++◌, Option, Some};
ghost use Rattle.std.specs.Prelude.{IfOk, IfErr, OnOk, OnErr};
ghost use Rattle.ist_core.specs.Replies.{Answered, Refused, told, refusal};

use crate::commands::{Command, Reply};
use std::sync::Wait;

/// The table is full: `asked` more words were needed, and the first free one of its `words` words
/// is `next`.
#[derive(Clone, Copy, Debug, PartialEq, Eq, Drop)]
pub struct Full {
    pub next: u64,
    pub asked: u64,
    pub words: u64,
}

/// One caller of a shared map.
pub trait Port {
    /// What a port of this type belongs to, such as a table and a caller's number.
    type Tie;

    // the calls that got a reply, in order
    ghost calls: { Self → List Answered };
    // the last call that failed, if one did
    ghost refused: { Self → Option Refused };
    // what this port belongs to
    ghost tie: { Self → Self.Tie };

    /// Makes the call and returns its reply. It may retry or wait.
    ///
    /// Returns `Full` if no row is left for it. The call then didn't happen.
    fn call<R: Wait>(&mut self, rt: &R, command: Command) -> Result<Reply, Full>
        ensures recorded { IfOk result (λ r.
            calls self.new ≡ calls self.old ++ told command r ∷ []) }
        ensures unrefused { OnOk result (refused self.new ≡ refused self.old) }

        ensures full { IfErr result (λ f. f.words < f.next + f.asked) }
        ensures refused { IfErr result (λ f. refused self.new ≡ Some (refusal command f)) }
        ensures unchanged { OnErr result (calls self.new ≡ calls self.old) }

        ensures same_tie { tie self.new ≡ tie self.old };
}
