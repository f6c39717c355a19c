//! Why a closed tree isn't followed by another one.
ghost use Rattle.std.specs.Prelude.{◌≡◌};
ghost use Rattle.ist_reopen.specs.declared.faults.ReopenFault.TheVariants.{Memory};
ghost use Rattle.ist_reopen.specs.Reopening.{as_reopen};

use ist_rest::Closed;
use ist_tree::OpenFault;
use std::alloc::AllocError;

/// Why a closed tree isn't followed by another one.
#[derive(Clone, Copy, Debug, PartialEq, Eq, Drop)]
pub enum ReopenFault {
    /// More words were asked for than a tree may have (`MOST_WORDS`).
    Beyond { words: u32 },
    /// The tree of the pairs takes `needed` words, and only `words` were asked for.
    Small { needed: u64, words: u64 },
    /// Out of memory.
    Memory,
}

impl From<AllocError> for ReopenFault {
    ghost from_gives = { λ _ fault. fault ≡ Memory };

    fn from(_error: AllocError) -> ReopenFault {
        ReopenFault::Memory
    }
}

impl From<OpenFault> for ReopenFault {
    ghost from_gives = { λ first fault. fault ≡ as_reopen first };

    fn from(fault: OpenFault) -> ReopenFault {
        match fault {
            OpenFault::Small { needed, words } => ReopenFault::Small { needed, words },
            OpenFault::Memory => ReopenFault::Memory,
        }
    }
}

/// A tree that was closed and isn't followed by another one: its words, and why. They hold every
/// pair, so that `open_after` can be called again.
#[derive(Drop)]
pub struct NotReopened {
    /// The words of the tree after its last call.
    pub closed: Closed,
    /// Why no tree was opened.
    pub fault: ReopenFault,
}
