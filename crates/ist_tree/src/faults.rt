//! Why a tree isn't opened.
ghost use Rattle.std.specs.Prelude.{◌≡◌};
ghost use Rattle.ist_tree.specs.declared.faults.OpenFault.TheVariants.{Memory};

use std::alloc::AllocError;

/// Why a tree isn't opened.
#[derive(Clone, Copy, Debug, PartialEq, Eq, Drop)]
pub enum OpenFault {
    /// The tree of the pairs takes `needed` words, and only `words` were asked for.
    Small { needed: u64, words: u64 },
    /// Out of memory.
    Memory,
}

impl From<AllocError> for OpenFault {
    ghost from_gives = { λ _ fault. fault ≡ Memory };

    fn from(_error: AllocError) -> OpenFault {
        OpenFault::Memory
    }
}
