//! What ends a run before it came to its end.
ghost use Rattle.std.specs.Prelude.{◌≡◌};
ghost use Rattle.try_stress.specs.declared.faults.Fault.TheVariants as faults;

use ist_map::ReopenFault;
use ist_tree::OpenFault;
use std::alloc::{AllocError, AllocFailed};
use test_tools::Misfit;

/// Why a run didn't come to a good end.
#[derive(Clone, Copy, Debug, Drop)]
pub(crate) enum Fault {
    /// The plan can't be run.
    Unfit,
    /// The tree of the opening pairs takes `needed` words, and there are to be only `words`.
    Small { needed: u64, words: u64 },
    /// The map would take more words than a tree may have.
    Beyond,
    /// There is no memory for it.
    Memory,
    /// What was told in a round fits no order.
    Wrong { round: u64, misfit: Misfit },
    /// A worker of the map has calls without a reply.
    Unanswered { round: u64 },
    /// No rebuild was refused, and the closed tree isn't settled.
    Unsettled,
    /// The pairs of the closed tree aren't those that were found last.
    OtherPairs,
    /// The audit refuses the words of the closed tree, or lists other pairs.
    Unaudited,
}

impl From<AllocError> for Fault {
    ghost from_gives = { λ _ fault. fault ≡ faults.Memory };

    fn from(_error: AllocError) -> Fault {
        Fault::Memory
    }
}

impl<T: Drop> From<AllocFailed<T>> for Fault {
    ghost from_gives = { λ _ fault. fault ≡ faults.Memory };

    fn from(_failed: AllocFailed<T>) -> Fault {
        Fault::Memory
    }
}

impl From<OpenFault> for Fault {
    fn from(fault: OpenFault) -> Fault {
        match fault {
            OpenFault::Small { needed, words } => Fault::Small { needed, words },
            OpenFault::Memory => Fault::Memory,
        }
    }
}

impl From<ReopenFault> for Fault {
    fn from(fault: ReopenFault) -> Fault {
        match fault {
            ReopenFault::Small { .. } | ReopenFault::Beyond { .. } => Fault::Beyond,
            ReopenFault::Memory => Fault::Memory,
        }
    }
}
