//! Why a list of events is rejected.
ghost use Rattle.std.specs.Prelude.{◌≡◌};
ghost use Rattle.ist_check.specs.declared.faults.CheckFault.TheVariants.{Memory};

use std::alloc::AllocError;

/// Why `check` gives no state.
#[derive(Clone, Copy, Debug, PartialEq, Eq, Drop)]
pub enum CheckFault {
    /// Event number `at`, counted from 0, is the first that may not come after those before it.
    Unlawful { at: u64 },
    /// Memory ran out.
    Memory,
}

impl From<AllocError> for CheckFault {
    ghost from_gives = { λ _ fault. fault ≡ Memory };

    fn from(_error: AllocError) -> CheckFault {
        CheckFault::Memory
    }
}
