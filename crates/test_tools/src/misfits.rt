//! Why the replies that threads got fit no order.
ghost use Rattle.std.specs.Prelude.{◌≡◌};
ghost use Rattle.test_tools.specs.declared.misfits.Misfit.TheVariants.{Memory};

use std::alloc::{AllocError, AllocFailed};

/// Why the replies that threads got fit no order.
#[derive(Clone, Copy, Debug, PartialEq, Eq, Drop)]
pub enum Misfit {
    /// The value was replaced or removed twice.
    ReplacedTwice { value: u64 },
    /// The value was written twice.
    WrittenTwice { value: u64 },
    /// The value was found at a key at which it was never written.
    NeverThere { key: u64, value: u64 },
    /// A value was replaced that isn't reached from the opening and the puts that found nothing.
    OutOfReach,
    /// The pairs at the close aren't the last values of the keys.
    NotAtClose,
    /// The value was found when the thread should have found a later one.
    OutOfOrder { key: u64, value: u64 },
    /// Nothing was found although the key had a value.
    NotFound { key: u64 },
    /// Two threads saw lives of a key in different orders.
    Around,
    /// A call on the key found what was there before another call had ended, though it began after that.
    Stale { key: u64 },
    /// A frozen tree shows a change of a thread, and not one that it made before.
    Torn { key: u64 },
    /// Of two frozen trees each shows a value that came after the other's.
    Crossed,
    /// The judging ran out of memory.
    Memory,
}

impl From<AllocError> for Misfit {
    ghost from_gives = { λ _ misfit. misfit ≡ Memory };

    fn from(_error: AllocError) -> Misfit {
        Misfit::Memory
    }
}

impl<T: Drop> From<AllocFailed<T>> for Misfit {
    ghost from_gives = { λ _ misfit. misfit ≡ Memory };

    fn from(_failed: AllocFailed<T>) -> Misfit {
        Misfit::Memory
    }
}
