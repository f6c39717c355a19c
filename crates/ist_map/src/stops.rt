//! A handle by which runs are stopped.
ghost use Rattle.std.specs.Prelude.{◌≡◌, true, false, None};

use std::sync::atomic::AtomicBool;
use std::sync::atomic::Ordering::SeqCst;

/// Requests that the workers of runs stop. Threads share it by reference, and workers get it with
/// each tree.
///
/// Contracts know nothing of what an atomic contains, so no clause says whether a stop was requested.
#[derive(Drop)]
pub struct Stop {
    can_stop: bool,
    flag: AtomicBool,
}

/// That a stop was requested. Only `Stop::requested` makes one.
#[derive(Clone, Copy, PartialEq, Eq)]
pub struct StopRequest {
    by_flag: bool,
}

impl Stop {
    /// A handle by which no stop was requested yet.
    pub const fn new() -> Stop
        ensures can_stop { result.can_stop ≡ true }
    {
        Stop {
            can_stop: true,
            flag: AtomicBool::new(false),
        }
    }

    /// A handle by which none is ever requested: for runs that end only when their workers are done.
    pub const fn never() -> Stop
        ensures can_stop { result.can_stop ≡ false }
    {
        Stop {
            can_stop: false,
            flag: AtomicBool::new(false),
        }
    }

    /// Requests a stop, of all who ask from now on.
    pub fn request(&self) {
        self.flag.store(true, SeqCst);
    }

    /// Returns whether a stop was requested: never by a handle that `never` made.
    pub fn requested(&self) -> Option<StopRequest>
        ensures never { self.now.can_stop ≡ false → result ≡ None }
    {
        let by_flag = self.can_stop && self.flag.load(SeqCst);
        by_flag.then_some(StopRequest { by_flag })
    }
}
