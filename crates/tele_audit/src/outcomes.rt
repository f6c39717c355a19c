//! How a run of the program ends.
ghost use Rattle.std.specs.Prelude.{◌≡◌};

use tele_io::SinkFault;

/// The text was written whole: a dump, or an answer about one.
pub const DONE: u8 = 0;

/// The command-line arguments are wrong, and the line that says so was written.
pub const USAGE: u8 = 2;

/// A bad line was reached, and named.
pub const BAD_LINE: u8 = 3;

/// The source failed. Nothing was written.
pub const READ_FAILED: u8 = 4;

/// The sink failed.
pub const WRITE_FAILED: u8 = 5;

/// Memory ran out.
pub const NO_MEMORY: u8 = 7;

/// The bytes are no dump of lawful words, and their first flaw was named.
pub const FLAWED: u8 = 8;

/// Why a command stopped before its text was written whole.
#[derive(Clone, Copy, Debug, PartialEq, Eq, Drop)]
pub(crate) enum Halt {
    /// The source failed.
    Read,
    /// The sink failed.
    Write,
    /// Memory ran out.
    Memory,
}

/// Why a command stopped, if its sink returned this error.
pub(crate) fn halted(fault: SinkFault) -> Halt
    ensures failed { result ≡ Halt.Write → fault ≡ SinkFault.Failed }
    ensures wrote { result ≡ Halt.Read → ⊥ }
{
    match fault {
        SinkFault::Failed => Halt::Write,
        SinkFault::Memory => Halt::Memory,
    }
}
