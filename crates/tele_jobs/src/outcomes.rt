//! How a run ends.
ghost use Rattle.std.specs.Prelude.{◌≡◌, None};
ghost use Rattle.tele_jobs.specs.Causes.{IsCutShort};

use ist_rest::Closed;
use tele_io::SinkFault;

/// The input was read to its end, and every line was answered.
pub const ANSWERED: u8 = 0;

/// The command line was refused, and the line that says so was written.
pub const USAGE: u8 = 2;

/// A bad line was reached. The lines before it were answered, and the bad line was named.
pub const BAD_LINE: u8 = 3;

/// The source failed.
pub const READ_FAILED: u8 = 4;

/// The sink failed.
pub const WRITE_FAILED: u8 = 5;

/// Memory ran out.
pub const NO_MEMORY: u8 = 7;

/// How a run ended.
#[derive(Drop)]
pub struct Outcome {
    /// The exit status: one of the constants of this module.
    pub status: u8,
    /// The last table, if the input was answered and had a line that needs a table.
    pub last: Option<Closed>,
    /// How many tables of the last round ran full.
    pub fulls: u64,
}

/// Returns the outcome of a run that ended without an answer to its input.
pub fn without_table(status: u8) -> Outcome
    ensures value { result ≡ record { status = status; last = None; fulls = 0 } }
{
    Outcome {
        status,
        last: None,
        fulls: 0,
    }
}

/// Returns the status to end with if the sink failed or memory ran out.
pub fn refused(fault: SinkFault) -> u8
    ensures failed { result ≡ WRITE_FAILED → fault ≡ SinkFault.Failed }
    ensures memory { result ≡ NO_MEMORY → fault ≡ SinkFault.Memory }
    ensures other { IsCutShort result }
{
    match fault {
        SinkFault::Failed => WRITE_FAILED,
        SinkFault::Memory => NO_MEMORY,
    }
}
