//! What is printed for made lines.
ghost use Rattle.std.specs.Prelude.{◌≡◌, ◌≤◌, string_bytes, Err, IfOk, OnOk, OnErr};
ghost use Rattle.tele_io.specs.Bytes.{HaveRisen, Appends, AppendsPart};
ghost use Rattle.tele_jobs.specs.Summaries.{summary_text, value_sum};

use ist_core::Pair;
use std::alloc::{AllocError, Global};
use tele_io::{Sink, SinkFault, write_whole};

/// What made lines did to a map.
#[derive(Clone, Copy, Drop)]
pub struct Summary {
    /// How many lines there were.
    pub made: u64,
    /// How many keys the map has after them.
    pub keys: u64,
    /// How many of them get a value as their reply.
    pub found: u64,
    /// The sum of the values of the map after them, modulo 2^64.
    pub sum: u64,
}

/// Returns the sum of the values of some pairs, modulo 2^64.
pub fn sum_of(pairs: &[Pair]) -> u64
    ensures value { result ≡ value_sum pairs.now }
{
    let mut sum: u64 = 0;
    for pair in pairs {
        sum = sum.wrapping_add(pair.value);
    }
    sum
}

/// Returns the line for a summary.
fn line_of(alloc: Global, summary: Summary) -> Result<String, AllocError>
    ensures { IfOk result (λ line. string_bytes line ≡ summary_text summary) }
{
    let Summary {
        made,
        keys,
        found,
        sum,
    } = summary;
    match format!(in alloc; "made {made} keys {keys} found {found} sum {sum}\n") {
        Ok(line) => Ok(line),
        Err(AllocError) => Err(AllocError),
    }
}

/// Prints a summary: `made 2 keys 2 found 0 sum 74222` and a newline.
///
/// It goes out by one `write_whole`. On an error, which is the sink's or for lack of memory, a
/// prefix of the line may have been written.
pub fn print_summary<O: Sink>(out: &mut O, alloc: Global, summary: Summary) -> Result<(), SinkFault>
    ensures printed { OnOk result (Appends (O.written out.old) (O.written out.new)
        (summary_text summary)) }

    ensures failed { result ≡ Err SinkFault.Failed →
        HaveRisen (O.faults out.old) (O.faults out.new) }
    ensures part { OnErr result (AppendsPart (O.written out.old) (O.written out.new)
        (summary_text summary)) }

    ensures counted { O.faults out.old ≤ O.faults out.new }
{
    match line_of(alloc, summary) {
        Ok(line) => write_whole(out, line.as_bytes()),
        Err(AllocError) => Err(SinkFault::Memory),
    }
}
