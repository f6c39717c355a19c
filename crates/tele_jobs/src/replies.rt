//! Printing the replies of a round, and the last line of a round or of a run, after which all are passed
//! on.
ghost use Rattle.std.specs.Prelude.{◌≡◌, ◌≤◌, [], Err, OnOk, OnErr, IsErrOf};
ghost use Rattle.tele_io.specs.Bytes.{HaveRisen, Appends, AppendsPart};
ghost use Rattle.tele_lines.specs.Answer.{interval_text, bad_text, usage_text};
ghost use Rattle.tele_jobs.specs.Summaries.{summary_text};
ghost use Rattle.tele_jobs.specs.Causes.{IsCutShort, IsStatus};
ghost use Rattle.tele_jobs.specs.Open.{answers_text};

use crate::jobs::Job;
use crate::outcomes::{USAGE, WRITE_FAILED, refused};
use crate::summaries::{Summary, print_summary};
use ist_core::Pair;
use std::alloc::Global;
use tele_io::{Sink, SinkFault, write_whole};
use tele_lanes::Answer;
use tele_lines::{Cause, Version, print_answer, print_bad, print_interval};

/// Prints each answer on its own line, in order.
pub fn print_answers<O: Sink>(
    out: &mut O,
    version: Version,
    answers: &[Answer],
) -> Result<(), SinkFault>
    ensures printed { OnOk result (Appends (O.written out.old) (O.written out.new)
        (answers_text version answers.now)) }

    ensures failed { result ≡ Err SinkFault.Failed →
        HaveRisen (O.faults out.old) (O.faults out.new) }
    ensures part { OnErr result (AppendsPart (O.written out.old) (O.written out.new)
        (answers_text version answers.now)) }

    ensures counted { O.faults out.old ≤ O.faults out.new }
{
    for answer in answers {
        print_answer(out, version, answer.line, answer.reply)?;
    }
    Ok(())
}

/// Prints the reply to the interval line that ends a round, and passes on all that the sink took.
#[tactic(auto, using(crate::proofs::PassLemmas::passes))]
pub fn end_with_pairs<O: Sink>(
    out: &mut O,
    version: Version,
    line: u64,
    pairs: &[Pair],
) -> Result<(), SinkFault>
    ensures printed { OnOk result (Appends (O.written out.old) (O.written out.new)
        (interval_text version line pairs.now)) }
    ensures passed_on { OnOk result (O.held out.new ≡ []) }

    ensures failed { result ≡ Err SinkFault.Failed →
        HaveRisen (O.faults out.old) (O.faults out.new) }
    ensures part { OnErr result (AppendsPart (O.written out.old) (O.written out.new)
        (interval_text version line pairs.now)) }

    ensures counted { O.faults out.old ≤ O.faults out.new }
{
    print_interval(out, version, line, pairs)?;
    out.pass_on()
}

/// Prints that a line is bad, which ends the run, and passes on all that the sink took.
#[tactic(auto, using(crate::proofs::PassLemmas::passes))]
pub fn end_with_bad<O: Sink>(out: &mut O, line: u64, cause: Cause) -> Result<(), SinkFault>
    ensures printed { OnOk result (Appends (O.written out.old) (O.written out.new)
        (bad_text line cause)) }
    ensures passed_on { OnOk result (O.held out.new ≡ []) }

    ensures failed { result ≡ Err SinkFault.Failed →
        HaveRisen (O.faults out.old) (O.faults out.new) }
    ensures part { OnErr result (AppendsPart (O.written out.old) (O.written out.new)
        (bad_text line cause)) }

    ensures counted { O.faults out.old ≤ O.faults out.new }
{
    print_bad(out, line, cause)?;
    out.pass_on()
}

/// Prints a summary and passes it on.
#[tactic(auto, using(crate::proofs::PassLemmas::passes))]
pub fn end_with_summary<O: Sink>(
    out: &mut O,
    alloc: Global,
    summary: Summary,
) -> Result<(), SinkFault>
    ensures printed { OnOk result (Appends (O.written out.old) (O.written out.new)
        (summary_text summary)) }
    ensures passed_on { OnOk result (O.held out.new ≡ []) }

    ensures failed { result ≡ Err SinkFault.Failed →
        HaveRisen (O.faults out.old) (O.faults out.new) }
    ensures part { OnErr result (AppendsPart (O.written out.old) (O.written out.new)
        (summary_text summary)) }

    ensures counted { O.faults out.old ≤ O.faults out.new }
{
    print_summary(out, alloc, summary)?;
    out.pass_on()
}

/// Reports that the command line is refused, and returns the status.
pub fn refuse<O: Sink>(out: &mut O) -> u8
    ensures usage { result ≡ USAGE → Appends (O.written out.old) (O.written out.new) usage_text }
    ensures passed_on { ¬ (IsCutShort result) → O.held out.new ≡ [] }
    ensures part { IsCutShort result →
        AppendsPart (O.written out.old) (O.written out.new) usage_text }

    ensures statuses { IsStatus Job.Refuse result }
    ensures failed { result ≡ WRITE_FAILED → HaveRisen (O.faults out.old) (O.faults out.new) }

    ensures counted { O.faults out.old ≤ O.faults out.new }
{
    match end_with_usage(out) {
        Ok(()) => USAGE,
        Err(fault) => refused(fault),
    }
}

/// Prints that the command line is refused, and passes it on.
#[tactic(auto, using(crate::proofs::PassLemmas::passes))]
fn end_with_usage<O: Sink>(out: &mut O) -> Result<(), SinkFault>
    ensures printed { OnOk result (Appends (O.written out.old) (O.written out.new) usage_text) }
    ensures passed_on { OnOk result (O.held out.new ≡ []) }

    ensures failed { IsErrOf result SinkFault.Failed →
        HaveRisen (O.faults out.old) (O.faults out.new) }
    ensures part { OnErr result (AppendsPart (O.written out.old) (O.written out.new) usage_text) }

    ensures counted { O.faults out.old ≤ O.faults out.new }
{
    write_whole(out, b"! usage\n")?;
    out.pass_on()
}
