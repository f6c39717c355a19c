//! The program as one call, from bytes to bytes.
ghost use Rattle.std.specs.Prelude.{◌≡◌, ◌≤◌, ◌⊎◌, [], Some, Ok, Err, map, string_bytes, IfOk, IfSome, OnOk, OnErr};
ghost use Rattle.tele_io.specs.Bytes.{HaveRisen, Appends, AppendsPart};
ghost use Rattle.tele_lines.specs.Answer.{usage_text};
ghost use Rattle.tele_audit.specs.Jobs.{audit_job};
ghost use Rattle.tele_audit.specs.Runs.{Writes, WritesPart, IsWrittenWhole, EndsEarly, IsRunStatus};

use crate::audits::audit;
use crate::flaws::AuditFault;
use crate::jobs::{Job, Question, read_job};
use crate::outcomes::{DONE, FLAWED, Halt, NO_MEMORY, READ_FAILED, USAGE, WRITE_FAILED, halted};
use crate::packing::pack;
use crate::texts::{write_answer, write_flaw};
use std::alloc::Global;
use tele_io::{Sink, Source, write_whole};

/// Packs the pairs of telemetry lines into the dump of a table, checks a dump, or lists its pairs
/// between two timestamps. Always returns, with the exit status.
///
/// `words` are the command-line arguments, the program's name first. `pack` reads lines from the
/// source, carries out the point lines on a map, skips interval lines, and writes the dump of a new
/// table of the pairs, with exactly the words that they need. `check` audits the dump that the
/// source gives, and writes the numbers of keys, used words and words. `list A B` also audits it,
/// and writes the pairs from A to B, both included, one per line, in unsigned decimal; A and B are
/// numerals below 2^64.
///
/// - 0: the whole text of the command was written;
/// - 2: the arguments are wrong, and a line that says so was written; nothing was read;
/// - 3: `pack` reached a bad line, and named it;
/// - 4: the source failed in this call, and nothing was written;
/// - 5: the sink failed in this call, or 7, memory ran out: a prefix of the text was written;
/// - 8: the bytes are no dump of lawful words, and their first flaw was named.
pub fn audit_run<S: Source, O: Sink>(
    alloc: Global,
    words: &[String],
    source: &mut S,
    out: &mut O,
) -> u8
    // What was written is what the command owes for all bytes that the source had, with this
    // status.
    ensures text { IsWrittenWhole (audit_job (map string_bytes words.now)) result →
        IfSome (S.left source.old) (λ bytes. Writes (audit_job (map string_bytes words.now)) bytes
        (O.written out.old) (O.written out.new) result) }
    ensures whole { result ≡ DONE →
        IfSome (S.left source.old) (λ _. S.left source.new ≡ Some []) }

    // For wrong arguments the usage line is written, and nothing is read.
    ensures usage { result ≡ USAGE →
        Appends (O.written out.old) (O.written out.new) usage_text }
    ensures unread { audit_job (map string_bytes words.now) ≡ Job.Refuse → source.new ≡ source.old }

    // If the run was cut short, a prefix of what is due was written.
    ensures part { EndsEarly result → IfSome (S.left source.old) (λ bytes.
        WritesPart (audit_job (map string_bytes words.now)) bytes
        (O.written out.old) (O.written out.new)) }
    ensures usage_part { audit_job (map string_bytes words.now) ≡ Job.Refuse → EndsEarly result →
        AppendsPart (O.written out.old) (O.written out.new) usage_text }

    // Each status has its cause.
    ensures statuses { IsRunStatus (audit_job (map string_bytes words.now)) result }
    ensures read_failed { result ≡ READ_FAILED →
        HaveRisen (S.faults source.old) (S.faults source.new) }
    ensures unwritten { result ≡ READ_FAILED → out.new ≡ out.old }
    ensures write_failed { result ≡ WRITE_FAILED →
        HaveRisen (O.faults out.old) (O.faults out.new) }

    // Without a fault the whole text is written, unless memory runs out.
    ensures complete { ¬ HaveRisen (S.faults source.old) (S.faults source.new) →
        ¬ HaveRisen (O.faults out.old) (O.faults out.new) →
        IsWrittenWhole (audit_job (map string_bytes words.now)) result ⊎ (result ≡ NO_MEMORY) }

    ensures source_counted { S.faults source.old ≤ S.faults source.new }
    ensures sink_counted { O.faults out.old ≤ O.faults out.new }
{
    match work(alloc, read_job(words), source, out) {
        Ok(status) => status,
        Err(Halt::Read) => READ_FAILED,
        Err(Halt::Write) => WRITE_FAILED,
        Err(Halt::Memory) => NO_MEMORY,
    }
}

/// Does what the arguments ask for. `Ok` returns the status.
fn work<S: Source, O: Sink>(
    alloc: Global,
    job: Job,
    source: &mut S,
    out: &mut O,
) -> Result<u8, Halt>
    ensures text { IfOk result (λ status. IfSome (S.left source.old) (λ bytes.
        Writes job bytes (O.written out.old) (O.written out.new) status)) }
    ensures part { OnErr result (IfSome (S.left source.old) (λ bytes.
        WritesPart job bytes (O.written out.old) (O.written out.new))) }
    ensures usage { result ≡ Ok USAGE →
        Appends (O.written out.old) (O.written out.new) usage_text }
    ensures usage_part { job ≡ Job.Refuse → OnErr result
        (AppendsPart (O.written out.old) (O.written out.new) usage_text) }
    ensures unread { job ≡ Job.Refuse → source.new ≡ source.old }
    ensures statuses { IfOk result (IsWrittenWhole job) }
    ensures reads { job ≡ Job.Refuse → result ≡ Err Halt.Read → ⊥ }
    ensures whole { result ≡ Ok DONE →
        IfSome (S.left source.old) (λ _. S.left source.new ≡ Some []) }
    ensures read_failed { result ≡ Err Halt.Read →
        HaveRisen (S.faults source.old) (S.faults source.new) }
    ensures unwritten { result ≡ Err Halt.Read → out.new ≡ out.old }
    ensures write_failed { result ≡ Err Halt.Write →
        HaveRisen (O.faults out.old) (O.faults out.new) }
    ensures source_counted { S.faults source.old ≤ S.faults source.new }
    ensures sink_counted { O.faults out.old ≤ O.faults out.new }
{
    match job {
        Job::Refuse => refuse(out),
        Job::Pack => pack(alloc, source, out),
        Job::Tell(question) => tell(alloc, question, source, out),
    }
}

/// Writes that the arguments are wrong.
fn refuse<O: Sink>(out: &mut O) -> Result<u8, Halt>
    ensures status { IfOk result (λ status. status ≡ USAGE) }
    ensures usage { OnOk result (Appends (O.written out.old) (O.written out.new) usage_text) }
    ensures part { OnErr result
        (AppendsPart (O.written out.old) (O.written out.new) usage_text) }
    ensures reads { result ≡ Err Halt.Read → ⊥ }
    ensures failed { result ≡ Err Halt.Write → HaveRisen (O.faults out.old) (O.faults out.new) }
    ensures counted { O.faults out.old ≤ O.faults out.new }
{
    match write_whole(out, b"! usage\n") {
        Ok(()) => Ok(USAGE),
        Err(fault) => Err(halted(fault)),
    }
}

/// Audits a dump, and writes the answer to the question, or the first flaw.
fn tell<S: Source, O: Sink>(
    alloc: Global,
    question: Question,
    source: &mut S,
    out: &mut O,
) -> Result<u8, Halt>
    ensures text { IfOk result (λ status. IfSome (S.left source.old) (λ bytes.
        Writes (Job.Tell question) bytes (O.written out.old) (O.written out.new) status)) }
    ensures part { OnErr result (IfSome (S.left source.old) (λ bytes.
        WritesPart (Job.Tell question) bytes (O.written out.old) (O.written out.new))) }
    ensures statuses { IfOk result (IsWrittenWhole (Job.Tell question)) }
    ensures whole { result ≡ Ok DONE →
        IfSome (S.left source.old) (λ _. S.left source.new ≡ Some []) }
    ensures read_failed { result ≡ Err Halt.Read →
        HaveRisen (S.faults source.old) (S.faults source.new) }
    ensures unwritten { result ≡ Err Halt.Read → out.new ≡ out.old }
    ensures write_failed { result ≡ Err Halt.Write →
        HaveRisen (O.faults out.old) (O.faults out.new) }
    ensures source_counted { S.faults source.old ≤ S.faults source.new }
    ensures sink_counted { O.faults out.old ≤ O.faults out.new }
{
    match audit(alloc, source) {
        Ok(told) => match write_answer(out, question, &told) {
            Ok(()) => Ok(DONE),
            Err(fault) => Err(halted(fault)),
        },
        Err(AuditFault::Bad(flaw)) => match write_flaw(out, flaw) {
            Ok(()) => Ok(FLAWED),
            Err(fault) => Err(halted(fault)),
        },
        Err(AuditFault::Read) => Err(Halt::Read),
        Err(AuditFault::Memory) => Err(Halt::Memory),
    }
}
