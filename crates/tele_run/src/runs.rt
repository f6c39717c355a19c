//! The program as one call.
ghost use Rattle.std.specs.Prelude.{◌≡◌, ℕ, ◌≤◌, ◌⊎◌, [], Some, map, string_bytes, IfSome};
ghost use Rattle.tele_io.specs.Bytes.{HaveRisen, Appends, AppendsPart};
ghost use Rattle.tele_lines.specs.Answer.{answer, usage_text};
ghost use Rattle.tele_generations.specs.Tables.{MayRun, RanNext};
ghost use Rattle.tele_jobs.specs.Summaries.{summary_of, summary_text};
ghost use Rattle.tele_jobs.specs.CommandLine.{options_in};
ghost use Rattle.tele_jobs.specs.Jobs.{job_of};
ghost use Rattle.tele_jobs.specs.Causes.{IsAnswer, IsCutShort, IsStatus, IsWhole, Stops, ReachesBad, ReadsSparingly};
ghost use Rattle.tele_jobs.specs.Rounds.{input_rounds, made_rounds};
ghost use Rattle.tele_jobs.specs.Endings.{EndsOn, HasNoTable};

use crate::trees::run_on_tree;
use ist_image::Image;
use ist_rest::Closed;
use std::alloc::{AllocError, Global};
use std::sync::Wait;
use std::thread::Threads;
use tele_generations::{Ran, RoundState, Shelf};
use tele_io::{Sink, Source};
use tele_jobs::{
    ANSWERED, BAD_LINE, Job, NO_MEMORY, Outcome, READ_FAILED, USAGE, WRITE_FAILED, read_plan,
    without_table, work,
};
use tele_lanes::Gate;

/// Reads lines from the source, carries them out on one map, and writes the replies to the sink. If
/// the command line says so, makes the lines instead and writes a summary.
///
/// `words` are the arguments of the command line, the program's name first; an empty list is read
/// like the name only. `job_of` says what they ask for, by `clap`. If `clap` refuses them for any
/// other cause than memory, the run ends with status 2 and writes a line that says so. A request
/// for help is refused too. With made lines no reply is written, only a summary at the end. The
/// source is read only if neither is the case.
/// Lines are answered in rounds, in the order in which they came. A round ends after an interval
/// line, when it has 16,384 point lines, before a bad line, and at the end of the input. After each
/// round, and before it returns with status 0, 2, 3 or 4, `run` tells the sink to pass on what it
/// took. The statuses of a run over lines that are read are these:
///
/// - 0, the input was read to its end, or 3, a bad line was reached: the answer to the bytes of the
///   source was written;
/// - 4, the source failed in this call: no line that a newline ends within the bytes taken is bad,
///   and the replies to those of them in whole rounds were written;
/// - 5, the sink failed in this call, or 7, memory ran out: a prefix of the text was written.
///
/// The point lines of a round run side by side on a tree. They are split into one lane per worker,
/// or with `--steal 1` into 64 lanes that the workers steal from one another. If a tree runs full,
/// another one follows it (`tele_generations::run_round`). The last tree of a round goes to the shelf
/// when the next round begins; with status 0 or 3 the last tree of the last round is returned.
/// `gate` is notified of each call on a tree. A run waits for its workers, and no clause says that
/// this waiting ends.
pub fn run<R: Threads + Wait + Sync, S: Source, O: Sink, G: Gate + Sync, H: Shelf<Closed>>(
    rt: &R,
    alloc: Global,
    words: &[String],
    source: &mut S,
    out: &mut O,
    gate: &G,
    shelf: &mut H,
) -> Outcome
    // The answer to all bytes of the source was written, and the status is the answer's.
    ensures text { job_of (map string_bytes words.now) ≡ Job.Read → IsAnswer result.status →
        IfSome (S.left source.old) (λ bytes.
        Appends (O.written out.old) (O.written out.new) (answer bytes).text) }
    ensures status { job_of (map string_bytes words.now) ≡ Job.Read → IsAnswer result.status →
        IfSome (S.left source.old) (λ bytes. result.status ≡ (answer bytes).status) }
    ensures whole { job_of (map string_bytes words.now) ≡ Job.Read → result.status ≡ ANSWERED →
        IfSome (S.left source.old) (λ _. S.left source.new ≡ Some []) }

    // A refused command line is reported, made lines are summed up, and nothing is read.
    ensures usage { result.status ≡ USAGE →
        Appends (O.written out.old) (O.written out.new) usage_text }
    ensures made { (count seed : ℕ) →
        job_of (map string_bytes words.now) ≡ Job.Make count seed → result.status ≡ ANSWERED →
        Appends (O.written out.old) (O.written out.new) (summary_text (summary_of count seed)) }
    ensures unread { ¬ (job_of (map string_bytes words.now) ≡ Job.Read) →
        source.new ≡ source.old }

    // The bad line was read to its newline, or until it was too long, or to the end of the source. And
    // the source is read only while no line whose newline was taken is bad.
    ensures reached { job_of (map string_bytes words.now) ≡ Job.Read → result.status ≡ BAD_LINE →
        IfSome (S.left source.old) (λ bytes. ReachesBad bytes (S.left source.new)) }
    ensures sparing { IfSome (S.left source.old)
        (λ bytes. ReadsSparingly bytes (S.left source.new)) }

    // After a failed read, the replies to the whole rounds of the lines that had come are written.
    ensures stops { result.status ≡ READ_FAILED → IfSome (S.left source.old) (λ bytes.
        Stops bytes (S.left source.new) (O.written out.old) (O.written out.new)) }

    // Unless the text was cut short, the sink holds nothing back.
    ensures passed_on { ¬ (IsCutShort result.status) → O.held out.new ≡ [] }

    // If the text was cut short, a prefix of it was written.
    ensures part { job_of (map string_bytes words.now) ≡ Job.Read → IsCutShort result.status →
        IfSome (S.left source.old) (λ bytes.
        AppendsPart (O.written out.old) (O.written out.new) (answer bytes).text) }
    ensures usage_part { job_of (map string_bytes words.now) ≡ Job.Refuse →
        IsCutShort result.status →
        AppendsPart (O.written out.old) (O.written out.new) usage_text }
    ensures made_part { (count seed : ℕ) →
        job_of (map string_bytes words.now) ≡ Job.Make count seed → IsCutShort result.status →
        AppendsPart (O.written out.old) (O.written out.new)
        (summary_text (summary_of count seed)) }

    // The tables put on the shelf, and the last one, are those of the rounds with point lines.
    ensures last { job_of (map string_bytes words.now) ≡ Job.Read → IsAnswer result.status →
        IfSome (S.left source.old) (λ bytes.
        EndsOn (options_in (map string_bytes words.now)) (input_rounds bytes)
        (H.kept shelf.old) (H.kept shelf.new) result) }
    ensures made_last { (count seed : ℕ) →
        job_of (map string_bytes words.now) ≡ Job.Make count seed → result.status ≡ ANSWERED →
        EndsOn (options_in (map string_bytes words.now)) (made_rounds count seed)
        (H.kept shelf.old) (H.kept shelf.new) result }
    ensures no_last { ¬ (IsAnswer result.status) → HasNoTable result }

    // Each status has its cause.
    ensures statuses { IsStatus (job_of (map string_bytes words.now)) result.status }
    ensures read_failed { result.status ≡ READ_FAILED →
        HaveRisen (S.faults source.old) (S.faults source.new) }
    ensures write_failed { result.status ≡ WRITE_FAILED →
        HaveRisen (O.faults out.old) (O.faults out.new) }

    // Without a fault the text is written whole, unless memory runs out.
    ensures complete { ¬ HaveRisen (S.faults source.old) (S.faults source.new) →
        ¬ HaveRisen (O.faults out.old) (O.faults out.new) →
        IsWhole (job_of (map string_bytes words.now)) result.status ⊎
        (result.status ≡ NO_MEMORY) }

    ensures source_counted { S.faults source.old ≤ S.faults source.new }
    ensures sink_counted { O.faults out.old ≤ O.faults out.new }
{
    match read_plan(alloc, words) {
        Ok(plan) => {
            let mut image = Image::new(alloc);
            let mut tables = |way: &RoundState, workers: u32, steal: bool| -> Ran
                requires may { MayRun way.now workers }
                ensures ran { RanNext way.now workers steal result }
            { run_on_tree(rt, gate, alloc, &mut image, way, workers, steal) };
            work(&mut tables, shelf, alloc, plan, source, out)
        }
        Err(AllocError) => without_table(NO_MEMORY),
    }
}
