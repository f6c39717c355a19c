//! Doing a job: reporting, or making lines, or reading them and answering them in rounds.
ghost use Rattle.std.specs.Prelude.{◌≡◌, ℕ, ◌≤◌, ◌^◌, [], IfSome};
ghost use Rattle.tele_io.specs.Bytes.{HaveRisen};
ghost use Rattle.tele_lines.specs.Answer.{usage_text};
ghost use Rattle.tele_generations.specs.Tables.{RunsTables};
ghost use Rattle.tele_jobs.specs.Summaries.{summary_of, summary_text};
ghost use Rattle.tele_jobs.specs.Causes.{IsAnswer, IsCutShort, IsStatus, AnswersLines, WritesText};
ghost use Rattle.tele_jobs.specs.Rounds.{RanRounds, team_of, input_rounds, made_rounds};
ghost use Rattle.tele_jobs.specs.Endings.{HasNoTable};
ghost use Rattle.tele_jobs.specs.Open.{fresh_round};

use crate::jobs::{Job, LINE_LIMIT, Plan};
use crate::made::make_all;
use crate::outcomes::{ANSWERED, Outcome, READ_FAILED, USAGE, WRITE_FAILED, without_table};
use crate::replies::refuse;
use crate::rounds::{PendingRound, ended};
use crate::steps::step;
use ist_rest::Closed;
use std::alloc::Global;
use tele_generations::{Ran, RoundState, Shelf};
use tele_io::{Sink, Source};
use tele_lines::Lines;

/// Does what the plan says, on these tables.
///
/// Lines are answered in rounds, in the order in which they came. A round ends after an interval
/// line, when it has 16,384 point lines, before a bad line, and at the end of the input. The last
/// table of a round goes to the shelf when the next round begins. The source is read only if the
/// job is to read lines.
pub fn work<F: FnMut(&RoundState, u32, bool) -> Ran, H: Shelf<Closed>, S: Source, O: Sink>(
    tables: &mut F,
    shelf: &mut H,
    alloc: Global,
    plan: Plan,
    source: &mut S,
    out: &mut O,
) -> Outcome
    requires tables { RunsTables F.pre F.post }
    requires some { 1 ≤ plan.workers }
    requires at_most { plan.workers ≤ 64 }
    requires least { 64 ≤ plan.words }
    requires most { plan.words ≤ 2 ^ 28 }
    requires few { (count seed : ℕ) → plan.job ≡ Job.Make count seed → count ≤ LINE_LIMIT }

    // What was read and written, by the job.
    ensures lines { plan.job ≡ Job.Read → AnswersLines (S.left source.old) (S.left source.new)
        (O.written out.old) (O.written out.new) result.status }
    ensures usage { plan.job ≡ Job.Refuse →
        WritesText USAGE usage_text (O.written out.old) (O.written out.new) result.status }
    ensures made { (count seed : ℕ) → plan.job ≡ Job.Make count seed →
        WritesText ANSWERED (summary_text (summary_of count seed)) (O.written out.old)
        (O.written out.new) result.status }
    ensures unread { ¬ (plan.job ≡ Job.Read) → source.new ≡ source.old }

    // Unless the text was cut short, the sink holds nothing back.
    ensures passed_on { ¬ (IsCutShort result.status) → O.held out.new ≡ [] }

    // The tables put on the shelf, and the last one, are those of the rounds with point lines.
    ensures last { plan.job ≡ Job.Read → IsAnswer result.status →
        IfSome (S.left source.old) (λ bytes. RanRounds (team_of plan.workers plan.steal) plan.words
        (input_rounds bytes) (H.kept shelf.old) (H.kept shelf.new) result.last result.fulls) }
    ensures made_last { (count seed : ℕ) → plan.job ≡ Job.Make count seed →
        result.status ≡ ANSWERED → RanRounds (team_of plan.workers plan.steal) plan.words
        (made_rounds count seed) (H.kept shelf.old) (H.kept shelf.new) result.last result.fulls }
    ensures no_last { ¬ (IsAnswer result.status) → HasNoTable result }

    // Each status has its cause.
    ensures statuses { IsStatus plan.job result.status }
    ensures read_failed { result.status ≡ READ_FAILED →
        HaveRisen (S.faults source.old) (S.faults source.new) }
    ensures write_failed { result.status ≡ WRITE_FAILED →
        HaveRisen (O.faults out.old) (O.faults out.new) }

    ensures source_counted { S.faults source.old ≤ S.faults source.new }
    ensures sink_counted { O.faults out.old ≤ O.faults out.new }
{
    let round = PendingRound::new(alloc, plan.workers, plan.steal, plan.words);
    match plan.job {
        Job::Refuse => without_table(refuse(out)),
        Job::Make { count, seed } => make_all(tables, shelf, alloc, round, count, seed, out),
        Job::Read => answer_all(tables, shelf, round, source, out),
    }
}

/// Answers all lines.
fn answer_all<F: FnMut(&RoundState, u32, bool) -> Ran, H: Shelf<Closed>, S: Source, O: Sink>(
    tables: &mut F,
    shelf: &mut H,
    round: PendingRound,
    source: &mut S,
    out: &mut O,
) -> Outcome
    requires tables { RunsTables F.pre F.post }
    requires fresh { round ≡ fresh_round round.team round.words }

    ensures lines { AnswersLines (S.left source.old) (S.left source.new) (O.written out.old)
        (O.written out.new) result.status }
    ensures passed_on { ¬ (IsCutShort result.status) → O.held out.new ≡ [] }
    ensures last { IsAnswer result.status → IfSome (S.left source.old) (λ bytes.
        RanRounds round.team round.words (input_rounds bytes) (H.kept shelf.old)
        (H.kept shelf.new) result.last result.fulls) }
    ensures no_last { ¬ (IsAnswer result.status) → HasNoTable result }

    ensures statuses { IsStatus Job.Read result.status }
    ensures read_failed { result.status ≡ READ_FAILED →
        HaveRisen (S.faults source.old) (S.faults source.new) }
    ensures write_failed { result.status ≡ WRITE_FAILED →
        HaveRisen (O.faults out.old) (O.faults out.new) }

    ensures source_counted { S.faults source.old ≤ S.faults source.new }
    ensures sink_counted { O.faults out.old ≤ O.faults out.new }
{
    let mut lines = Lines::new(LINE_LIMIT);
    let mut round = round;
    loop {
        if let Some(status) = step(tables, shelf, &mut lines, &mut round, source, out) {
            return ended(status, round);
        }
    }
}
