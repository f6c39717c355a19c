//! A run over made lines: the same rounds, without replies, and a summary at the end.
ghost use Rattle.std.specs.Prelude.{◌≡◌, ◌+◌, ◌≤◌, ◌^◌, ◌⊎◌, [], is_some, length, IfOk, OnOk};
ghost use Rattle.std.specs.List.{count_by};
ghost use Rattle.std.specs.List.Sorted.{IsStrictlyIncreasing};
ghost use Rattle.ist_core.specs.Map.{replay, replies};
ghost use Rattle.tele_io.specs.Bytes.{HaveRisen, Appends, AppendsPart};
ghost use Rattle.tele_lanes.specs.Lines.{commands_of, task_lines};
ghost use Rattle.tele_generations.specs.Tables.{RunsTables};
ghost use Rattle.tele_jobs.specs.Summaries.{summary_of, summary_text};
ghost use Rattle.tele_jobs.specs.Causes.{IsAnswer, IsCutShort};
ghost use Rattle.tele_jobs.specs.Rounds.{RanRounds, made_rounds};
ghost use Rattle.tele_jobs.specs.Endings.{HasNoTable};
ghost use Rattle.tele_jobs.specs.Open.{FollowsRounds, RunsOn, fresh_round, map_in, round_for};

use crate::makers::CommandMaker;
use crate::outcomes::{ANSWERED, NO_MEMORY, Outcome, WRITE_FAILED, refused};
use crate::replies::end_with_summary;
use crate::rounds::{PendingRound, close, ended};
use crate::summaries::{Summary, sum_of};
use ist_rest::Closed;
use std::alloc::{AllocError, Global};
use tele_generations::{Ran, RoundState, Shelf};
use tele_io::Sink;
use tele_lanes::{Answer, Task};

/// Makes lines from a seed, answers them, and prints the summary.
pub(crate) fn make_all<F: FnMut(&RoundState, u32, bool) -> Ran, H: Shelf<Closed>, O: Sink>(
    tables: &mut F,
    shelf: &mut H,
    alloc: Global,
    round: PendingRound,
    count: u64,
    seed: u64,
    out: &mut O,
) -> Outcome
    requires tables { RunsTables F.pre F.post }
    requires fresh { round ≡ fresh_round round.team round.words }
    requires few { count ≤ 2 ^ 24 }

    ensures text { result.status ≡ ANSWERED → Appends (O.written out.old) (O.written out.new)
        (summary_text (summary_of count seed)) }
    ensures ran { result.status ≡ ANSWERED → RanRounds round.team round.words
        (made_rounds count seed) (H.kept shelf.old) (H.kept shelf.new)
        result.last result.fulls }
    ensures none { ¬ (IsAnswer result.status) → HasNoTable result }
    ensures passed_on { ¬ (IsCutShort result.status) → O.held out.new ≡ [] }
    ensures part { IsCutShort result.status → AppendsPart (O.written out.old) (O.written out.new)
        (summary_text (summary_of count seed)) }

    ensures statuses { (result.status ≡ ANSWERED) ⊎ IsCutShort result.status }
    ensures failed { result.status ≡ WRITE_FAILED →
        HaveRisen (O.faults out.old) (O.faults out.new) }

    ensures counted { O.faults out.old ≤ O.faults out.new }
{
    let mut round = round;
    let status = match summarize(tables, shelf, &mut round, count, seed) {
        Ok(summary) => match end_with_summary(out, alloc, summary) {
            Ok(()) => ANSWERED,
            Err(fault) => refused(fault),
        },
        Err(AllocError) => NO_MEMORY,
    };
    ended(status, round)
}

/// Makes lines from a seed, answers them in rounds, and sums up.
fn summarize<F: FnMut(&RoundState, u32, bool) -> Ran, H: Shelf<Closed>>(
    tables: &mut F,
    shelf: &mut H,
    round: &mut PendingRound,
    count: u64,
    seed: u64,
) -> Result<Summary, AllocError>
    requires tables { RunsTables F.pre F.post }
    requires fresh { round.old ≡ fresh_round round.old.team round.old.words }
    requires few { count ≤ 2 ^ 24 }
    ensures value { IfOk result (λ summary. summary ≡ summary_of count seed) }
    ensures ran { OnOk result (FollowsRounds round.old.team round.old.words
        (made_rounds count seed) (H.kept shelf.old) (H.kept shelf.new) round.new) }
{
    let mut maker = CommandMaker::new(seed);
    let mut found = 0;
    for line in 0..count {
        round.ask(Task {
            line: line + 1,
            command: maker.make(),
        })?;
        if round.is_full() {
            found += answer_made(tables, shelf, round)?;
        }
    }
    found += answer_made(tables, shelf, round)?;
    Ok(Summary {
        made: count,
        keys: round.pairs().len() as u64,
        found,
        sum: sum_of(round.pairs()),
    })
}

/// Answers the lines of the round and returns how many of the replies are values.
fn answer_made<F: FnMut(&RoundState, u32, bool) -> Ran, H: Shelf<Closed>>(
    tables: &mut F,
    shelf: &mut H,
    round: &mut PendingRound,
) -> Result<u64, AllocError>
    requires tables { RunsTables F.pre F.post }
    requires rising { IsStrictlyIncreasing (task_lines round.old.tasks) }
    requires few { length round.old.pairs + length round.old.tasks ≤ 2 ^ 24 }
    ensures found { IfOk result (λ found. found ≡
        count_by is_some (replies (map_in round.old) (commands_of round.old.tasks))) }
    ensures few { IfOk result (λ found. found ≤ length round.old.tasks) }
    ensures following { OnOk result
        (map_in round.new ≡ replay (map_in round.old) (commands_of round.old.tasks)) }
    ensures none { OnOk result (round.new.tasks ≡ []) }
    ensures ran { OnOk result (RunsOn round.old (H.kept shelf.old) round.new
        (H.kept shelf.new) (round_for round.old.tasks)) }
    ensures few_pairs { OnOk result
        (length round.new.pairs ≤ length round.old.pairs + length round.old.tasks) }
{
    close(tables, shelf, round)?;
    Ok(count_values(round.answers()))
}

/// Counts the replies that are values.
fn count_values(answers: &[Answer]) -> u64
    ensures value { result ≡ count_by (λ answer. is_some answer.reply) answers.now }
{
    answers
        .iter()
        .filter(|answer| answer.reply.is_some())
        .count() as u64
}
