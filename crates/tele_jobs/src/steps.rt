//! One line: it is read and taken into the open round, and the round is answered if it ends there.
ghost use Rattle.std.specs.Prelude.{◌≡◌, ◌+◌, ◌<◌, ◌≤◌, ◌^◌, [], ◌∷◌, ◌++◌, Some, None, Err, true, length, IsSome, IfSome, IfNone, OnOk, OnErr};
ghost use Rattle.std.specs.List.Sorted.{IsStrictlyIncreasing};
ghost use Rattle.ist_core.specs.Map.{replay};
ghost use Rattle.tele_io.specs.Bytes.{HaveRisen, Appends, AppendsPart};
ghost use Rattle.tele_lanes.specs.Lines.{commands_of, task_lines};
ghost use Rattle.tele_lines.specs.Lines.{line_limit};
ghost use Rattle.tele_lines.specs.Rounds.{round_limit};
ghost use Rattle.tele_lines.specs.Answer.{Good, Bad, text_of};
ghost use Rattle.tele_lines.specs.Progress.{place_of, limit_of, count_of, stop_of, mode_of, kept_of, has_ended, TellsEnd, TakesAsNeeded};
ghost use Rattle.tele_generations.specs.Tables.{RunsTables};
ghost use Rattle.tele_jobs.specs.Open.{IsOpenBefore, RunsOn, asked, map_in, round_for};
ghost use Rattle.tele_jobs.specs.Due.{Takes, TakesRounds};
ghost use Rattle.tele_jobs.specs.Steps.{StepsOn, EndsRun, run_standing};

use crate::outcomes::{ANSWERED, BAD_LINE, READ_FAILED, WRITE_FAILED, refused};
use crate::replies::{end_with_bad, end_with_pairs, print_answers};
use crate::rounds::{PendingRound, close};
use ist_rest::Closed;
use std::alloc::AllocError;
use tele_generations::{Ran, RoundState, Shelf};
use tele_io::{Sink, SinkFault, Source};
use tele_lanes::Task;
use tele_lines::{Cause, Item, Line, LineFault, Lines, Version};

/// Reads the next line that asks for something, takes it into the open round, and answers the round
/// if it ends there; then nothing is held back. If the run ends, returns its status.
pub(crate) fn step<F: FnMut(&RoundState, u32, bool) -> Ran, H: Shelf<Closed>, S: Source, O: Sink>(
    tables: &mut F,
    shelf: &mut H,
    lines: &mut Lines,
    round: &mut PendingRound,
    source: &mut S,
    out: &mut O,
) -> Option<u8>
    requires tables { RunsTables F.pre F.post }
    requires limit { limit_of lines.old ≡ line_limit }
    requires going { stop_of lines.old ≡ None }
    requires open { length round.old.tasks < round_limit }
    requires chosen { 0 < length round.old.tasks → IsSome (mode_of lines.old) }
    requires before { IsOpenBefore (count_of lines.old + 1) round.old }
    requires allowed { count_of lines.old ≤ line_limit }

    ensures goes_on { IfNone result (StepsOn
        (run_standing lines.old round.old (S.left source.old) (O.written out.old) (H.kept shelf.old))
        (run_standing lines.new round.new (S.left source.new) (O.written out.new) (H.kept shelf.new))
        (O.held out.new)) }
    ensures ends { IfSome result (EndsRun
        (run_standing lines.old round.old (S.left source.old) (O.written out.old) (H.kept shelf.old))
        (run_standing lines.new round.new (S.left source.new) (O.written out.new) (H.kept shelf.new))
        (O.held out.new)) }

    ensures read_failed { result ≡ Some READ_FAILED →
        HaveRisen (S.faults source.old) (S.faults source.new) }
    ensures write_failed { result ≡ Some WRITE_FAILED →
        HaveRisen (O.faults out.old) (O.faults out.new) }

    ensures sparing { IfSome (S.left source.old) (λ bytes.
        TakesAsNeeded (place_of lines.old) (kept_of lines.old) (has_ended lines.old) bytes
        (S.left source.new)) }
    ensures end { TellsEnd lines.old (S.left source.old) →
        TellsEnd lines.new (S.left source.new) }
    ensures ended { has_ended lines.old ≡ true → has_ended lines.new ≡ true }

    ensures source_counted { S.faults source.old ≤ S.faults source.new }
    ensures sink_counted { O.faults out.old ≤ O.faults out.new }

    ensures limit { limit_of lines.new ≡ line_limit }
    ensures allowed { count_of lines.new ≤ line_limit }
{
    match lines.next(source) {
        Ok(Some(line)) => match take(tables, shelf, round, lines.version(), line, out) {
            Ok(()) => None,
            Err(fault) => Some(refused(fault)),
        },
        Ok(None) => match end_round(tables, shelf, round, lines.version(), out) {
            Ok(()) => Some(ANSWERED),
            Err(fault) => Some(refused(fault)),
        },
        Err(LineFault::Bad { line, cause }) => {
            match name(tables, shelf, round, lines.version(), line, cause, out) {
                Ok(()) => Some(BAD_LINE),
                Err(fault) => Some(refused(fault)),
            }
        }
        Err(LineFault::Read) => match out.pass_on() {
            Ok(()) => Some(READ_FAILED),
            Err(fault) => Some(refused(fault)),
        },
    }
}

/// Takes a line into the round. If the round ends there, its lines are answered and the replies are
/// passed on.
fn take<F: FnMut(&RoundState, u32, bool) -> Ran, H: Shelf<Closed>, O: Sink>(
    tables: &mut F,
    shelf: &mut H,
    round: &mut PendingRound,
    version: Version,
    line: Line,
    out: &mut O,
) -> Result<(), SinkFault>
    requires tables { RunsTables F.pre F.post }
    requires open { length round.old.tasks < round_limit }
    requires before { IsOpenBefore line.number round.old }
    requires allowed { line.number ≤ 2 ^ 24 }

    ensures taken { OnOk result (Takes (map_in round.old)
        (asked version round.old.tasks ++ Good line.number version line.item ∷ [])
        (O.written out.old) (O.written out.new)
        (map_in round.new) (asked version round.new.tasks)) }
    ensures ran { OnOk result (TakesRounds round.old (H.kept shelf.old) round.new
        (H.kept shelf.new)
        (asked version round.old.tasks ++ Good line.number version line.item ∷ [])
        (asked version round.new.tasks)) }
    ensures open { OnOk result (length round.new.tasks < round_limit) }
    ensures before { OnOk result (IsOpenBefore (line.number + 1) round.new) }
    ensures passed_on { OnOk result (round.new.tasks ≡ [] → O.held out.new ≡ []) }

    ensures failed { result ≡ Err SinkFault.Failed →
        HaveRisen (O.faults out.old) (O.faults out.new) }
    ensures part { OnErr result (AppendsPart (O.written out.old) (O.written out.new)
        (text_of (map_in round.old)
        (asked version round.old.tasks ++ Good line.number version line.item ∷ []))) }

    ensures counted { O.faults out.old ≤ O.faults out.new }
{
    match line.item {
        Item::Point(command) => {
            let task = Task {
                line: line.number,
                command,
            };
            if let Err(AllocError) = round.ask(task) {
                return Err(SinkFault::Memory);
            }
            if round.is_full() {
                end_round(tables, shelf, round, version, out)
            } else {
                Ok(())
            }
        }
        Item::Interval { first, last } => {
            answer(tables, shelf, round, version, out)?;
            end_with_pairs(out, version, line.number, round.list(first, last))
        }
    }
}

/// Answers the lines of the round, names the bad line after them, and passes all of it on.
fn name<F: FnMut(&RoundState, u32, bool) -> Ran, H: Shelf<Closed>, O: Sink>(
    tables: &mut F,
    shelf: &mut H,
    round: &mut PendingRound,
    version: Version,
    line: u64,
    cause: Cause,
    out: &mut O,
) -> Result<(), SinkFault>
    requires tables { RunsTables F.pre F.post }
    requires rising { IsStrictlyIncreasing (task_lines round.old.tasks) }
    requires few { length round.old.pairs + length round.old.tasks ≤ 2 ^ 24 }

    ensures printed { OnOk result (Appends (O.written out.old) (O.written out.new)
        (text_of (map_in round.old) (asked version round.old.tasks ++ Bad line cause ∷ []))) }
    ensures passed_on { OnOk result (O.held out.new ≡ []) }
    ensures ran { OnOk result (RunsOn round.old (H.kept shelf.old) round.new
        (H.kept shelf.new) (round_for round.old.tasks)) }

    ensures failed { result ≡ Err SinkFault.Failed →
        HaveRisen (O.faults out.old) (O.faults out.new) }
    ensures part { OnErr result (AppendsPart (O.written out.old) (O.written out.new)
        (text_of (map_in round.old) (asked version round.old.tasks ++ Bad line cause ∷ []))) }

    ensures counted { O.faults out.old ≤ O.faults out.new }
{
    answer(tables, shelf, round, version, out)?;
    end_with_bad(out, line, cause)
}

/// Answers the lines of the round, which ends with them, and passes the replies on.
#[tactic(auto, using(crate::proofs::PassLemmas::passes))]
fn end_round<F: FnMut(&RoundState, u32, bool) -> Ran, H: Shelf<Closed>, O: Sink>(
    tables: &mut F,
    shelf: &mut H,
    round: &mut PendingRound,
    version: Version,
    out: &mut O,
) -> Result<(), SinkFault>
    requires tables { RunsTables F.pre F.post }
    requires rising { IsStrictlyIncreasing (task_lines round.old.tasks) }
    requires few { length round.old.pairs + length round.old.tasks ≤ 2 ^ 24 }

    ensures printed { OnOk result (Appends (O.written out.old) (O.written out.new)
        (text_of (map_in round.old) (asked version round.old.tasks))) }
    ensures passed_on { OnOk result (O.held out.new ≡ []) }
    ensures following { OnOk result
        (map_in round.new ≡ replay (map_in round.old) (commands_of round.old.tasks)) }
    ensures none { OnOk result (round.new.tasks ≡ []) }
    ensures ran { OnOk result (RunsOn round.old (H.kept shelf.old) round.new
        (H.kept shelf.new) (round_for round.old.tasks)) }
    ensures few { OnOk result
        (length round.new.pairs ≤ length round.old.pairs + length round.old.tasks) }

    ensures failed { result ≡ Err SinkFault.Failed →
        HaveRisen (O.faults out.old) (O.faults out.new) }
    ensures part { OnErr result (AppendsPart (O.written out.old) (O.written out.new)
        (text_of (map_in round.old) (asked version round.old.tasks))) }

    ensures counted { O.faults out.old ≤ O.faults out.new }
{
    answer(tables, shelf, round, version, out)?;
    out.pass_on()
}

/// Answers the lines of the round, and prints the replies in order.
fn answer<F: FnMut(&RoundState, u32, bool) -> Ran, H: Shelf<Closed>, O: Sink>(
    tables: &mut F,
    shelf: &mut H,
    round: &mut PendingRound,
    version: Version,
    out: &mut O,
) -> Result<(), SinkFault>
    requires tables { RunsTables F.pre F.post }
    requires rising { IsStrictlyIncreasing (task_lines round.old.tasks) }
    requires few { length round.old.pairs + length round.old.tasks ≤ 2 ^ 24 }

    ensures printed { OnOk result (Appends (O.written out.old) (O.written out.new)
        (text_of (map_in round.old) (asked version round.old.tasks))) }
    ensures following { OnOk result
        (map_in round.new ≡ replay (map_in round.old) (commands_of round.old.tasks)) }
    ensures none { OnOk result (round.new.tasks ≡ []) }
    ensures ran { OnOk result (RunsOn round.old (H.kept shelf.old) round.new
        (H.kept shelf.new) (round_for round.old.tasks)) }
    ensures few { OnOk result
        (length round.new.pairs ≤ length round.old.pairs + length round.old.tasks) }

    ensures failed { result ≡ Err SinkFault.Failed →
        HaveRisen (O.faults out.old) (O.faults out.new) }
    ensures part { OnErr result (AppendsPart (O.written out.old) (O.written out.new)
        (text_of (map_in round.old) (asked version round.old.tasks))) }

    ensures counted { O.faults out.old ≤ O.faults out.new }
{
    match close(tables, shelf, round) {
        Ok(()) => print_answers(out, version, round.answers()),
        Err(AllocError) => Err(SinkFault::Memory),
    }
}
