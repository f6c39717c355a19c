//! The open round: the point lines to answer next, and what the rounds before it left.
ghost use Rattle.std.specs.Prelude.{◌≡◌, ◌+◌, ◌<◌, ◌≤◌, ◌^◌, ◌↔◌, length, OnOk, OnErr, IsTrue};
ghost use Rattle.std.specs.List.Sorted.{IsStrictlyIncreasing};
ghost use Rattle.ist_core.specs.Map.{pairs_of, listed};
ghost use Rattle.tele_lanes.specs.Lines.{task_lines};
ghost use Rattle.tele_generations.specs.Shelves.{IsShelved};
ghost use Rattle.tele_generations.specs.Tables.{RunsTables};
ghost use Rattle.tele_jobs.specs.Rounds.{if_any, team_of};
ghost use Rattle.tele_jobs.specs.Causes.{IsAnswer};
ghost use Rattle.tele_jobs.specs.Endings.{HasNoTable};
ghost use Rattle.tele_jobs.specs.Open.{ClosesRound, RunsOn, fresh_round, with_task, map_in, round_for};

use crate::outcomes::{ANSWERED, BAD_LINE, Outcome, without_table};
use ist_core::Pair;
use ist_rest::Closed;
use plain_map::Plain;
use std::alloc::{AllocError, Global};
use std::marker::Model;
use tele_generations::{Ran, RoundState, Shelf, run_round};
use tele_lanes::{Answer, Task};

/// The most point lines of a round.
pub(crate) const ROUND_LIMIT: usize = 16_384;

/// The point lines to answer next, the answers to the lines before them, and the last table with
/// its pairs.
#[derive(Drop)]
pub(crate) struct PendingRound {
    alloc: Global,
    plain: Plain,
    tasks: Vec<Task>,
    answers: Vec<Answer>,
    last: Option<Closed>,
    fulls: u64,
    workers: u32,
    words: u32,
    steal: bool,
}

impl Model for PendingRound {
    ghost use Rattle.std.specs.Prelude.{◌≤◌, ◌^◌};
    ghost use Rattle.tele_jobs.specs.Rounds.{team_of};
    ghost use Rattle.tele_jobs.specs.Open.{Open};

    ghost Value = { Open };

    ghost view = { λ r. record {
      pairs = r.plain;
      tasks = r.tasks.items;
      answers = r.answers.items;
      last = r.last;
      fulls = r.fulls;
      team = team_of r.workers r.steal;
      words = r.words;
    } };

    ghost invariant = { λ r. ((1 ≤ r.workers) × (r.workers ≤ 64))
        × ((64 ≤ r.words) × (r.words ≤ 2 ^ 28)) };
}

impl PendingRound {
    /// Makes a round without lines, over the map with no key.
    pub(crate) fn new(alloc: Global, workers: u32, steal: bool, words: u32) -> PendingRound
        requires some { 1 ≤ workers }
        requires at_most { workers ≤ 64 }
        requires least { 64 ≤ words }
        requires most { words ≤ 2 ^ 28 }
        ensures value { result ≡ fresh_round (team_of workers steal) words }
    {
        PendingRound {
            alloc,
            plain: Plain::new(alloc),
            tasks: Vec::new(alloc),
            answers: Vec::new(alloc),
            last: None,
            fulls: 0,
            workers,
            words,
            steal,
        }
    }

    /// Takes one more line into the round.
    pub(crate) fn ask(&mut self, task: Task) -> Result<(), AllocError>
        ensures asked { OnOk result (self.new ≡ with_task self.old task) }
        ensures unchanged { OnErr result (self.new ≡ self.old) }
    {
        self.tasks.push(task)?;
        Ok(())
    }

    /// Returns whether the round has as many lines as it may have.
    pub(crate) fn is_full(&self) -> bool
        ensures value { IsTrue result ↔ (length self.now.tasks ≡ ROUND_LIMIT) }
    {
        self.tasks.len() == ROUND_LIMIT
    }

    /// Returns the answers to the lines of the round that was closed last.
    pub(crate) fn answers(&self) -> &[Answer]
        ensures value { result.now ≡ self.now.answers }
    {
        &self.answers
    }

    /// Returns all pairs of the map after the lines that were closed.
    pub(crate) fn pairs(&self) -> &[Pair]
        ensures value { result.now ≡ pairs_of (map_in self.now) }
    {
        self.plain.pairs()
    }

    /// Returns the pairs from one key to another, both included, after the lines that were closed.
    pub(crate) fn list(&self, first: u64, last: u64) -> &[Pair]
        ensures value { result.now ≡ listed first last (map_in self.now) }
    {
        self.plain.list(first, last)
    }

    /// Returns how many tables of the last round ran full.
    pub(crate) fn fulls(&self) -> u64
        ensures value { result ≡ self.now.fulls }
    {
        self.fulls
    }

    /// Returns the last table.
    pub(crate) fn into_last(self) -> Option<Closed>
        ensures value { result ≡ self.last }
    {
        self.last
    }
}

/// Answers the lines of the round in order, on as many tables as needed, and leaves a round without
/// lines. The last table of the rounds before goes to the shelf. If the round has no lines, no
/// table is opened.
pub(crate) fn close<F: FnMut(&RoundState, u32, bool) -> Ran, H: Shelf<Closed>>(
    tables: &mut F,
    shelf: &mut H,
    round: &mut PendingRound,
) -> Result<(), AllocError>
    requires tables { RunsTables F.pre F.post }
    requires rising { IsStrictlyIncreasing (task_lines round.old.tasks) }
    requires few { length round.old.pairs + length round.old.tasks ≤ 2 ^ 24 }

    ensures closed { OnOk result (ClosesRound round.old round.new) }
    ensures ran { OnOk result (RunsOn round.old (H.kept shelf.old) round.new
        (H.kept shelf.new) (round_for round.old.tasks)) }
    ensures few { OnOk result
        (length round.new.pairs ≤ length round.old.pairs + length round.old.tasks) }
{
    if round.tasks.is_empty() {
        round.answers.clear();
        return Ok(());
    }
    close_some(tables, shelf, round)
}

/// Answers the lines of a round that has at least one.
fn close_some<F: FnMut(&RoundState, u32, bool) -> Ran, H: Shelf<Closed>>(
    tables: &mut F,
    shelf: &mut H,
    round: &mut PendingRound,
) -> Result<(), AllocError>
    requires tables { RunsTables F.pre F.post }
    requires some { 0 < length round.old.tasks }
    requires rising { IsStrictlyIncreasing (task_lines round.old.tasks) }
    requires few { length round.old.pairs + length round.old.tasks ≤ 2 ^ 24 }

    ensures closed { OnOk result (ClosesRound round.old round.new) }
    ensures ran { OnOk result (RunsOn round.old (H.kept shelf.old) round.new
        (H.kept shelf.new) (round_for round.old.tasks)) }
    ensures few { OnOk result
        (length round.new.pairs ≤ length round.old.pairs + length round.old.tasks) }
{
    shelve(shelf, round.last.take());
    let ran = run_round(
        tables,
        shelf,
        round.alloc,
        round.plain.pairs(),
        &round.tasks,
        round.workers,
        round.words,
        round.steal,
    )?;
    let pairs = ran.closed.pairs(round.alloc)?;
    round.plain = Plain::of(pairs);
    round.answers = ran.answers.into_vec();
    round.fulls = ran.fulls.as_slice().len() as u64;
    round.last = Some(ran.closed);
    round.tasks.clear();
    Ok(())
}

/// Puts the table on the shelf, if there is one.
fn shelve<H: Shelf<Closed>>(shelf: &mut H, last: Option<Closed>)
    ensures kept { IsShelved (H.kept shelf.old) (if_any last) (H.kept shelf.new) }
{
    if let Some(closed) = last {
        shelf.keep(closed);
    }
}

/// Returns the outcome of a run that ended with this round.
pub(crate) fn ended(status: u8, round: PendingRound) -> Outcome
    ensures status { result.status ≡ status }
    ensures last { IsAnswer status → result.last ≡ round.last }
    ensures fulls { IsAnswer status → result.fulls ≡ round.fulls }
    ensures none { ¬ (IsAnswer status) → HasNoTable result }
{
    if status == ANSWERED || status == BAD_LINE {
        Outcome {
            status,
            fulls: round.fulls(),
            last: round.into_last(),
        }
    } else {
        without_table(status)
    }
}
