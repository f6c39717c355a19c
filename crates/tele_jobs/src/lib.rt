//! What a run of the program has to do and how it may end, what it prints, and what its rounds and its
//! steps add up to; its command line; lines that are made from a number instead of being read. And doing
//! it, on tables that somebody else opens: nothing here waits for a tree.
//!
//! Read `specs/Rounds.antt`, `specs/Causes.antt` and `specs/Steps.antt`, then `jobs.rt`, `outcomes.rt`
//! and `replies.rt`; `works.rt`, `steps.rt` and `rounds.rt`; `specs/CommandLine.antt` with `options.rt`;
//! `specs/Made.antt` and `specs/Summaries.antt` with `makers.rt`, `made.rt` and `summaries.rt`. Builds on `tele_io`, `tele_lines`,
//! `tele_lanes`, `tele_generations`, the crates below them, and `clap`.
#![tactic(auto)]

mod command;
mod jobs;
mod made;
mod makers;
mod options;
mod outcomes;
mod replies;
mod rounds;
mod steps;
mod summaries;
mod works;

pub use jobs::{Job, LINE_LIMIT, Plan, read_plan};
pub use makers::CommandMaker;
pub use options::{Options, OptionsRefusal, read_options};
pub use outcomes::{
    ANSWERED, BAD_LINE, NO_MEMORY, Outcome, READ_FAILED, USAGE, WRITE_FAILED, refused,
    without_table,
};
pub use replies::{end_with_bad, end_with_pairs, end_with_summary, print_answers, refuse};
pub use summaries::{Summary, print_summary, sum_of};
pub use works::work;
