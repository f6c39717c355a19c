//! The program `try_bench`: it measures puts, removes, finds and ordered reads on one search tree.
//!
//! Read `plans.rt` and `runs.rt`. Stands on `ist_core`, `ist_tree`, `ist_live`, `test_tools`,
//! `plain_map` and `clap`.
#![tactic(auto)]

mod clocks;
mod command;
mod plans;
mod runs;
mod workers;

use command::read_job;
use runs::{Figures, measure};
use std::io;
use std::process::ExitCode;
use test_tools::{FAILED, Job, USAGE, exit_code};

fn main(rt: HostRuntime) -> ExitCode {
    let plan = match read_job(&rt) {
        Ok(Job::Run(plan)) => plan,
        Ok(Job::Done { status }) => return ExitCode::from(status),
        Err(_) => return ExitCode::from(FAILED),
    };
    match measure(&rt, plan) {
        Ok(Some(figures)) => exit_code(say(&rt, &figures)),
        Ok(None) => ExitCode::from(USAGE),
        Err(_) => ExitCode::from(FAILED),
    }
}

/// Says the figures in one line, and returns the status.
fn say(rt: &HostRuntime, figures: &Figures) -> io::Result<u8> {
    let spent = figures.spent;
    let each = spent.processor / figures.calls.max(1);
    let second = per_second(figures.calls, spent.elapsed);
    let words = figures.used / figures.keys.max(1);
    println!(rt;
        "{each} processor ns a call, {second} calls a second, {words} words a key: {} calls, {} found, {} refused, {} keys",
        figures.calls, figures.found, figures.refused, figures.keys
    )?;
    Ok(0)
}

/// How many of the calls were made in a second, by the nanoseconds of all.
fn per_second(calls: u64, elapsed: u64) -> u128 {
    u128::from(calls) * 1_000_000_000 / u128::from(elapsed.max(1))
}
