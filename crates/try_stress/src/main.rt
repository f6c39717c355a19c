//! The program `try_stress`: threads on one search tree, or on a map that grows from tree to tree, and
//! a judge of what each of them was told.
//!
//! Read `plans.rt`, `rounds.rt` and `closing.rt`; for a map `growing.rt`. Stands on `ist_core`,
//! `ist_rest`, `ist_tree`, `ist_map`, `test_tools`, `plain_map`, `tele_io`, `tele_audit` and `clap`.
#![tactic(auto)]

mod closing;
mod command;
mod faults;
mod growing;
mod plans;
mod rounds;
mod runs;
mod scripts;
mod workers;

use command::read_job;
use faults::Fault;
use growing::{Growth, grow};
use plans::Plan;
use runs::{Report, run};
use std::io;
use std::process::ExitCode;
use test_tools::{FAILED, Job, USAGE, WRONG, exit_code};

fn main(rt: HostRuntime) -> ExitCode {
    let plan = match read_job(&rt) {
        Ok(Job::Run(plan)) => plan,
        Ok(Job::Done { status }) => return ExitCode::from(status),
        Err(_) => return ExitCode::from(FAILED),
    };
    if plan.map {
        let outcome = grow(&rt, rt.alloc(), plan);
        return exit_code(say_growth(&rt, &plan, &outcome));
    }
    let outcome = run(&rt, rt.alloc(), plan);
    exit_code(say(&rt, &plan, &outcome))
}

/// Says what was run.
fn say_plan(rt: &HostRuntime, plan: &Plan) -> io::Result<()> {
    println!(rt;
        "seed {}: {} passes, {} rounds of {} calls each, {} keys, {} words",
        plan.seed, plan.passes, plan.rounds, plan.calls, plan.span, plan.words
    )
}

/// Says what was run on a tree and what came of it, and gives the status.
fn say(rt: &HostRuntime, plan: &Plan, outcome: &Result<Report, Fault>) -> io::Result<u8> {
    say_plan(rt, plan)?;
    match outcome {
        Ok(report) => say_report(rt, report),
        Err(fault) => say_fault(rt, *fault),
    }
}

/// Says what was run on a map and what came of it, and gives the status.
fn say_growth(rt: &HostRuntime, plan: &Plan, outcome: &Result<Growth, Fault>) -> io::Result<u8> {
    say_plan(rt, plan)?;
    match outcome {
        Ok(growth) => {
            println!(rt;
                "answered: {} calls; at the end {} keys and {} words",
                growth.answered, growth.keys, growth.words
            )?;
            Ok(0)
        }
        Err(fault) => say_fault(rt, *fault),
    }
}

/// Says what a run did.
fn say_report(rt: &HostRuntime, report: &Report) -> io::Result<u8> {
    let tally = report.tally;
    println!(rt;
        "answered: {} puts, {} removes, {} finds, {} freezes",
        tally.puts, tally.removes, tally.finds, tally.freezes
    )?;
    println!(rt;
        "refused: {} puts and removes, {} freezes; passes that met a refused rebuild: {}",
        tally.refused, tally.unfrozen, report.rebuilds_refused
    )?;
    let settled = if report.settled {
        "settled"
    } else {
        "not settled"
    };
    println!(rt;
        "closed: {} keys, {} words used, {settled}, audited",
        report.keys, report.used
    )?;
    Ok(0)
}

/// Says what ended a run, and gives its status.
fn say_fault(rt: &HostRuntime, fault: Fault) -> io::Result<u8> {
    println!(rt; "failed: {fault:?}")?;
    Ok(status_of(fault))
}

/// The status of a fault.
fn status_of(fault: Fault) -> u8 {
    match fault {
        Fault::Unfit | Fault::Beyond | Fault::Small { .. } => USAGE,
        Fault::Memory => FAILED,
        _ => WRONG,
    }
}
