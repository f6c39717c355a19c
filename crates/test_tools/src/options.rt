//! The command lines of programs whose options have one number each.

use clap::builder::ValueParser;
use clap::{Arg, ArgAction, ArgMatches, Command};
use std::alloc::{AllocError, Global};
use std::process::ExitCode;
use std::{env, io};

/// The status of a program that found a check failed.
pub const WRONG: u8 = 1;

/// The status if the arguments are refused, or ask for a run that can't begin.
pub const USAGE: u8 = 2;

/// The status if memory ran out, or reading or writing failed.
pub const FAILED: u8 = 3;

/// What follows the options in the text that `--help` prints, if the program judges what it runs.
pub const JUDGE_STATUSES: &str =
    "Statuses: 0 all holds, 1 a check failed, 2 usage, 3 memory or writing failed";

/// An option with one number: its name, what it is for, and the least and the greatest number.
pub type NumberOption = (&'static str, &'static str, u64, u64);

/// What a command line asks for.
#[derive(Drop)]
pub enum Job<P> {
    /// Nothing more: help, the version, or why the arguments are refused was printed.
    Done { status: u8 },
    /// A run by this plan.
    Run(P),
}

/// Returns the command with these options too.
pub fn with_numbers<'a>(
    alloc: Global,
    command: Command<'a>,
    options: &[NumberOption],
) -> Result<Command<'a>, AllocError> {
    let mut command = command;
    for &(name, help, low, high) in options {
        let option = Arg::new(alloc, name)
            .long(name)
            .help(help)
            .action(ArgAction::Set)
            .value_parser(ValueParser::unsigned(low, high));
        command = command.arg(option)?;
    }
    Ok(command)
}

/// Returns the number of an option, or `otherwise` if none is given.
pub fn number(matches: &ArgMatches, name: &str, otherwise: u64) -> u64 {
    match matches.get_str(name) {
        Some(text) => text.parse::<u64>().unwrap_or(otherwise),
        None => otherwise,
    }
}

/// Returns the program's arguments, of which the first is its name.
pub fn arguments(rt: &HostRuntime) -> io::Result<Vec<String>> {
    Ok(env::args(rt)?.collect(rt.alloc())?)
}

/// Returns what the command finds in the arguments, of which the first is the program's name. What it has to say
/// instead, it prints.
pub fn read_words<'a>(
    rt: &HostRuntime,
    command: Command<'a>,
    words: &'a [String],
) -> io::Result<Job<ArgMatches<'a>>> {
    match command.try_get_matches_from(words) {
        Ok(matches) => Ok(Job::Run(matches)),
        Err(error) => {
            error.print(rt)?;
            Ok(Job::Done {
                status: if error.use_stderr() { USAGE } else { 0 },
            })
        }
    }
}

/// Returns how a program ends: with its status, or with `FAILED` if it has none.
pub fn exit_code(status: io::Result<u8>) -> ExitCode {
    ExitCode::from(status.unwrap_or(FAILED))
}
