//! The command line: a file or standard input, and whether to report progress.

use clap::{Arg, ArgAction, Command};
use std::alloc::{AllocError, Global};
use std::io;

/// What follows the options in the text that `--help` prints.
const STATUSES: &str =
    "Statuses: 0 lawful, 1 unlawful, 2 usage, 3 bad form, 4 a failed read or write";

/// What the command-line arguments ask for.
#[derive(Drop)]
pub enum Job<'a> {
    /// Everything was already printed: help, the version, or that the arguments are wrong.
    Done {
        status: u8,
    },
    /// Check a log: the file's, or standard input's if no file is named.
    Check {
        path: Option<&'a str>,
        progress: bool,
    },
}

/// Returns the argument that names the log.
fn log_argument<'a>(alloc: Global) -> Arg<'a> {
    Arg::new(alloc, "LOG")
        .help("The file with the log; standard input where none is named")
        .action(ArgAction::Set)
}

/// Returns the option that asks for progress reports.
fn progress_option<'a>(alloc: Global) -> Arg<'a> {
    Arg::new(alloc, "progress")
        .long("progress")
        .help("Say on standard error how far it is, as of a long log on a terminal")
        .action(ArgAction::SetTrue)
}

/// Returns the command with its argument and its option.
fn command<'a>(alloc: Global) -> Result<Command<'a>, AllocError> {
    Command::new(alloc, "log_check")
        .version("1.0")
        .about("Says whether a log of events of the search tree is lawful")
        .after_help(STATUSES)
        .arg(log_argument(alloc))?
        .arg(progress_option(alloc))
}

/// Returns what the arguments ask for; the first is the program's name.
pub fn read_words<'a>(rt: &HostRuntime, words: &'a [String]) -> io::Result<Job<'a>> {
    match command(rt.alloc())?.try_get_matches_from(words) {
        Ok(matches) => Ok(Job::Check {
            path: matches.get_str("LOG"),
            progress: matches.get_flag("progress"),
        }),
        Err(error) => {
            error.print(rt)?;
            Ok(Job::Done {
                status: if error.use_stderr() { 2 } else { 0 },
            })
        }
    }
}
