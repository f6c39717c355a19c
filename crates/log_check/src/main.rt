//! The program `log_check`: it reads a log of events, and says whether it is lawful.
//!
//! Read `logs.rt`, which says the form of the text, and `verdicts.rt`. Stands on `ist_core`,
//! `ist_math`, `ist_layout`, `ist_check` and `clap`.
#![tactic(auto)]

mod answers;
mod command;
mod events;
mod faults;
mod fields;
mod kinds;
mod logs;
mod verdicts;

use answers::answer_to;
use command::{Job, read_words};
use std::io::{IsTerminal, Read};
use std::process::ExitCode;
use std::{env, fs, io};

/// The status if reading, writing or memory failed.
const FAILED: u8 = 4;

/// How many bytes make a log long.
const LONG: usize = 16_777_216;

fn main(rt: HostRuntime) -> ExitCode {
    match run(&rt) {
        Ok(status) => ExitCode::from(status),
        Err(_) => ExitCode::from(FAILED),
    }
}

/// Does what the command-line arguments ask for, and returns the status.
fn run(rt: &HostRuntime) -> io::Result<u8> {
    let words: Vec<String> = env::args(rt)?.collect(rt.alloc())?;
    match read_words(rt, words.as_slice())? {
        Job::Done { status } => Ok(status),
        Job::Check { path, progress } => {
            let text = read_text(rt, path)?;
            if progress || (text.len() >= LONG && rt.stderr().is_terminal()) {
                let size = text.len();
                eprintln!(rt; "log_check: {size} bytes read")?;
            }
            let (answer, status) = answer_to(rt.alloc(), text.as_slice())?;
            println!(rt; "{answer}")?;
            Ok(status)
        }
    }
}

/// Reads the bytes of the file, or of standard input if no file is named. Reports a failed read.
fn read_text(rt: &HostRuntime, path: Option<&str>) -> io::Result<Vec<u8>> {
    let read = match path {
        Some(path) => fs::read(rt, path),
        None => read_input(rt),
    };
    if read.is_err() {
        let name = path.unwrap_or("standard input");
        eprintln!(rt; "log_check: {name} can't be read")?;
    }
    read
}

/// Reads the bytes of standard input.
fn read_input(rt: &HostRuntime) -> io::Result<Vec<u8>> {
    let mut text = Vec::new(rt.alloc());
    rt.stdin().read_to_end(&mut text)?;
    Ok(text)
}
