//! The program `tele`: it answers the lines of standard input on standard output.
//!
//! Everything that it does is `tele_run::run`, whose contract says what is written for what is read.
#![tactic(auto)]

use std::env;
use std::process::ExitCode;
use tele_generations::NoShelf;
use tele_io::{BufferedSink, ReadSource, WriteSink};
use tele_lanes::NoGate;
use tele_run::run;

/// The status if the arguments can't be had. `run` never returns it.
const NO_ARGUMENTS: u8 = 1;

fn main(rt: HostRuntime) -> ExitCode {
    let Ok(args) = env::args(&rt) else {
        return ExitCode::from(NO_ARGUMENTS);
    };
    let Ok(words) = args.collect::<Vec<String>>(rt.alloc()) else {
        return ExitCode::from(NO_ARGUMENTS);
    };
    let mut source = ReadSource::new(rt.stdin());
    let mut out = BufferedSink::new(WriteSink::new(rt.stdout()), rt.alloc());
    let mut shelf = NoShelf;
    let outcome = run(
        &rt,
        rt.alloc(),
        words.as_slice(),
        &mut source,
        &mut out,
        &NoGate,
        &mut shelf,
    );
    ExitCode::from(outcome.status)
}
