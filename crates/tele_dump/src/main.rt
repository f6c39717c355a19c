//! The program `tele_dump`: it packs lines into the dump of a table, checks a dump, and lists it.
//!
//! Everything that it does is `tele_audit::audit_run`, whose contract says what is written for what is
//! read.
#![tactic(auto)]

use std::env;
use std::process::ExitCode;
use tele_audit::audit_run;
use tele_io::{ReadSource, WriteSink};

/// The status if the arguments can't be read. `audit_run` never returns it.
const NO_ARGUMENTS: u8 = 1;

fn main(rt: HostRuntime) -> ExitCode {
    let Ok(args) = env::args(&rt) else {
        return ExitCode::from(NO_ARGUMENTS);
    };
    let Ok(words) = args.collect::<Vec<String>>(rt.alloc()) else {
        return ExitCode::from(NO_ARGUMENTS);
    };
    let mut source = ReadSource::new(rt.stdin());
    let mut out = WriteSink::new(rt.stdout());
    let status = audit_run(rt.alloc(), words.as_slice(), &mut source, &mut out);
    ExitCode::from(status)
}
