//! The command line: options with one value each.

use crate::plans::{MOST_KEYS, MOST_THREADS, MOST_WORDS, Plan};
use clap::{Arg, ArgAction, ArgMatches, Command};
use std::alloc::{AllocError, Global};
use std::io;
use test_tools::{
    Job, NumberOption, Shares, Spread, USAGE, arguments, number, read_words, with_numbers,
};

// The options with numbers that stand before `spread`.
const CALLS: [NumberOption; 6] = [
    ("seed", "What all calls are drawn from (1)", 0, u64::MAX),
    ("threads", "Threads (1)", 1, MOST_THREADS),
    ("calls", "Calls of each thread (1000000)", 1, 1_000_000_000),
    ("puts", "Share of puts (0)", 0, 1_000_000),
    ("removes", "Share of removes (0)", 0, 1_000_000),
    ("finds", "Share of finds (1)", 0, 1_000_000),
];

// The options after them.
const KEYS: [NumberOption; 6] = [
    ("keys", "Keys at the opening (1000)", 0, MOST_KEYS),
    (
        "grown",
        "Whether puts made the keys at the opening, one after another (0: no; 1: yes)",
        0,
        1,
    ),
    (
        "span",
        "Keys that calls draw (those at the opening)",
        1,
        MOST_KEYS,
    ),
    (
        "width",
        "Keys that a find lists, from its own on (0: it finds the key; 1: the next pair)",
        0,
        u64::MAX,
    ),
    (
        "expects",
        "Whether a put expects the value that each put gives its key (0: no; 1: yes)",
        0,
        1,
    ),
    (
        "words",
        "Words of the tree (134217728)",
        4,
        MOST_WORDS as u64,
    ),
];

// The option that says how keys lie.
fn spread_option<'a>(alloc: Global) -> Arg<'a> {
    Arg::new(alloc, "spread")
        .long("spread")
        .help("How keys lie: uniform, rising or clustered (uniform)")
        .action(ArgAction::Set)
}

// The command with its options.
fn command<'a>(alloc: Global) -> Result<Command<'a>, AllocError> {
    let command = Command::new(alloc, "try_bench")
        .version("1.0")
        .about("Measures puts, removes and finds on one search tree");
    let command = with_numbers(alloc, command, &CALLS)?.arg(spread_option(alloc))?;
    with_numbers(alloc, command, &KEYS)
}

// How keys lie by this name.
fn spread_of(name: &str) -> Option<Spread> {
    match name {
        "uniform" => Some(Spread::Uniform),
        "rising" => Some(Spread::Rising),
        "clustered" => Some(Spread::Clustered),
        _ => None,
    }
}

// The plan by what was found, unless keys are to lie in an unknown way.
fn plan_of(matches: &ArgMatches) -> Option<Plan> {
    let keys = number(matches, "keys", 1000);
    Some(Plan {
        seed: number(matches, "seed", 1),
        threads: number(matches, "threads", 1),
        calls: number(matches, "calls", 1_000_000),
        shares: Shares {
            puts: number(matches, "puts", 0),
            removes: number(matches, "removes", 0),
            finds: number(matches, "finds", 1),
            freezes: 0,
        },
        spread: spread_of(matches.get_str("spread").unwrap_or("uniform"))?,
        keys,
        grown: number(matches, "grown", 0) == 1,
        span: number(matches, "span", keys),
        width: number(matches, "width", 0),
        expects: number(matches, "expects", 0) == 1,
        words: u32::try_from(number(matches, "words", 134_217_728)).unwrap_or(MOST_WORDS),
    })
}

/// What the program's arguments ask for.
pub(crate) fn read_job(rt: &HostRuntime) -> io::Result<Job<Plan>> {
    let words = arguments(rt)?;
    match read_words(rt, command(rt.alloc())?, &words)? {
        Job::Run(matches) => match plan_of(&matches) {
            Some(plan) => Ok(Job::Run(plan)),
            None => Ok(Job::Done { status: USAGE }),
        },
        Job::Done { status } => Ok(Job::Done { status }),
    }
}
