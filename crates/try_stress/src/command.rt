//! The command line: options with one number each.

use crate::plans::{MOST_KEYS, MOST_PASSES, MOST_WORDS, Plan};
use clap::{ArgMatches, Command};
use std::alloc::{AllocError, Global};
use std::io;
use test_tools::{
    JUDGE_STATUSES, Job, NumberOption, Shares, arguments, number, read_words, with_numbers,
};

// All options.
const OPTIONS: [NumberOption; 11] = [
    ("seed", "What all calls are drawn from (1)", 0, u64::MAX),
    ("passes", "Threads, each with a pass (4)", 1, MOST_PASSES),
    (
        "rounds",
        "Rounds, with notes between them (4)",
        0,
        1_000_000,
    ),
    (
        "calls",
        "Calls of each thread in a round (10000)",
        0,
        100_000_000,
    ),
    ("puts", "Share of puts (500)", 0, 1_000_000),
    ("removes", "Share of removes (250)", 0, 1_000_000),
    ("finds", "Share of finds (249)", 0, 1_000_000),
    ("freezes", "Share of freezes (1)", 0, 1_000_000),
    (
        "span",
        "Keys, the numbers below this one (1000)",
        1,
        MOST_KEYS,
    ),
    ("words", "Words of the tree (8388608)", 4, MOST_WORDS as u64),
    ("map", "1: run a map that grows, not one tree (0)", 0, 1),
];

// The command with its options.
fn command<'a>(alloc: Global) -> Result<Command<'a>, AllocError> {
    let command = Command::new(alloc, "try_stress")
        .version("1.0")
        .about("Runs threads on one search tree or map, and judges what each of them was told")
        .after_help(JUDGE_STATUSES);
    with_numbers(alloc, command, &OPTIONS)
}

// The plan by what was found.
fn plan_of(matches: &ArgMatches) -> Plan {
    Plan {
        seed: number(matches, "seed", 1),
        passes: number(matches, "passes", 4),
        rounds: number(matches, "rounds", 4),
        calls: number(matches, "calls", 10_000),
        shares: Shares {
            puts: number(matches, "puts", 500),
            removes: number(matches, "removes", 250),
            finds: number(matches, "finds", 249),
            freezes: number(matches, "freezes", 1),
        },
        span: number(matches, "span", 1000),
        words: u32::try_from(number(matches, "words", 8_388_608)).unwrap_or(MOST_WORDS),
        map: number(matches, "map", 0) == 1,
    }
}

/// What the program's arguments ask for.
pub(crate) fn read_job(rt: &HostRuntime) -> io::Result<Job<Plan>> {
    let words = arguments(rt)?;
    match read_words(rt, command(rt.alloc())?, &words)? {
        Job::Run(matches) => Ok(Job::Run(plan_of(&matches))),
        Job::Done { status } => Ok(Job::Done { status }),
    }
}
