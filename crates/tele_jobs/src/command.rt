//! The command, and what it makes of arguments.
ghost use Rattle.std.specs.Prelude.{◌≡◌, ◌≤◌, false, map, [], Err, IfOk, IsOk, IfSome, option_map};
ghost use Rattle.clap.specs.Words.{app_of, first_value, found_of, rule_of, rows_of, fault_of, matches_of};
ghost use Rattle.tele_jobs.specs.CommandLine.{sized, tele, number_option, number_said, options_at};
ghost use Rattle.tele_jobs.specs.Numbers.{IsNumber, AreNumbers};

use crate::options::{Options, OptionsRefusal};
use clap::builder::ValueParser;
use clap::error::ErrorKind;
use clap::{Arg, ArgAction, ArgMatches, Command, Error};
use std::alloc::{AllocError, Global};
use std::convert::AsStr;

/// Returns an option with one value, a number from `low` to `high`, both included.
fn number_option<'a>(alloc: Global, name: &'a str, low: u64, high: u64) -> Arg<'a>
    ensures rule { rule_of result ≡ number_option name.entry.now low high }
    ensures global { result.global ≡ false }
{
    Arg::new(alloc, name)
        .long(name)
        .action(ArgAction::Set)
        .value_parser(ValueParser::unsigned(low, high))
}

/// Returns the command with its options on workers and words.
fn sized<'a>(alloc: Global) -> Result<Command<'a>, AllocError>
    ensures value { IfOk result (λ c. app_of c ≡ sized) }
{
    Command::new(alloc, "tele")
        .arg(number_option(alloc, "workers", 1, 64))?
        .arg(number_option(alloc, "words", 64, 268_435_456))
}

/// Returns the command with its five options.
fn command<'a>(alloc: Global) -> Result<Command<'a>, AllocError>
    ensures value { IfOk result (λ c. app_of c ≡ tele) }
{
    sized(alloc)?
        .arg(number_option(alloc, "generate", 0, 1_048_576))?
        .arg(number_option(alloc, "seed", 0, u64::MAX))?
        .arg(number_option(alloc, "steal", 0, 1))
}

/// Returns what the command makes of the arguments.
fn matches_of<'a, S: AsStr>(alloc: Global, words: &'a [S]) -> Result<ArgMatches<'a>, OptionsRefusal>
    ensures rows { IfOk result (λ m.
        rows_of (found_of m) ≡ matches_of tele (map S.text words.entry.now)) }
    ensures numbers { IfOk result (λ m. AreNumbers (found_of m)) }
    ensures taken { IsOk result → fault_of tele (map S.text words.entry.now) ≡ [] }
    ensures usage { result ≡ Err OptionsRefusal.Usage →
        ¬ (fault_of tele (map S.text words.entry.now) ≡ []) }
{
    let command = match command(alloc) {
        Ok(command) => command,
        Err(AllocError) => return Err(OptionsRefusal::Memory),
    };
    match command.try_get_matches_from(words) {
        Ok(matches) => Ok(matches),
        Err(error) => match error.kind() {
            ErrorKind::OutOfMemory => Err(OptionsRefusal::Memory),
            _ => Err(OptionsRefusal::Usage),
        },
    }
}

/// Returns the number that was found for an option.
fn number(matches: &ArgMatches, name: &str) -> Option<u64>
    requires fits { IfSome (first_value (found_of matches.now) name.now) IsNumber }
    ensures value { result ≡ option_map number_said (first_value (found_of matches.now) name.now) }
{
    match matches.get_str(name)?.parse::<u64>() {
        Ok(number) => Some(number),
        Err(_) => None,
    }
}

/// Returns the options by what was found.
fn options_at(matches: &ArgMatches) -> Options
    requires numbers { AreNumbers (found_of matches.now) }
    ensures value { result ≡ options_at (rows_of (found_of matches.now)) }

    ensures workers { (1 ≤ result.workers) × (result.workers ≤ 64) }
    ensures words { (64 ≤ result.words) × (result.words ≤ 268435456) }
    ensures generate { IfSome result.generate (λ count. count ≤ 1048576) }
{
    Options {
        workers: number(matches, "workers").unwrap_or(4),
        words: number(matches, "words").unwrap_or(33_554_432),
        generate: number(matches, "generate"),
        seed: number(matches, "seed").unwrap_or(1),
        steal: number(matches, "steal").unwrap_or(0) == 1,
    }
}

/// Reads the arguments, of which the first is the program's name.
pub(crate) fn read<S: AsStr>(alloc: Global, words: &[S]) -> Result<Options, OptionsRefusal>
    ensures values { IfOk result (λ options.
        options ≡ options_at (matches_of tele (map S.text words.now))) }
    ensures taken { IsOk result → fault_of tele (map S.text words.now) ≡ [] }
    ensures usage { result ≡ Err OptionsRefusal.Usage →
        ¬ (fault_of tele (map S.text words.now) ≡ []) }

    ensures workers { IfOk result (λ options.
        (1 ≤ options.workers) × (options.workers ≤ 64)) }
    ensures words { IfOk result (λ options.
        (64 ≤ options.words) × (options.words ≤ 268435456)) }
    ensures generate { IfOk result (λ options.
        IfSome options.generate (λ count. count ≤ 1048576)) }
{
    let matches = matches_of(alloc, words)?;
    Ok(options_at(&matches))
}
