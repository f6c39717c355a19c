//! What the arguments of a command line ask for.
ghost use Rattle.std.specs.Prelude.{◌≡◌, ◌≤◌, true, false, map, string_bytes, Err, IfOk, IfSome, IsOk};
ghost use Rattle.tele_jobs.specs.CommandLine.{are_refused, options_in};

use crate::command::read;
use std::alloc::Global;

/// What a command line asks for.
#[derive(Clone, Copy, Drop)]
pub struct Options {
    /// How many threads work in parallel, from 1 to 64.
    pub workers: u64,
    /// How many words the first tree of a round has at most, unless its pairs need more: from 64 to
    /// 268,435,456.
    pub words: u64,
    /// How many lines are made instead of read, at most 1,048,576.
    pub generate: Option<u64>,
    /// The seed from which lines are made.
    pub seed: u64,
    /// Whether workers steal lanes from one another.
    pub steal: bool,
}

/// Why arguments give no options.
#[derive(Clone, Copy, Drop)]
pub enum OptionsRefusal {
    /// They aren't valid arguments of the command.
    Usage,
    /// Memory ran out.
    Memory,
}

/// Reads the arguments of a command line, the program's name first. An empty list is read like the
/// name without arguments.
///
/// `Usage` is returned only if `clap` rejects the arguments for a cause other than lack of memory;
/// a request for help or for the version is such a rejection.
pub fn read_options(alloc: Global, words: &[String]) -> Result<Options, OptionsRefusal>
    ensures values { IfOk result (λ options.
        options ≡ options_in (map string_bytes words.now)) }
    ensures taken { IsOk result → are_refused (map string_bytes words.now) ≡ false }
    ensures usage { result ≡ Err OptionsRefusal.Usage →
        are_refused (map string_bytes words.now) ≡ true }

    ensures workers { IfOk result (λ options.
        (1 ≤ options.workers) × (options.workers ≤ 64)) }
    ensures words { IfOk result (λ options.
        (64 ≤ options.words) × (options.words ≤ 268435456)) }
    ensures generate { IfOk result (λ options.
        IfSome options.generate (λ count. count ≤ 1048576)) }
{
    if words.is_empty() {
        let name = ["tele"];
        read(alloc, name.as_slice())
    } else {
        read(alloc, words)
    }
}
