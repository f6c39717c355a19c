//! What a command line asks for. Its arguments are read by hand.
ghost use Rattle.std.specs.Prelude.{◌≡◌, map, string_bytes};
ghost use Rattle.tele_audit.specs.Jobs.{audit_job, job_named, job_between};

use tele_lines::number;

/// What is asked of a dump.
#[derive(Clone, Copy, Debug, PartialEq, Eq, Drop)]
pub(crate) enum Question {
    /// The numbers of keys, used words and words.
    Counts,
    /// The pairs from one key to another, both included.
    Between { first: u64, last: u64 },
}

/// What a run must do.
#[derive(Clone, Copy, Debug, PartialEq, Eq, Drop)]
pub(crate) enum Job {
    /// Say that the arguments are wrong.
    Refuse,
    /// Read lines, and write the dump of a table of their pairs.
    Pack,
    /// Read a dump, and answer a question about it.
    Tell(Question),
}

/// Returns what the command-line arguments ask for, the program's name first.
pub(crate) fn read_job(words: &[String]) -> Job
    ensures value { result ≡ audit_job (map string_bytes words.now) }
{
    match words {
        [_, word] => named(word.as_str()),
        [_, word, first, last] => interval(word.as_str(), first.as_str(), last.as_str()),
        _ => Job::Refuse,
    }
}

/// Returns what a single argument asks for.
fn named(word: &str) -> Job
    ensures value { result ≡ job_named word.now }
{
    if word == "pack" {
        Job::Pack
    } else if word == "check" {
        Job::Tell(Question::Counts)
    } else {
        Job::Refuse
    }
}

/// Returns what an argument and two more ask for.
fn interval(word: &str, first: &str, last: &str) -> Job
    ensures value { result ≡ job_between word.now first.now last.now }
{
    if word != "list" {
        return Job::Refuse;
    }
    match (number(first.as_bytes()), number(last.as_bytes())) {
        (Some(first), Some(last)) => Job::Tell(Question::Between { first, last }),
        _ => Job::Refuse,
    }
}
