//! What one line says.
ghost use Rattle.std.specs.Prelude.{◌≡◌};
ghost use Rattle.tele_lines.specs.Lines.{words_in_line};
ghost use Rattle.tele_lines.specs.Words.{BeginsWord};
ghost use Rattle.tele_lines.specs.Readings.{one_number, two_numbers, next_mode, chosen, by_letter, letter_of, is_note, reading};

use crate::items::{Cause, Item, Said, Version};
use crate::numerals::read_number;
use crate::words::{skip_blanks, split_word, trim_return};
use ist_core::Command;

/// The most bytes that a line may have, without its line end.
pub(crate) const LONGEST: usize = 80;

/// Reads words as exactly one number.
fn one(version: Version, words: &[u8]) -> Result<u64, Cause>
    requires word { BeginsWord words.now }
    ensures value { result ≡ one_number version (words_in_line words.now) }
{
    if words.is_empty() {
        return Err(Cause::Fields);
    }
    let (word, more) = split_word(words);
    if !more.is_empty() {
        return Err(Cause::Fields);
    }
    match read_number(version, word) {
        Some(number) => Ok(number),
        None => Err(Cause::Number),
    }
}

/// Reads words as exactly two numbers.
fn two(version: Version, words: &[u8]) -> Result<(u64, u64), Cause>
    requires word { BeginsWord words.now }
    ensures value { result ≡ two_numbers version (words_in_line words.now) }
{
    if words.is_empty() {
        return Err(Cause::Fields);
    }
    let (first, more) = split_word(words);
    if more.is_empty() {
        return Err(Cause::Fields);
    }
    let (second, rest) = split_word(more);
    if !rest.is_empty() {
        return Err(Cause::Fields);
    }
    match (read_number(version, first), read_number(version, second)) {
        (Some(x), Some(y)) => Ok((x, y)),
        _ => Err(Cause::Number),
    }
}

/// Returns the mode after a line that says this.
pub(crate) fn mode_after(mode: Option<Version>, said: &Said) -> Option<Version>
    ensures value { result ≡ next_mode mode said.now }
{
    match said {
        Said::Skips => mode,
        Said::Chooses(version) => Some(*version),
        Said::Asks(_) => Some(mode.unwrap_or(Version::One)),
        Said::Fails(_) => mode,
    }
}

/// Returns the version that a number names.
fn choose(number: Result<u64, Cause>) -> Said
    ensures value { result ≡ chosen number }
{
    match number {
        Ok(1) => Said::Chooses(Version::One),
        Ok(2) => Said::Chooses(Version::Two),
        Ok(_) => Said::Fails(Cause::Number),
        Err(cause) => Said::Fails(cause),
    }
}

/// Returns the one byte of a word of one byte.
fn letter(word: &[u8]) -> Option<u8>
    ensures value { result ≡ letter_of word.now }
{
    match word {
        [byte] => Some(*byte),
        _ => None,
    }
}

/// Returns whether a word begins with a number sign.
fn is_comment(word: &[u8]) -> bool
    ensures value { result ≡ is_note word.now }
{
    match word {
        [first, ..] => *first == b'#',
        [] => false,
    }
}

/// Returns what a line with this letter says, if these words follow the letter.
fn say(mode: Option<Version>, letter: Option<u8>, more: &[u8]) -> Said
    requires word { BeginsWord more.now }
    ensures value { result ≡ by_letter mode letter (words_in_line more.now) }
{
    let version = mode.unwrap_or(Version::One);
    match letter {
        Some(b'P') => match two(version, more) {
            Ok((key, value)) => Said::Asks(Item::Point(Command::Put { key, value })),
            Err(cause) => Said::Fails(cause),
        },
        Some(b'R') => match one(version, more) {
            Ok(key) => Said::Asks(Item::Point(Command::Remove { key })),
            Err(cause) => Said::Fails(cause),
        },
        Some(b'G') => match one(version, more) {
            Ok(key) => Said::Asks(Item::Point(Command::Get { key })),
            Err(cause) => Said::Fails(cause),
        },
        Some(b'I') => match two(version, more) {
            Ok((first, last)) => Said::Asks(Item::Interval { first, last }),
            Err(cause) => Said::Fails(cause),
        },
        Some(b'V') if mode.is_none() => choose(one(Version::One, more)),
        _ => Said::Fails(Cause::Letter),
    }
}

/// Returns what the line with this number says, if `limit` lines are allowed.
pub(crate) fn read_line(limit: u64, number: u64, mode: Option<Version>, line: &[u8]) -> Said
    ensures value { result ≡ reading limit number mode line.now }
{
    if number > limit {
        return Said::Fails(Cause::Lines);
    }
    let line = trim_return(line);
    if line.len() > LONGEST {
        return Said::Fails(Cause::Long);
    }
    let words = skip_blanks(line);
    if words.is_empty() {
        return Said::Skips;
    }
    let (word, more) = split_word(words);
    if is_comment(word) {
        return Said::Skips;
    }
    say(mode, letter(word), more)
}
