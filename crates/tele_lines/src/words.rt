//! The words of a line.
ghost use Rattle.std.specs.Prelude.{◌≡◌, ◌<◌, ◌≤◌, ◌∷◌, length, take, drop};
ghost use Rattle.tele_lines.specs.Lines.{without_return, words_in_line};
ghost use Rattle.tele_lines.specs.Words.{BeginsWord};

use memchr::memchr2;

/// Returns a line without the carriage return at its end, if it has one there.
pub(crate) fn trim_return(line: &[u8]) -> &[u8]
    ensures value { result.now ≡ without_return line.now }
{
    match line.strip_suffix(b"\r") {
        Some(front) => front,
        None => line,
    }
}

/// Skips blanks: returns the bytes from the first word on.
pub(crate) fn skip_blanks(bytes: &[u8]) -> &[u8]
    ensures words { words_in_line result.now ≡ words_in_line bytes.now }
    ensures word { BeginsWord result.now }
{
    for (place, byte) in bytes.iter().enumerate() {
        if *byte != b' ' && *byte != b'\t' {
            return &bytes[place..];
        }
    }
    &[]
}

/// Returns the length of the word at the front of these bytes.
fn word_len(bytes: &[u8]) -> usize
    requires word { BeginsWord bytes.now }
    requires some { 0 < length bytes.now }
    ensures within { result ≤ length bytes.now }
    ensures first { words_in_line bytes.now
        ≡ take result bytes.now ∷ words_in_line (drop result bytes.now) }
{
    memchr2(b' ', b'\t', bytes).unwrap_or(bytes.len())
}

/// Splits off the first word: returns it, and the bytes from the next word on.
pub(crate) fn split_word(bytes: &[u8]) -> (&[u8], &[u8])
    requires word { BeginsWord bytes.now }
    requires some { 0 < length bytes.now }
    ensures words { words_in_line bytes.now ≡ result.0.now ∷ words_in_line result.1.now }
    ensures next { BeginsWord result.1.now }
{
    let len = word_len(bytes);
    (&bytes[..len], skip_blanks(&bytes[len..]))
}
