//! What is printed for a line.
ghost use Rattle.std.specs.Prelude.{◌≡◌, ◌+◌, ◌≤◌, ◌++◌, Err, OnOk, OnErr, length};
ghost use Rattle.std.specs.List.{flat_map};
ghost use Rattle.tele_io.specs.Bytes.{HaveRisen, Appends, AppendsPart};
ghost use Rattle.tele_lines.specs.Numerals.{number_text};
ghost use Rattle.tele_lines.specs.Answer.{answer_text, pair_text, count_text, interval_text, cause_text, bad_text};

use crate::items::{Cause, Version};
use crate::numerals::signed;
use crate::texts::Text;
use ist_core::{Pair, Reply};
use tele_io::{Sink, SinkFault, write_whole};

/// Adds a kept number in the form in which a version prints it.
fn push_kept(text: &mut Text, version: Version, kept: u64)
    requires room { length text.old + 20 ≤ 64 }
    ensures added { text.new ≡ text.old ++ number_text version kept }
    ensures short { length text.new ≤ length text.old + 20 }
{
    match version {
        Version::One => text.push_number(kept),
        Version::Two => text.push_signed(signed(kept)),
    }
}

/// Returns the line printed for a reply: `17 1200`, or `17 -` if there was no value.
fn answer_line(version: Version, line: u64, reply: Reply) -> Text
    ensures value { result ≡ answer_text version line reply }
{
    let mut text = Text::new();
    text.push_number(line);
    text.push(b" ");
    match reply {
        Some(value) => push_kept(&mut text, version, value),
        None => text.push(b"-"),
    }
    text.end_line();
    text
}

/// Returns the line printed for a pair.
fn pair_line(version: Version, pair: Pair) -> Text
    ensures value { result ≡ pair_text version pair }
{
    let mut text = Text::new();
    push_kept(&mut text, version, pair.key);
    text.push(b" ");
    push_kept(&mut text, version, pair.value);
    text.end_line();
    text
}

/// Returns the first line printed for an interval: `17 3`.
fn count_line(line: u64, count: usize) -> Text
    ensures value { result ≡ count_text line count }
{
    let mut text = Text::new();
    text.push_number(line);
    text.push(b" ");
    text.push_number(count as u64);
    text.end_line();
    text
}

/// Returns the word printed for a cause.
fn cause_word(cause: Cause) -> &'static [u8]
    ensures value { result.now ≡ cause_text cause }
{
    match cause {
        Cause::Long => b"long",
        Cause::Letter => b"letter",
        Cause::Fields => b"fields",
        Cause::Number => b"number",
        Cause::Lines => b"lines",
    }
}

/// Returns the line printed for a bad line: `! 17 letter`.
fn bad_line(line: u64, cause: Cause) -> Text
    ensures value { result ≡ bad_text line cause }
{
    let mut text = Text::new();
    text.push(b"! ");
    text.push_number(line);
    text.push(b" ");
    text.push(cause_word(cause));
    text.end_line();
    text
}

/// Prints the reply to a point line: the line's number, a space, the value in decimal or `-`, and a
/// newline. In version 2 the value is the kept number less 2^63.
///
/// It goes out by one `write_whole`, and nothing of its own is allocated. On an error, which is the
/// sink's, a prefix of the text may have been written.
pub fn print_answer<O: Sink>(
    out: &mut O,
    version: Version,
    line: u64,
    reply: Reply,
) -> Result<(), SinkFault>
    ensures printed { OnOk result (Appends (O.written out.old) (O.written out.new)
        (answer_text version line reply)) }

    ensures failed { result ≡ Err SinkFault.Failed →
        HaveRisen (O.faults out.old) (O.faults out.new) }
    ensures part { OnErr result (AppendsPart (O.written out.old) (O.written out.new)
        (answer_text version line reply)) }

    ensures counted { O.faults out.old ≤ O.faults out.new }
{
    let text = answer_line(version, line, reply);
    write_whole(out, text.as_slice())
}

/// Prints the reply to an interval line: the line's number, a space, the number of pairs, and a
/// newline; then one line per pair: its timestamp, a space and its reading. In version 2 timestamps
/// and readings are the kept numbers less 2^63.
///
/// Each line goes out by one `write_whole`, and nothing of its own is allocated. On an error, which
/// is the sink's, a prefix of the text may have been written.
pub fn print_interval<O: Sink>(
    out: &mut O,
    version: Version,
    line: u64,
    pairs: &[Pair],
) -> Result<(), SinkFault>
    ensures printed { OnOk result (Appends (O.written out.old) (O.written out.new)
        (interval_text version line pairs.now)) }

    ensures failed { result ≡ Err SinkFault.Failed →
        HaveRisen (O.faults out.old) (O.faults out.new) }
    ensures part { OnErr result (AppendsPart (O.written out.old) (O.written out.new)
        (interval_text version line pairs.now)) }

    ensures counted { O.faults out.old ≤ O.faults out.new }
{
    let text = count_line(line, pairs.len());
    write_whole(out, text.as_slice())?;
    print_pairs(out, version, pairs)
}

/// Prints one line per pair: its timestamp, a space and its reading. In version 2 these are the
/// kept numbers less 2^63.
///
/// Each line goes out by one `write_whole`, and nothing of its own is allocated. On an error, which
/// is the sink's, a prefix of the text may have been written.
pub fn print_pairs<O: Sink>(out: &mut O, version: Version, pairs: &[Pair]) -> Result<(), SinkFault>
    ensures printed { OnOk result (Appends (O.written out.old) (O.written out.new)
        (flat_map (pair_text version) pairs.now)) }

    ensures failed { result ≡ Err SinkFault.Failed →
        HaveRisen (O.faults out.old) (O.faults out.new) }
    ensures part { OnErr result (AppendsPart (O.written out.old) (O.written out.new)
        (flat_map (pair_text version) pairs.now)) }

    ensures counted { O.faults out.old ≤ O.faults out.new }
{
    for pair in pairs {
        let text = pair_line(version, *pair);
        write_whole(out, text.as_slice())?;
    }
    Ok(())
}

/// Prints that a line is bad: `! `, the line's number, a space, the word for the cause, and a
/// newline.
///
/// It goes out by one `write_whole`, and nothing of its own is allocated. On an error, which is the
/// sink's, a prefix of the text may have been written.
pub fn print_bad<O: Sink>(out: &mut O, line: u64, cause: Cause) -> Result<(), SinkFault>
    ensures printed { OnOk result (Appends (O.written out.old) (O.written out.new)
        (bad_text line cause)) }

    ensures failed { result ≡ Err SinkFault.Failed →
        HaveRisen (O.faults out.old) (O.faults out.new) }
    ensures part { OnErr result (AppendsPart (O.written out.old) (O.written out.new)
        (bad_text line cause)) }

    ensures counted { O.faults out.old ≤ O.faults out.new }
{
    let text = bad_line(line, cause);
    write_whole(out, text.as_slice())
}
