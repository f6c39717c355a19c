//! What the program writes about a dump.
ghost use Rattle.std.specs.Prelude.{◌≡◌, ◌≤◌, length, Err, OnOk, OnErr};
ghost use Rattle.tele_io.specs.Bytes.{HaveRisen, Appends, AppendsPart};
ghost use Rattle.tele_audit.specs.Runs.{counts_text, said, flaw_word, flaw_text};

use crate::audits::Audited;
use crate::flaws::Flaw;
use crate::jobs::Question;
use crate::pieces::Chunk;
use tele_io::{Sink, SinkFault, write_whole};
use tele_lines::{Version, print_pairs};

/// Returns the line with the numbers of keys, used words and words.
fn counts_line(told: &Audited) -> Chunk
    ensures value { result ≡ counts_text told.now }
{
    let mut line = Chunk::new();
    line.push(b"keys ");
    line.push_decimal(told.keys());
    line.push(b" used ");
    line.push_decimal(told.used());
    line.push(b" words ");
    line.push_decimal(told.words());
    line.push(b"\n");
    line
}

/// Returns the word for a flaw; for a row its place follows.
fn flaw_words(flaw: Flaw) -> Chunk
    ensures value { result ≡ flaw_word flaw }
    ensures short { length result ≤ 24 }
{
    let mut words = Chunk::new();
    match flaw {
        Flaw::Magic => words.push(b"magic"),
        Flaw::Short => words.push(b"short"),
        Flaw::Size => words.push(b"size"),
        Flaw::Used => words.push(b"used"),
        Flaw::Long => words.push(b"long"),
        Flaw::Anchor => words.push(b"anchor"),
        Flaw::Row { place } => {
            words.push(b"row ");
            words.push_decimal(place);
        }
    }
    words
}

/// Returns the line that names a flaw.
fn flaw_line(flaw: Flaw) -> Chunk
    ensures value { result ≡ flaw_text flaw }
{
    let mut line = Chunk::new();
    line.push(b"! dump ");
    line.push(flaw_words(flaw).as_slice());
    line.push(b"\n");
    line
}

/// Writes the answer to a question about a dump.
pub(crate) fn write_answer<O: Sink>(
    out: &mut O,
    question: Question,
    told: &Audited,
) -> Result<(), SinkFault>
    ensures printed { OnOk result (Appends (O.written out.old) (O.written out.new)
        (said question told.now)) }
    ensures failed { result ≡ Err SinkFault.Failed →
        HaveRisen (O.faults out.old) (O.faults out.new) }
    ensures part { OnErr result (AppendsPart (O.written out.old) (O.written out.new)
        (said question told.now)) }
    ensures counted { O.faults out.old ≤ O.faults out.new }
{
    match question {
        Question::Counts => write_whole(out, counts_line(told).as_slice()),
        Question::Between { first, last } => {
            print_pairs(out, Version::One, told.list(first, last))
        },
    }
}

/// Writes the line that names a flaw.
pub(crate) fn write_flaw<O: Sink>(out: &mut O, flaw: Flaw) -> Result<(), SinkFault>
    ensures printed { OnOk result (Appends (O.written out.old) (O.written out.new)
        (flaw_text flaw)) }
    ensures failed { result ≡ Err SinkFault.Failed →
        HaveRisen (O.faults out.old) (O.faults out.new) }
    ensures part { OnErr result (AppendsPart (O.written out.old) (O.written out.new)
        (flaw_text flaw)) }
    ensures counted { O.faults out.old ≤ O.faults out.new }
{
    write_whole(out, flaw_line(flaw).as_slice())
}
