//! Builds the dump of a table from lines.
ghost use Rattle.std.specs.Prelude.{◌≡◌, ℕ, ◌+◌, ◌≤◌, ◌^◌, List, ◌∷◌, [], Some, Ok, Err, IfOk, IfSome, OnOk, OnErr};
ghost use Rattle.std.specs.FinMap as fin;
ghost use Rattle.ist_core.specs.Map.{map_of};
ghost use Rattle.tele_io.specs.Bytes.{HaveRisen, Appends, AppendsPart};
ghost use Rattle.tele_lines.specs.declared.items.Version.{Version};
ghost use Rattle.tele_lines.specs.Answer.{Read, Good};
ghost use Rattle.tele_audit.specs.declared.jobs.Job.TheVariants as job;
ghost use Rattle.tele_audit.specs.Dumps.{AreLawfulWords, dump_of};
ghost use Rattle.tele_audit.specs.Packing.{Holds, Refuses, after_lines, left_by, IsNewTable};
ghost use Rattle.tele_audit.specs.Runs.{Writes, WritesPart, IsWrittenWhole};

use crate::dumps::write_dump;
use crate::outcomes::{BAD_LINE, DONE, Halt, halted};
use ist_image::lay_image;
use ist_layout::FIRST_ROW;
use ist_math::ideal_words;
use ist_rest::WordList;
use ist_rest::laws::standing_words_hold_the_map;
use plain_map::Plain;
use std::alloc::{AllocError, Global};
use tele_io::{Sink, Source};
use tele_lines::{Cause, Item, LineFault, Lines, print_bad};

/// The most lines that an input may have.
const LINE_LIMIT: u64 = 16_777_216;

/// Why there is no map of the lines.
#[derive(Clone, Copy, Debug, PartialEq, Eq, Drop)]
enum Unpacked {
    /// The line with this number is bad.
    Bad { line: u64, cause: Cause },
    /// The source failed.
    Read,
    /// Memory ran out.
    Memory,
}

/// Applies a line to the map: a point line is carried out, an interval line changes nothing.
fn take(plain: &mut Plain, item: Item) -> Result<(), AllocError>
    ensures taken { OnOk result ((number : ℕ) (version : Version) (lines : List Read) →
        after_lines (map_of plain.old) (Good number version item ∷ lines)
        ≡ after_lines (map_of plain.new) lines) }
    ensures few { OnOk result (fin.len (map_of plain.new) ≤ fin.len (map_of plain.old) + 1) }
{
    match item {
        Item::Point(command) => match plain.apply(command) {
            Ok(_) => Ok(()),
            Err(AllocError) => Err(AllocError),
        },
        Item::Interval { .. } => Ok(()),
    }
}

/// Reads lines to the end of the source, and applies each to a map that starts empty.
fn gather<S: Source>(alloc: Global, source: &mut S) -> Result<Plain, Unpacked>
    ensures left { IfOk result (λ plain. IfSome (S.left source.old) (λ bytes.
        left_by bytes ≡ Holds (map_of plain))) }
    ensures whole { OnOk result (IfSome (S.left source.old) (λ _. S.left source.new ≡ Some [])) }
    ensures few { IfOk result (λ plain. fin.len (map_of plain) ≤ 2 ^ 24) }
    ensures bad { (line : ℕ) (cause : Cause) → result ≡ Err (Unpacked.Bad line cause) →
        IfSome (S.left source.old) (λ bytes. left_by bytes ≡ Refuses line cause) }
    ensures failed { result ≡ Err Unpacked.Read →
        HaveRisen (S.faults source.old) (S.faults source.new) }
    ensures counted { S.faults source.old ≤ S.faults source.new }
{
    let mut lines = Lines::new(LINE_LIMIT);
    let mut plain = Plain::new(alloc);
    loop {
        match lines.next(source) {
            Ok(Some(line)) => {
                if let Err(AllocError) = take(&mut plain, line.item) {
                    return Err(Unpacked::Memory);
                }
            }
            Ok(None) => return Ok(plain),
            Err(LineFault::Bad { line, cause }) => return Err(Unpacked::Bad { line, cause }),
            Err(LineFault::Read) => return Err(Unpacked::Read),
        }
    }
}

/// Makes the words of a new table of the pairs of a map, exactly as many as their ideal tree needs.
fn lay(alloc: Global, plain: &Plain) -> Result<Vec<u64>, AllocError>
    requires few { fin.len (map_of plain.now) ≤ 2 ^ 24 }
    ensures table { IfOk result (λ words. IsNewTable (map_of plain.now) words.items) }
    ensures lawful { IfOk result (λ words. AreLawfulWords words.items) }
{
    standing_words_hold_the_map();
    let pairs = plain.pairs();
    let count = u64::from(FIRST_ROW) + ideal_words(pairs.len() as u64);
    let words = lay_image(alloc, count, pairs)?;
    words.know_fit();
    Ok(words)
}

/// Writes the dump of lawful words.
fn write_table<O: Sink>(words: &Vec<u64>, out: &mut O) -> Result<u8, Halt>
    requires lawful { AreLawfulWords words.now.items }
    ensures status { IfOk result (λ status. status ≡ DONE) }
    ensures printed { OnOk result
        (Appends (O.written out.old) (O.written out.new) (dump_of words.now.items)) }
    ensures part { OnErr result
        (AppendsPart (O.written out.old) (O.written out.new) (dump_of words.now.items)) }
    ensures failed { result ≡ Err Halt.Write → HaveRisen (O.faults out.old) (O.faults out.new) }
    ensures wrote { result ≡ Err Halt.Read → ⊥ }
    ensures counted { O.faults out.old ≤ O.faults out.new }
{
    match write_dump(words, words.len() as u64, out) {
        Ok(()) => Ok(DONE),
        Err(fault) => Err(halted(fault)),
    }
}

/// Reads lines, and writes the dump of a new table of the pairs that their point lines leave. If a
/// line is bad, names the first bad line instead. `Ok` returns the status.
pub(crate) fn pack<S: Source, O: Sink>(
    alloc: Global,
    source: &mut S,
    out: &mut O,
) -> Result<u8, Halt>
    ensures text { IfOk result (λ status. IfSome (S.left source.old) (λ bytes.
        Writes job.Pack bytes (O.written out.old) (O.written out.new) status)) }
    ensures part { OnErr result (IfSome (S.left source.old) (λ bytes.
        WritesPart job.Pack bytes (O.written out.old) (O.written out.new))) }
    ensures statuses { IfOk result (IsWrittenWhole job.Pack) }
    ensures whole { result ≡ Ok DONE →
        IfSome (S.left source.old) (λ _. S.left source.new ≡ Some []) }
    ensures read_failed { result ≡ Err Halt.Read →
        HaveRisen (S.faults source.old) (S.faults source.new) }
    ensures unwritten { result ≡ Err Halt.Read → out.new ≡ out.old }
    ensures write_failed { result ≡ Err Halt.Write →
        HaveRisen (O.faults out.old) (O.faults out.new) }
    ensures source_counted { S.faults source.old ≤ S.faults source.new }
    ensures sink_counted { O.faults out.old ≤ O.faults out.new }
{
    match gather(alloc, source) {
        Ok(plain) => match lay(alloc, &plain) {
            Ok(words) => write_table(&words, out),
            Err(AllocError) => Err(Halt::Memory),
        },
        Err(Unpacked::Bad { line, cause }) => match print_bad(out, line, cause) {
            Ok(()) => Ok(BAD_LINE),
            Err(fault) => Err(halted(fault)),
        },
        Err(Unpacked::Read) => Err(Halt::Read),
        Err(Unpacked::Memory) => Err(Halt::Memory),
    }
}
