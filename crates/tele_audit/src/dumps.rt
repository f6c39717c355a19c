//! The dump of a closed table.
ghost use Rattle.std.specs.Prelude.{◌≡◌, ◌≤◌, OnOk, OnErr, IsErrOf, length};
ghost use Rattle.tele_io.specs.Bytes.{HaveRisen, Appends, AppendsPart};
ghost use Rattle.tele_audit.specs.Dumps.{dump_of, AreLawfulWords};

use crate::pieces::{Chunk, make_room};
use ist_layout::NEXT_PLACE;
use ist_rest::laws::standing_words_hold_the_map;
use ist_rest::{Closed, WordList};
use tele_io::{Sink, SinkFault, write_whole};

/// Writes the dump of a closed table: eight bytes that identify a dump, the number of words of the
/// table, and the used words, each number as eight bytes.
///
/// It allocates nothing of its own. On an error, which is the sink's, a prefix of the dump was
/// written. The words of a closed table are lawful at rest, so an audit accepts each complete dump.
pub fn dump<O: Sink>(closed: &Closed, out: &mut O) -> Result<(), SinkFault>
    ensures lawful { AreLawfulWords closed.now }
    ensures whole { OnOk result
        (Appends (O.written out.old) (O.written out.new) (dump_of closed.now)) }
    ensures failed { IsErrOf result SinkFault.Failed
        → HaveRisen (O.faults out.old) (O.faults out.new) }
    ensures part { OnErr result
        (AppendsPart (O.written out.old) (O.written out.new) (dump_of closed.now)) }
    ensures counted { O.faults out.old ≤ O.faults out.new }
{
    know_lawful(closed);
    write_dump(closed, closed.word_count(), out)
}

/// The words of a closed table are lawful at rest. Costs nothing.
fn know_lawful(closed: &Closed)
    ensures lawful { AreLawfulWords closed.now }
{
    standing_words_hold_the_map();
    closed.know();
}

/// Writes the dump of `count` lawful words.
pub(crate) fn write_dump<W: WordList, O: Sink>(
    words: &W,
    count: u64,
    out: &mut O,
) -> Result<(), SinkFault>
    requires count { count ≡ length (W.list words.now) }
    requires lawful { AreLawfulWords (W.list words.now) }
    ensures whole { OnOk result
        (Appends (O.written out.old) (O.written out.new) (dump_of (W.list words.now))) }
    ensures failed { IsErrOf result SinkFault.Failed
        → HaveRisen (O.faults out.old) (O.faults out.new) }
    ensures part { OnErr result
        (AppendsPart (O.written out.old) (O.written out.new) (dump_of (W.list words.now))) }
    ensures counted { O.faults out.old ≤ O.faults out.new }
{
    let mut piece = Chunk::new();
    piece.push(b"CISTDUMP");
    piece.push_number(count);
    let used = words.word(NEXT_PLACE);
    for place in 0..used {
        make_room(&mut piece, out)?;
        piece.push_number(words.word(place));
    }
    write_whole(out, piece.as_slice())
}
