//! Writing a whole piece.
ghost use Rattle.std.specs.Prelude.{◌≡◌, ◌≤◌, [], length, take, OnOk, OnErr, IsOk, IsErrOf};
ghost use Rattle.tele_io.specs.Bytes.{HaveRisen, Appends, AppendsPart};

use super::sinks::{Sink, SinkFault};

/// Writes all bytes of a piece, by as many writes as the sink needs. An empty piece needs none.
///
/// At the first error it stops and returns the error. The bytes that were taken before are a prefix
/// of the piece, and stay taken.
pub fn write_whole<O: Sink>(out: &mut O, bytes: &[u8]) -> Result<(), SinkFault>
    ensures whole { OnOk result (Appends (O.written out.old) (O.written out.new) bytes.now) }

    ensures failed { IsErrOf result SinkFault.Failed
        → HaveRisen (O.faults out.old) (O.faults out.new) }
    ensures part { OnErr result (AppendsPart (O.written out.old) (O.written out.new) bytes.now) }

    ensures counted { O.faults out.old ≤ O.faults out.new }
    ensures idle { bytes.now ≡ [] → IsOk result × (out.new ≡ out.old) }
{
    let (_, written) = write_out(out, bytes);
    written
}

/// Writes bytes until all are taken or the sink returns an error. Returns how many were taken.
#[tactic(auto, using(crate::proofs::AppendsLemmas::appends))]
pub(crate) fn write_out<O: Sink>(out: &mut O, bytes: &[u8]) -> (usize, Result<(), SinkFault>)
    ensures within { result.0 ≤ length bytes.now }
    ensures all { OnOk result.1 (result.0 ≡ length bytes.now) }
    ensures taken { Appends (O.written out.old) (O.written out.new) (take result.0 bytes.now) }

    ensures failed { IsErrOf result.1 SinkFault.Failed
        → HaveRisen (O.faults out.old) (O.faults out.new) }

    ensures counted { O.faults out.old ≤ O.faults out.new }
    ensures idle { bytes.now ≡ [] → IsOk result.1 × (out.new ≡ out.old) }
{
    let mut taken = 0;
    while taken < bytes.len() {
        match out.write(&bytes[taken..]) {
            Ok(n) => taken += n,
            Err(fault) => return (taken, Err(fault)),
        }
    }
    (taken, Ok(()))
}
