//! Bytes that are taken from a source.
ghost use Rattle.std.specs.Prelude.{◌≡◌, ◌≤◌, Err, OnOk, IfSome};
ghost use Rattle.tele_io.specs.Bytes.{HaveRisen};
ghost use Rattle.tele_audit.specs.declared.flaws.Flaw.{Flaw};
ghost use Rattle.tele_audit.specs.Taking.{TakesBytes, AreEnough, Extends};

use crate::flaws::AuditFault;
use tele_io::{Failed, Source};

/// How many bytes are read at once.
const PIECE: usize = 4096;

/// Takes bytes from the source, and appends them to those that were taken, until there are `count`
/// or the source has no more. Memory grows only with what the source gave.
pub(crate) fn take_bytes<S: Source>(
    source: &mut S,
    taken: &mut Vec<u8>,
    count: u64,
) -> Result<(), AuditFault>
    ensures takes { OnOk result
        (TakesBytes (S.left source.old) (S.left source.new) taken.old.items taken.new.items) }
    ensures enough { OnOk result (IfSome (S.left source.old)
        (λ _. AreEnough (S.left source.new) count taken.new.items)) }
    ensures extends { OnOk result (Extends taken.old.items taken.new.items) }
    ensures failed { result ≡ Err AuditFault.Read →
        HaveRisen (S.faults source.old) (S.faults source.new) }
    ensures plain { (flaw : Flaw) → result ≡ Err (AuditFault.Bad flaw) → ⊥ }
    ensures counted { S.faults source.old ≤ S.faults source.new }
{
    let mut piece = [0u8; PIECE];
    while (taken.len() as u64) < count {
        let given = match source.read(&mut piece) {
            Ok(given) => given,
            Err(Failed) => return Err(AuditFault::Read),
        };
        if given == 0 {
            break;
        }
        if taken.extend_from_slice(&piece[..given]).is_err() {
            return Err(AuditFault::Memory);
        }
    }
    Ok(())
}
