//! The audit of dumps.
ghost use Rattle.std.specs.Prelude.{◌≡◌, ◌≤◌, Err, None, Some, IfOk, IfSome, OnOk, [], ◌++◌, length};
ghost use Rattle.ist_core.specs.Map.{pairs_between};
ghost use Rattle.tele_io.specs.Bytes.{HaveRisen};
ghost use Rattle.tele_audit.specs.Dumps.{IsLawfulDump};
ghost use Rattle.tele_audit.specs.Flaws.{IsFirstFlaw, head_flaw, length_flaw};

use crate::auditing::audit_words;
use crate::flaws::{AuditFault, Flaw};
use crate::heads::{HEAD, head_flaw, length_flaw};
use crate::numbers::{know_bytes, number_at};
use crate::tables::DumpWords;
use crate::taking::take_bytes;
use crate::word_laws::zeros_change_nothing;
use ist_core::Pair;
use ist_layout::ANCHOR_STATUS_PLACE;
use ist_rest::WordList;
use plain_map::Plain;
use std::alloc::{AllocError, Global};
use std::marker::Model;
use tele_io::Source;

/// What an audit reports of a dump of lawful words.
///
/// Clauses see the number of words of the table, the number of used words, and the pairs, with
/// strictly increasing keys.
#[derive(Drop)]
pub struct Audited {
    words: u64,
    used: u64,
    pairs: Plain,
}

impl Model for Audited {
    ghost use Rattle.tele_audit.specs.Dumps.{DumpContent};

    ghost Value = { DumpContent };

    ghost view = { λ a. record { words = a.words; used = a.used; pairs = a.pairs } };
}

impl Audited {
    /// Returns the pairs with a key from `first` to `last`, both included, in increasing order of
    /// keys. There are none if `first` is above `last`.
    pub fn list(&self, first: u64, last: u64) -> &[Pair]
        ensures between { result.now ≡ pairs_between first last self.now.pairs }
    {
        self.pairs.list(first, last)
    }

    /// Returns the number of keys.
    pub fn keys(&self) -> u64
        ensures value { result ≡ length self.now.pairs }
    {
        self.pairs.pairs().len() as u64
    }

    /// Returns the number of used words.
    pub fn used(&self) -> u64
        ensures value { result ≡ self.now.used }
    {
        self.used
    }

    /// Returns the number of words of the table.
    pub fn words(&self) -> u64
        ensures value { result ≡ self.now.words }
    {
        self.words
    }
}

/// Audits the dump that the source gives. `Ok` means that its bytes, up to its end, are a dump of
/// words that are lawful at rest.
///
/// The bytes may come from anywhere. Memory grows only with the bytes that were taken, and the walk
/// over the rows keeps its own list, so a deep tree needs no deep stack. `Bad` names the first flaw
/// in the order in which a dump is read. `Read` is returned only if the source failed in this call,
/// `Memory` only if memory ran out.
pub fn audit<S: Source>(alloc: Global, source: &mut S) -> Result<Audited, AuditFault>
    ensures lawful { IfOk result (λ audited.
        IfSome (S.left source.old) (λ bytes. IsLawfulDump bytes audited)) }
    ensures whole { OnOk result (IfSome (S.left source.old) (λ _. S.left source.new ≡ Some [])) }
    ensures flaw { (flaw : _) → result ≡ Err (AuditFault.Bad flaw) →
        IfSome (S.left source.old) (λ bytes. IsFirstFlaw bytes flaw) }
    ensures failed { result ≡ Err AuditFault.Read →
        HaveRisen (S.faults source.old) (S.faults source.new) }
    ensures counted { S.faults source.old ≤ S.faults source.new }
{
    let mut bytes = Vec::new(alloc);
    take_bytes(source, &mut bytes, HEAD)?;
    match head_flaw(bytes.as_slice()) {
        Some(flaw) => Err(AuditFault::Bad(flaw)),
        None => audit_rest(alloc, source, bytes),
    }
}

/// Continues an audit after these bytes were taken. Their first numbers are valid.
fn audit_rest<S: Source>(
    alloc: Global,
    source: &mut S,
    bytes: Vec<u8>,
) -> Result<Audited, AuditFault>
    requires head { head_flaw bytes.items ≡ None }
    ensures lawful { IfOk result (λ audited. IfSome (S.left source.old)
        (λ left. IsLawfulDump (bytes.items ++ left) audited)) }
    ensures whole { OnOk result (IfSome (S.left source.old) (λ _. S.left source.new ≡ Some [])) }
    ensures flaw { (flaw : _) → result ≡ Err (AuditFault.Bad flaw) →
        IfSome (S.left source.old) (λ left. IsFirstFlaw (bytes.items ++ left) flaw) }
    ensures failed { result ≡ Err AuditFault.Read →
        HaveRisen (S.faults source.old) (S.faults source.new) }
    ensures counted { S.faults source.old ≤ S.faults source.new }
{
    let mut taken = bytes;
    let used = number_at(taken.as_slice(), 16);
    take_bytes(source, &mut taken, 16 + 8 * used + 1)?;
    match length_flaw(taken.as_slice(), used) {
        Some(flaw) => Err(AuditFault::Bad(flaw)),
        None => audit_bytes(alloc, taken),
    }
}

/// Audits the bytes of a dump whose first numbers and whose length are valid.
fn audit_bytes(alloc: Global, bytes: Vec<u8>) -> Result<Audited, AuditFault>
    requires head { head_flaw bytes.items ≡ None }
    requires whole { length_flaw bytes.items ≡ None }
    ensures lawful { IfOk result (IsLawfulDump bytes.items) }
    ensures flaw { (flaw : _) → result ≡ Err (AuditFault.Bad flaw) → IsFirstFlaw bytes.items flaw }
    ensures plain { result ≡ Err AuditFault.Read → ⊥ }
{
    let count = number_at(bytes.as_slice(), 8);
    let used = number_at(bytes.as_slice(), 16);
    know_bytes(bytes.as_slice());
    zeros_change_nothing();
    let words = DumpWords::of(bytes, used);
    words.know_fit();
    if words.word(ANCHOR_STATUS_PLACE) != 0 {
        return Err(AuditFault::Bad(Flaw::Anchor));
    }
    match audit_words(alloc, &words) {
        Ok(Ok(pairs)) => Ok(Audited {
            words: count,
            used,
            pairs: Plain::of(pairs),
        }),
        Ok(Err(place)) => Err(AuditFault::Bad(Flaw::Row { place })),
        Err(AllocError) => Err(AuditFault::Memory),
    }
}
