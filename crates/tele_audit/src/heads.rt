//! What is wrong with a dump before any row is read.
ghost use Rattle.std.specs.Prelude.{◌≡◌, ◌≤◌, ◌^◌};
ghost use Rattle.tele_audit.specs.Flaws.{head_flaw, length_flaw, used_told};

use crate::flaws::Flaw;
use crate::numbers::number_at;
use ist_layout::{FIRST_ROW, PLACE_LIMIT};

/// The bytes that a dump begins with.
pub(crate) const MAGIC: &[u8] = b"CISTDUMP";

/// The length in bytes of the head: the magic bytes, the number of words and the number of used
/// words.
pub(crate) const HEAD: u64 = 24;

/// Returns what is wrong with the first numbers, if anything is.
pub(crate) fn head_flaw(bytes: &[u8]) -> Option<Flaw>
    ensures value { result ≡ head_flaw bytes.now }
{
    if !bytes.starts_with(b"CISTDUMP") {
        return Some(Flaw::Magic);
    }
    if bytes.len() < 16 {
        return Some(Flaw::Short);
    }
    let count = number_at(bytes, 8);
    if count < u64::from(FIRST_ROW) || PLACE_LIMIT < count {
        return Some(Flaw::Size);
    }
    if bytes.len() < 24 {
        return Some(Flaw::Short);
    }
    let used = number_at(bytes, 16);
    if used < u64::from(FIRST_ROW) || count < used {
        return Some(Flaw::Used);
    }
    None
}

/// Returns what is wrong with the number of bytes, if anything is.
pub(crate) fn length_flaw(bytes: &[u8], used: u64) -> Option<Flaw>
    requires used { used ≡ used_told bytes.now }
    requires few { used ≤ 2 ^ 28 }
    ensures value { result ≡ length_flaw bytes.now }
{
    let whole = 16 + 8 * used;
    if (bytes.len() as u64) < whole {
        return Some(Flaw::Short);
    }
    if whole < bytes.len() as u64 {
        return Some(Flaw::Long);
    }
    None
}
