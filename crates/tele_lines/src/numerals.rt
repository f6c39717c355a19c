//! The numbers of a line, and how signed ones are kept.
ghost use Rattle.std.specs.Prelude.{◌≡◌};
ghost use Rattle.tele_lines.specs.Numerals.{numeral_value, kept_value, number_in, signed_of};

use crate::items::Version;

/// By how much a kept number exceeds the signed number that it encodes.
const SHIFT: u64 = 1 << 63;

/// Returns the kept number for a signed one: greater by 2^63, which preserves the order.
pub fn shifted(z: i64) -> u64
    ensures value { signed_of result ≡ z }
{
    if z >= 0 {
        SHIFT + z as u64
    } else {
        SHIFT - 1 - (-(z + 1)) as u64
    }
}

/// Returns the signed number that a kept one encodes.
pub fn signed(kept: u64) -> i64
    ensures value { result ≡ signed_of kept }
{
    if kept >= SHIFT {
        (kept - SHIFT) as i64
    } else {
        -((SHIFT - 1 - kept) as i64) - 1
    }
}

/// Reads bytes as a number: one or more ASCII digits, and nothing else, with a value below 2^64.
/// Returns `None` for any other bytes.
pub fn number(bytes: &[u8]) -> Option<u64>
    ensures value { result ≡ numeral_value bytes.now }
{
    if bytes.is_empty() {
        return None;
    }
    let mut value: u64 = 0;
    for &byte in bytes {
        if !byte.is_ascii_digit() {
            return None;
        }
        let digit = u64::from(byte - b'0');
        value = value.checked_mul(10)?.checked_add(digit)?;
    }
    Some(value)
}

/// Reads a signed numeral, a minus and digits or only digits, as a kept number.
fn kept(bytes: &[u8]) -> Option<u64>
    ensures value { result ≡ kept_value bytes.now }
{
    match bytes.strip_prefix(b"-") {
        Some(digits) => match number(digits) {
            Some(value) if value <= SHIFT => Some(SHIFT - value),
            _ => None,
        },
        None => match number(bytes) {
            Some(value) if value < SHIFT => Some(SHIFT + value),
            _ => None,
        },
    }
}

/// Reads a word as a number of a version, in the form in which it is kept.
pub(crate) fn read_number(version: Version, word: &[u8]) -> Option<u64>
    ensures value { result ≡ number_in version word.now }
{
    match version {
        Version::One => number(word),
        Version::Two => kept(word),
    }
}
