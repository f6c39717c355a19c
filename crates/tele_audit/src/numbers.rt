//! Numbers as eight bytes, lowest byte first.
ghost use Rattle.std.specs.Prelude.{◌≡◌, ◌+◌, ◌≤◌, length, drop};
ghost use Rattle.tele_audit.specs.Flaws.{number_encoded};
ghost use Rattle.tele_audit.specs.Taking.{AreBytes};

/// Reads the number that the eight bytes from `from` on encode.
#[tactic(auto, unfolding(crate::specs::Flaws::number_encoded))]
pub(crate) fn number_at(bytes: &[u8], from: usize) -> u64
    requires within { from + 8 ≤ length bytes.now }
    ensures value { result ≡ number_encoded (drop from bytes.now) }
{
    let mut eight = [0u8; 8];
    eight.copy_from_slice(&bytes[from..from + 8]);
    u64::from_le_bytes(eight)
}

/// Each element is a byte. Costs nothing.
pub(crate) fn know_bytes(bytes: &[u8])
    ensures bytes { AreBytes bytes.now }
{}
