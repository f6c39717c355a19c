//! The words of a table, read from the bytes of its dump.
ghost use Rattle.std.specs.Prelude.{◌≡◌, ◌≤◌, ◌^◌, length, drop};
ghost use Rattle.tele_audit.specs.Flaws.{numbers_in, dump_length};

use crate::numbers::number_at;
use ist_rest::WordList;
use std::marker::Model;

/// The used words of a table, read in place from the bytes of its dump.
///
/// Clauses see the list of these words.
#[derive(Drop)]
pub(crate) struct DumpWords {
    bytes: Vec<u8>,
    used: u64,
}

impl Model for DumpWords {
    ghost use Rattle.std.specs.Prelude.{◌≡◌, ℕ, ◌≤◌, ◌^◌, List, drop, vec_len};
    ghost use Rattle.tele_audit.specs.Flaws.{numbers_in, dump_length};

    ghost Value = { List ℕ };

    ghost view = { λ d. numbers_in d.used (drop 16 d.bytes.items) };

    ghost invariant = { λ d. (vec_len d.bytes ≡ dump_length d.used) × (d.used ≤ 2 ^ 28) };
}

impl DumpWords {
    /// Makes the word list over these bytes of a dump with `used` used words.
    pub(crate) fn of(bytes: Vec<u8>, used: u64) -> DumpWords
        requires whole { length bytes.items ≡ dump_length used }
        requires few { used ≤ 2 ^ 28 }
        ensures value { result ≡ numbers_in used (drop 16 bytes.items) }
    {
        DumpWords { bytes, used }
    }
}

impl WordList for DumpWords {
    ghost list = { λ words. words };

    fn word(&self, place: u64) -> u64 {
        number_at(&self.bytes, (16 + 8 * place) as usize)
    }

    fn know_fit(&self) {
        for place in 0..self.used {
            let _word = self.word(place);
        }
    }
}
