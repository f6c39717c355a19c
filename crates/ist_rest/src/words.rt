//! Words that are read by their places.
ghost use Rattle.std.specs.Prelude.{◌≡◌, ℕ, ◌<◌, ◌^◌, List, length};
ghost use Rattle.ist_rest.specs.WordRows.{word_at};

/// Words that are read by their places: the words of a list, or of a table that was closed.
pub trait WordList {
    ghost list: { Self → List ℕ };

    /// Returns the word at a place.
    fn word(&self, place: u64) -> u64
        requires within { place < length (list self.now) }
        ensures value { result ≡ word_at (list self.now) place };

    /// Each word is below 2^64. Costs nothing.
    fn know_fit(&self)
        ensures fit { (place : ℕ) → word_at (list self.now) place < 2 ^ 64 };
}

impl WordList for Vec<u64> {
    ghost list = { λ words. words.items };

    fn word(&self, place: u64) -> u64 {
        self[place as usize]
    }

    fn know_fit(&self) {}
}
