//! The words of a tree after its last call.
ghost use Rattle.std.specs.Prelude.{◌≡◌, ◌↔◌, ℕ, List, length, IfOk, IsTrue};
ghost use Rattle.std.specs.Mem.Slots.{slots_items, slots_len, IsFull};
ghost use Rattle.ist_core.specs.declared.pairs.Pair.{Pair};
ghost use Rattle.ist_core.specs.Lawful.{state_of};
ghost use Rattle.ist_core.specs.Map.{pairs_of, listed};
ghost use Rattle.ist_core.specs.Replies.{Answered};
ghost use Rattle.ist_core.specs.Resting.{StandsFor, IsSettled};
ghost use Rattle.ist_core.specs.RowLayout.{next_place};
ghost use Rattle.ist_core.specs.Spending.{spent};
ghost use Rattle.laws_histories.specs.Telling.{map_now};
ghost use Rattle.ist_rest.specs.RestingWords.{HoldPairs, AreListed};
ghost use Rattle.ist_rest.specs.WordRows.{word_at};
ghost use Rattle.ist_rest.specs.Settling.{AreSettled};
ghost use Rattle.ist_rest.specs.Standings.{Stands};

use crate::listing::{all_words, list_words};
use crate::settling::are_settled;
use crate::words::WordList;
use atomic_table::Closed as Kept;
use ist_core::Pair;
use ist_layout::NEXT_PLACE;
use std::alloc::{AllocError, Global};
use std::marker::Model;

/// The words of a tree after its last call, in the memory of its table itself.
///
/// Clauses see the list of the words. They represent some start pairs and some lists of calls.
pub struct Closed {
    kept: Kept<(), Global>,
}

impl Model for Closed {
    ghost use Rattle.std.specs.Prelude.{◌≡◌, ℕ, List};
    ghost use Rattle.std.specs.Mem.Slots.{slots_items, slots_len, IsFull};
    ghost use Rattle.ist_rest.specs.Standings.{Stands};

    ghost Value = { List ℕ };

    ghost view = { λ c. slots_items c.kept.words };

    ghost invariant = { λ c. IsFull c.kept.words × (slots_len c.kept.slots ≡ 0)
        × Stands (slots_items c.kept.words) };
}

impl Drop for Closed {
    fn drop(self) {
        let Closed { kept } = self;
        kept.free();
    }
}

impl WordList for Closed {
    ghost list = { λ words. words };

    fn word(&self, place: u64) -> u64 {
        *self.kept.words.get(place as usize)
    }

    fn know_fit(&self) {
        for place in 0..self.word_count() {
            let _word = self.word(place);
        }
    }
}

impl Closed {
    /// Makes the closed tree with these words. None of them is copied.
    pub fn new(kept: Kept<(), Global>) -> Closed
        requires full { IsFull kept.words }
        requires no_slots { slots_len kept.slots ≡ 0 }
        requires stands { Stands (slots_items kept.words) }
        ensures value { result ≡ slots_items kept.words }
    {
        Closed { kept }
    }

    /// Returns the pairs with a key from `first` to `last`, both included, in increasing order of
    /// keys. There are none if `first` is above `last`.
    ///
    /// It reads only rows that keys of the interval lead to. Fails only if memory runs out.
    pub fn list(&self, alloc: Global, first: u64, last: u64) -> Result<Vec<Pair>, AllocError>
        ensures listed { IfOk result (λ found. AreListed self.now first last found.items) }
        ensures of_map { IfOk result (λ found. (pairs : List Pair) (told : List (List Answered))
            (s : StandsFor self.now pairs told)
            → found.items ≡ listed first last (map_now pairs (length self.now) s.log)) }
    {
        self.know();
        list_words(alloc, self, first, last)
    }

    /// Returns all pairs, in increasing order of keys. Fails only if memory runs out.
    pub fn pairs(&self, alloc: Global) -> Result<Vec<Pair>, AllocError>
        ensures held { IfOk result (λ found. HoldPairs self.now found.items) }
        ensures of_map { IfOk result (λ found. (pairs : List Pair) (told : List (List Answered))
            (s : StandsFor self.now pairs told)
            → found.items ≡ pairs_of (map_now pairs (length self.now) s.log)) }
    {
        self.know();
        all_words(alloc, self)
    }

    /// Returns the number of used words: the place of the first that isn't reserved.
    pub fn used(&self) -> u64
        ensures value { result ≡ word_at self.now next_place }
        ensures spent { (pairs : List Pair) (told : List (List Answered))
            (s : StandsFor self.now pairs told) → result ≡ spent pairs s.log }
    {
        self.know();
        self.word(NEXT_PLACE)
    }

    /// Returns the number of words. `word` of `WordList` returns each of them.
    pub fn word_count(&self) -> u64
        ensures value { result ≡ length self.now }
    {
        self.kept.words.len() as u64
    }

    /// States that the words represent some pairs and calls. Costs nothing.
    pub fn know(&self)
        ensures stands { Stands self.now }
    {
        let _ = &self.kept;
    }

    /// Returns whether each linked inner row is open, with a count below its limit.
    pub fn settled(&self) -> bool
        ensures of_words { IsTrue result ↔ AreSettled self.now }
        ensures exact { (pairs : List Pair) (told : List (List Answered))
            (s : StandsFor self.now pairs told)
            → (IsTrue result ↔ IsSettled (state_of pairs (length self.now) s.log)) }
    {
        self.know();
        are_settled(self)
    }
}
