//! Whether the words of a table are in bounds, before any row is read.
ghost use Rattle.std.specs.Prelude.{◌≡◌, ◌↔◌, length, IsTrue};
ghost use Rattle.ist_rest.specs.RestingWords.{HasGoodBounds};

use crate::words::WordList;
use ist_layout::{ANCHOR_STATUS_PLACE, FIRST_ROW, NEXT_PLACE, PLACE_LIMIT};

/// Returns whether a table may have this many words, the first free word is in range, the anchor is
/// open, and all words that aren't reserved are 0.
pub fn are_in_bounds<W: WordList>(words: &W, count: u64) -> bool
    requires count { count ≡ length (W.list words.now) }
    ensures exact { IsTrue result ↔ HasGoodBounds (W.list words.now) }
{
    if count < u64::from(FIRST_ROW) || PLACE_LIMIT < count {
        return false;
    }
    let next = words.word(NEXT_PLACE);
    if next < u64::from(FIRST_ROW) || count < next || words.word(ANCHOR_STATUS_PLACE) != 0 {
        return false;
    }
    for place in next..count {
        if words.word(place) != 0 {
            return false;
        }
    }
    true
}
