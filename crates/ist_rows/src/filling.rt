//! Filling the rows that a caller holds.
ghost use Rattle.std.specs.Prelude.{◌≡◌, ◌+◌, ◌≤◌, length, Some};
ghost use Rattle.ist_rule.specs.Learning.{storing};
ghost use Rattle.ist_rows.specs.Filling.{filled_with};
ghost use Rattle.ist_rows.specs.Kinds.{kind_words};
ghost use Rattle.ist_rows.specs.Rows.{HoldsPlace, IsCaller, IsAtTable, row_of, spares_of};

use crate::callers::Caller;
use crate::kinds::Kind;
use ist_rule::{TreeTable, know, store};

/// Stores a word into a row that the caller holds, `at` places after its base.
pub fn fill(table: &TreeTable, who: &mut Caller, base: u32, at: u64, word: u64)
    requires caller { IsAtTable table.now IsCaller who.old }
    requires held { HoldsPlace who.old base at }
    ensures caller { IsCaller who.new }
    ensures stored { let view = storing who.old.token.view (base + at) word in
        who.new ≡ record who.old { token = record who.old.token { view = view } } }
{
    know(&who.token);
    // No event. Meets no other's step: only the row's caller uses it.
    store(table, &mut who.token, u64::from(base) + at, word);
}

/// Stores the words into the row of this kind that the caller holds, from its base on. Nothing else
/// of the caller changes.
pub fn fill_row(table: &TreeTable, who: &mut Caller, kind: Kind, base: u32, words: &[u64])
    requires caller { IsAtTable table.now IsCaller who.old }
    requires row { row_of kind (spares_of who.old) ≡ Some base }
    requires within { length words.now ≤ kind_words kind }
    ensures caller { IsCaller who.new }
    ensures stored { who.new ≡ filled_with who.old base words.now }
{
    let mut at = 0;
    for word in words {
        fill(table, who, base, at, *word);
        at += 1;
    }
}
