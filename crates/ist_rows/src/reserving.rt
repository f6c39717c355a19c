//! Reserving a row for a caller.
ghost use Rattle.std.specs.Prelude.{◌≡◌, ◌<◌, ◌^◌, [], ◌∷◌, IfSome, IfOk, IfErr, Ok};
ghost use Rattle.ist_core.specs.RowLayout.{inner_words, place_limit};
ghost use Rattle.ist_core.specs.declared.events.Who.TheVariants.{Caller as CallerOf};
ghost use Rattle.ist_rule.specs.Faces.{word_count_of};
ghost use Rattle.ist_rows.specs.Rows.{spares_of, row_of, IsCaller, IsAtTable, Reserved, IsFull, IsFreshRow, IsKindRefused};
ghost use Rattle.ist_rows.specs.Building.{IsNext, HasTaken, HasRefused};
ghost use Rattle.ist_rows.specs.Fairly.{MayTake};

use crate::callers::Caller;
use crate::kinds::Kind;
use ist_core::Full;
use ist_layout::{NEXT_PLACE, inner_words};
use ist_rule::{TreeTable, TreeToken, exchange, know, load, word_count};

// Takes a fresh row from the front of the free words. Each further turn met another caller's
// Reserve, so fewer words are free than before.
fn take(table: &TreeTable, token: &mut TreeToken, number: u32, size: u64) -> Result<u32, Full>
    requires same_table { token.old.view.table ≡ table.now.table }
    requires caller { token.old.view.who ≡ CallerOf number }
    requires fair { MayTake token.old.view number size }
    requires small { size < 2 ^ 32 }
    ensures reserved { IfOk result (λ base.
        Reserved token.old.view number base size token.new.view) }
    ensures full { IfErr result (λ full.
        IsFull token.old.view (word_count_of table.now) size full token.new.view) }
{
    let words = word_count(table);
    know(token);
    // No event. Meets another caller's Reserve.
    let mut next = load(table, token, NEXT_PLACE);
    'turns: loop {
        if next + size > words {
            return Err(Full {
                next,
                asked: size,
                words,
            });
        }
        // Reserve. Meets another caller's: the next turn tries the word that this one left.
        let found = exchange(table, token, NEXT_PLACE, next, next + size);
        if found == next {
            return Ok(next as u32);
        }
        next = found;
    }
}

/// Returns the row of this kind that the caller holds, or a fresh one, which it then holds.
///
/// If the caller holds a row of this kind, no word changes. A fresh row has the words of its kind
/// and is taken from the front of the free words. If a load of the first word in this call gave
/// `next` with `next + asked > words`, it returns `Full` and reserves nothing. Retries while others
/// reserve, and always returns.
pub fn reserve(table: &TreeTable, who: &mut Caller, kind: Kind) -> Result<u32, Full>
    requires caller { IsAtTable table.now IsCaller who.old }
    ensures caller { IsAtTable table.now IsCaller who.new }
    ensures number { who.new.number ≡ who.old.number }
    ensures held { IfSome (row_of kind (spares_of who.old)) (λ base.
        (result ≡ Ok base) × (who.new ≡ who.old)) }
    ensures reserved { IsFreshRow kind who.old who.new result }
    ensures full { IfErr result (λ full.
        IsKindRefused (word_count_of table.now) kind who.old who.new full) }
{
    if let Some(base) = who.row(kind) {
        return Ok(base);
    }
    know(&who.token);
    let base = take(table, &mut who.token, who.number, kind.words())?;
    who.hold(kind, base);
    Ok(base)
}

/// Reserves a fresh inner row of this degree, which is the next of the build that the caller is in.
///
/// If a load of the first word in this call gave `next` with `next + asked > words`, it returns
/// `Full`. The build is then refused: nothing is reserved, and the rows that it has stay held.
/// Retries while others reserve, and always returns.
pub fn reserve_inner(table: &TreeTable, who: &mut Caller, degree: u64) -> Result<u32, Full>
    requires caller { IsAtTable table.now IsCaller who.old }
    requires next { IsNext who.old (inner_words degree) }
    requires small { degree < place_limit }
    ensures caller { IsCaller who.new }
    ensures number { who.new.number ≡ who.old.number }
    ensures rows { spares_of who.new ≡ spares_of who.old }
    ensures reserved { IfOk result (λ base.
        Reserved who.old.token.view who.old.number base (inner_words degree) who.new.token.view) }
    ensures taken { IfOk result (λ base. HasTaken who.old (inner_words degree ∷ []) who.new) }
    ensures full { IfErr result (λ full. let asked = inner_words degree in
        IsFull who.old.token.view (word_count_of table.now) asked full who.new.token.view) }
    ensures refused { IfErr result (λ full. HasRefused who.new) }
{
    know(&who.token);
    take(table, &mut who.token, who.number, inner_words(degree))
}
