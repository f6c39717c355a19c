//! Reserving all rows of a build at one step.
ghost use Rattle.std.specs.Prelude.{◌≡◌, ◌<◌, ◌≤◌, ◌^◌, ℕ, List, length, None, IfSome};
ghost use Rattle.std.specs.List.{sum};
ghost use Rattle.ist_core.specs.declared.events.Who.TheVariants.{Caller as CallerOf};
ghost use Rattle.ist_rule.specs.Faces.{word_count_of};
ghost use Rattle.ist_rows.specs.Rows.{IsCaller, IsAtTable};
ghost use Rattle.ist_rows.specs.Building.{HasTaken};
ghost use Rattle.ist_rows.specs.Block.{AreNext, ReservedAll, HasNoRoom, MayTakeAll};

use crate::callers::Caller;
use ist_layout::NEXT_PLACE;
use ist_rule::{TreeTable, TreeToken, exchange_all, know, load, word_count};

// Takes fresh rows from the front of the free words, all at one step. Each further turn met another
// caller's Reserve, so fewer words are free than before.
fn take_all(table: &TreeTable, token: &mut TreeToken, number: u32, asked: u64) -> Option<u32>
    ghost sizes: { List ℕ }
    requires same_table { token.old.view.table ≡ table.now.table }
    requires caller { token.old.view.who ≡ CallerOf number }
    requires fair { MayTakeAll token.old.view number sizes }
    requires several { 1 ≤ length sizes }
    requires asked { asked ≡ sum sizes }
    requires small { asked < 2 ^ 32 }
    ensures reserved { IfSome result (λ base.
        ReservedAll token.old.view number base sizes token.new.view) }
    ensures none { result ≡ None →
        HasNoRoom token.old.view (word_count_of table.now) asked token.new.view }
{
    let words = word_count(table);
    know(token);
    // No event. Meets another caller's Reserve.
    let mut next = load(table, token, NEXT_PLACE);
    'turns: loop {
        if next + asked > words {
            return None;
        }
        // A Reserve for each size. Meets another caller's: the next turn tries the word that this
        // one left.
        let found = exchange_all(table, token, NEXT_PLACE, next, next + asked);
        if found == next {
            return Some(next as u32);
        }
        next = found;
    }
}

/// Reserves fresh rows of these sizes, one after another in memory, and returns the base of the
/// first.
///
/// They are the next rows of the build that the caller is in, and all of them are reserved at one
/// step. If a load of the first word in this call gave a `next` with `next + asked > words`, it
/// returns `None` and reserves nothing; the build isn't refused by that. Retries while others
/// reserve, allocates nothing, and always returns.
pub fn reserve_block(table: &TreeTable, who: &mut Caller, asked: u64) -> Option<u32>
    ghost sizes: { List ℕ }
    requires caller { IsAtTable table.now IsCaller who.old }
    requires next { AreNext who.old sizes }
    requires several { 1 ≤ length sizes }
    requires asked { asked ≡ sum sizes }
    requires small { asked < 2 ^ 32 }
    ensures caller { IsCaller who.new }
    ensures same { who.new ≡ record who.old { token = who.new.token } }
    ensures reserved { IfSome result (λ base.
        ReservedAll who.old.token.view who.old.number base sizes who.new.token.view) }
    ensures taken { IfSome result (λ base. HasTaken who.old sizes who.new) }
    ensures none { result ≡ None →
        HasNoRoom who.old.token.view (word_count_of table.now) asked who.new.token.view }
{
    know(&who.token);
    take_all(table, &mut who.token, who.number, asked)
}
