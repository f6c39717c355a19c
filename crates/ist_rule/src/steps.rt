//! The steps on words.
ghost use Rattle.std.specs.Prelude.{◌≡◌, ◌≢◌, ◌<◌, ℕ, List};
ghost use Rattle.ist_core.specs.RowLayout.{anchor_slot_place};
ghost use Rattle.ist_core.specs.declared.events.Event.{Event};
ghost use Rattle.ist_rule.specs.Faces.{word_count_of};
ghost use Rattle.ist_rule.specs.Learning.{Looked, LoggedAdd, Exchanged, ExchangedEitherWay, storing};
ghost use Rattle.ist_rule.specs.Conditions.{IsOwn, MayWalk, CanExchange, CanAdd, CanExchangeOrLose};
ghost use Rattle.ist_rule.specs.Several.{CanExchangeAll, ExchangedAll};

use crate::plays::{Looks, Stores};
use crate::table::{TreeTable, TreeToken};
use ist_layout::ANCHOR_SLOT_PLACE;
use std::marker::Brand;

/// Returns the word at the place at this step. The place isn't the anchor's slot.
pub fn load(table: &TreeTable, token: &mut TreeToken, place: u64) -> u64
    requires same_table { token.old.view.table ≡ table.now.table }
    requires within { place < word_count_of table.now }
    requires no_walk { place ≢ anchor_slot_place }
    ensures looked { Looked token.old.view place result token.new.view }
{
    // No event. The token's log takes in what others did up to here.
    table
        .table
        .shared
        .load::<Looks>(&mut token.seat, place as usize)
}

/// Returns the word in the anchor's slot at this step: a walk begins.
///
/// It is the first load since a search or a read was begun, which the view's `searches` counts. So no
/// walk begins uncounted.
pub fn load_top(table: &TreeTable, token: &mut TreeToken) -> u64
    requires same_table { token.old.view.table ≡ table.now.table }
    requires may_walk { MayWalk token.old.view }
    ensures looked { Looked token.old.view anchor_slot_place result token.new.view }
{
    // No event. Meets an install in the slot, and what a helper leaves there.
    table
        .table
        .shared
        .load::<Looks>(&mut token.seat, ANCHOR_SLOT_PLACE as usize)
}

/// Stores a word into a row that the token's caller holds.
pub fn store(table: &TreeTable, token: &mut TreeToken, place: u64, word: u64)
    requires same_table { token.old.view.table ≡ table.now.table }
    requires within { place < word_count_of table.now }
    requires own { IsOwn token.old.view place }
    ensures stored { token.new.view ≡ storing token.old.view place word }
{
    // No event. Meets no other's step: only the row's caller uses it.
    table
        .table
        .shared
        .store::<Stores>(&mut token.seat, place as usize, word)
}

/// Adds 1 to the word at the place and returns the word before, which the place shows before the
/// step. The step is the event that is named for that word: the last of the token's log.
pub fn add(table: &TreeTable, token: &mut TreeToken, place: u64) -> u64
    ghost event: { ℕ → Event }
    requires same_table { token.old.view.table ≡ table.now.table }
    requires within { place < word_count_of table.now }
    requires event { CanAdd token.old.view place event }
    ensures added { LoggedAdd token.old.view event place result token.new.view }
{
    // Enter, Count or Draw, as `event` says for the word found. Meets another's add at the place.
    table
        .table
        .shared
        .fetch_add::<Brand>(&mut token.seat, place as usize, 1)
}

/// Writes `new` if the word at the place is `old`, and returns the word that was found there.
///
/// If that was `old`, the step is the event that is named: the last of the token's log. Otherwise no
/// word changes, and the step is a load.
pub fn exchange(table: &TreeTable, token: &mut TreeToken, place: u64, old: u64, new: u64) -> u64
    ghost event: { Event }
    requires same_table { token.old.view.table ≡ table.now.table }
    requires within { place < word_count_of table.now }
    requires event { CanExchange token.old.view place old new event }
    ensures exchanged { Exchanged token.old.view event place old result token.new.view }
{
    // The step sees three words, and a Decide and a Mark may exchange the same words, so the caller
    // names the event. It is `event` if `old` is found, and otherwise none. Meets another's write of
    // the word.
    table
        .table
        .shared
        .compare_exchange::<Brand>(&mut token.seat, place as usize, old, new)
}

/// Writes `new` if the word at the place is `old`, and returns the word that was found there.
///
/// If that was `old`, the step is all the named events: they are the last of the token's log, in the
/// order of the list and with no other event between them. Otherwise no word changes, and the step is
/// a load.
pub fn exchange_all(table: &TreeTable, token: &mut TreeToken, place: u64, old: u64, new: u64) -> u64
    ghost events: { List Event }
    requires same_table { token.old.view.table ≡ table.now.table }
    requires within { place < word_count_of table.now }
    requires events { CanExchangeAll token.old.view place old new events }
    ensures exchanged { ExchangedAll token.old.view events place old result token.new.view }
{
    // All of `events` if `old` is found, and otherwise no event. Meets another's write of the word.
    table
        .table
        .shared
        .compare_exchange::<Brand>(&mut token.seat, place as usize, old, new)
}

/// Writes `new` if the word at the place is `old`, and returns the word that was found there.
///
/// If that was `old`, the step is the first of the named events: the last of the token's log.
/// Otherwise no word changes, and the step is the second: the loss of the rows that would have been
/// published.
pub fn exchange_or_lose(
    table: &TreeTable,
    token: &mut TreeToken,
    place: u64,
    old: u64,
    new: u64,
) -> u64
    ghost events: { Event × Event }
    requires same_table { token.old.view.table ≡ table.now.table }
    requires within { place < word_count_of table.now }
    requires events { CanExchangeOrLose token.old.view place old new events.0 events.1 }
    ensures exchanged { ExchangedEitherWay token.old.view events place old result token.new.view }
{
    // Root or Place if `old` is found, and otherwise Lose. Meets another's Root or Place.
    table
        .table
        .shared
        .compare_exchange::<Brand>(&mut token.seat, place as usize, old, new)
}
