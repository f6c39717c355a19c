//! One caller installs a put, and others help it, one after another and on threads of their own.
ghost use Rattle.std.specs.Prelude.{◌≡◌, None};
ghost use Rattle.ist_rows.specs.Rows.{IsCaller, IsAtTable, spares_of, no_spares};

use crate::changes::{begin_put, install_put};
use crate::judging::same;
use crate::tables::empty_table;
use ist_dcss::{Decision, Installed, help};
use ist_layout::Ref;
use ist_rows::{Caller, Kind, enter, reserve};
use ist_rule::{TreeTable, TreeToken, begin_search, load_top};
use std::alloc::{AllocError, Global};
use std::thread::{Threads, join};

/// Helps the change at 6 if the anchor's slot holds it.
pub(crate) fn help_met(table: &TreeTable, who: &mut Caller) -> Option<Decision>
    requires caller { IsAtTable table.now IsCaller who.old }
    ensures caller { IsAtTable table.now IsCaller who.new }
    ensures same_rows { spares_of who.new ≡ spares_of who.old }
    ensures in_same_call { who.new.token.view.pending ≡ who.old.token.view.pending }
{
    begin_search(table, &mut who.token);
    let met = load_top(table, &mut who.token);
    if met == (Ref::Change { base: 6 }).to_word() {
        return Some(help(table, &mut who.token, 6));
    }
    None
}

// Has a caller that holds no rows try to install a put into the anchor's empty slot. Returns the word
// that stood there.
fn put_late(table: &TreeTable, who: &mut Caller) -> Option<u64>
    requires caller { IsAtTable table.now IsCaller who.old }
    requires no_rows { spares_of who.old ≡ no_spares }
    requires in_none { who.old.token.view.pending ≡ None }
{
    if reserve(table, who, Kind::Leaf) != Ok(15) || reserve(table, who, Kind::Change) != Ok(17) {
        return None;
    }
    if who.leaf != Some(15) || who.change != Some(17) {
        return None;
    }
    match install_put(table, who, 15, 17, 2) {
        Installed::Yes => None,
        Installed::Other(word) => Some(word),
    }
}

// Returns the word in the anchor's slot.
fn slot_word(table: &TreeTable, token: &mut TreeToken) -> u64
    requires same_table { token.old.view.table ≡ table.now.table }
    ensures same_table { token.new.view.table ≡ table.now.table }
{
    begin_search(table, token);
    load_top(table, token)
}

#[derive(Debug, PartialEq, Drop)]
struct HelpedTwice {
    words: [u64; 3],
    by_second: Option<Decision>,
    by_first: Decision,
    met: Option<u64>,
}

// What is seen if the first caller installs a put, the second helps it, then the first, and then the
// second tries to install another one: the word in the anchor's slot after each of the first three, how
// each sees the put decided, and the word that the last install met.
fn help_in_turn(
    table: &TreeTable,
    maker: &mut TreeToken,
    first: &mut Caller,
    second: &mut Caller,
) -> Option<HelpedTwice>
    requires maker_table { maker.old.view.table ≡ table.now.table }
    requires first { IsAtTable table.now IsCaller first.old }
    requires no_rows { spares_of first.old ≡ no_spares }
    requires in_none { first.old.token.view.pending ≡ None }
    requires second { IsAtTable table.now IsCaller second.old }
    requires no_more_rows { spares_of second.old ≡ no_spares }
    requires in_none_either { second.old.token.view.pending ≡ None }
{
    if !begin_put(table, first) {
        return None;
    }
    let installed = slot_word(table, maker);
    let by_second = help_met(table, second);
    let left = slot_word(table, maker);
    let by_first = help(table, &mut first.token, 6);
    let again = slot_word(table, maker);
    Some(HelpedTwice {
        words: [installed, left, again],
        by_second,
        by_first,
        met: put_late(table, second),
    })
}

// The same in an empty table.
fn help_two(alloc: Global) -> Result<Option<HelpedTwice>, AllocError> {
    let (table, mut maker) = empty_table(alloc, 26)?;
    let mut first = enter(&table, &mut maker);
    let mut second = enter(&table, &mut maker);
    let seen = help_in_turn(&table, &mut maker, &mut first, &mut second);
    Ok(seen)
}

#[test]
fn a_put_is_decided_once_and_leaves_its_slot(rt: HostRuntime) {
    let change = Ref::Change { base: 6 }.to_word();
    let leaf = Ref::Leaf { base: 4 }.to_word();
    let wanted = HelpedTwice {
        words: [change, leaf, leaf],
        by_second: Some(Decision::Yes),
        by_first: Decision::Yes,
        met: Some(leaf),
    };
    same(&rt, &help_two(rt.alloc()), &Ok(Some(wanted)), "the put");
}

// Helps the change at 6, if the anchor's slot holds it, by a caller that has no more to do.
fn help_moved(table: &TreeTable, who: Caller) -> Option<Decision>
    requires caller { IsAtTable table.now IsCaller who }
{
    let mut who = who;
    help_met(table, &mut who)
}

// What happens if a caller installs a put, and two threads help it.
#[derive(Drop)]
struct Helped {
    installed: bool,
    left: Option<Decision>,
    right: Option<Decision>,
    slot: u64,
}

// The same in an empty table.
fn help_on_threads<R: Threads + Sync>(rt: &R, alloc: Global) -> Result<Helped, AllocError> {
    let (table, mut maker) = empty_table(alloc, 26)?;
    let mut first = enter(&table, &mut maker);
    let second = enter(&table, &mut maker);
    let third = enter(&table, &mut maker);
    let installed = begin_put(&table, &mut first);
    let (left, right) = join(
        rt,
        ||
            requires caller { IsAtTable table IsCaller second }
        { help_moved(&table, second) },
        ||
            requires caller { IsAtTable table IsCaller third }
        { help_moved(&table, third) },
    );
    Ok(Helped {
        installed,
        left,
        right,
        slot: slot_word(&table, &mut maker),
    })
}

// Whether the put is installed, and the word in the anchor's slot; whether a thread met the change, and whether one saw it decided no.
fn see_helped<R: Threads + Sync>(
    rt: &R,
    alloc: Global,
) -> Result<(bool, u64, bool, bool), AllocError> {
    let no = Some(Decision::No);
    let seen = help_on_threads(rt, alloc)?;
    let is_met = seen.left.is_some() || seen.right.is_some();
    let is_no = seen.left == no || seen.right == no;
    Ok((seen.installed, seen.slot, is_met, is_no))
}

#[test]
fn two_threads_that_meet_one_change_see_it_decided_yes(rt: HostRuntime) {
    let leaf = Ref::Leaf { base: 4 }.to_word();
    let seen = see_helped(&rt, rt.alloc());
    same(&rt, &seen, &Ok((true, leaf, true, false)), "the put");
}
