//! The search for a key from the anchor down.
ghost use Rattle.std.specs.Prelude.{◌≡◌, ◌+◌};
ghost use Rattle.ist_core.specs.RowLayout.{anchor};
ghost use Rattle.ist_core.specs.StartLayout.{start};
ghost use Rattle.ist_core.specs.Slots.{IsChildFor};
ghost use Rattle.ist_core.specs.Links.{WasLinked};
ghost use Rattle.ist_layout.specs.Meanings.{ref_meant};
ghost use Rattle.ist_rule.specs.Conditions.{MayWalk};
ghost use Rattle.ist_rule.specs.Learning.{now};
ghost use Rattle.laws_histories.specs.Searching.{HasPosition};
ghost use Rattle.ist_rule.specs.Faces.{IsViewAt};
ghost use Rattle.ist_find.specs.Searches.{Came, HasSearched, HasFound, HasFewLoads};
ghost use Rattle.ist_find.specs.Looks.{LooksAtChild};

use crate::answers::{Counted, Found, Look};
use crate::children::read_child;
use crate::reading::value_in;
use ist_layout::{ANCHOR, Ref};
use ist_rule::{TreeTable, TreeToken, begin_search, know};

// Looks at the slot for the key of a node that the search has reached. Inlined, so that callers who
// ignore the number of loads pay nothing for it.
#[inline(always)]
fn look_at(table: &TreeTable, token: &mut TreeToken, node: u32, key: u64) -> Counted<Look>
    requires come { IsViewAt table.now (λ v. Came v key node) token.old.view }
    requires top { node ≡ anchor → MayWalk token.old.view }
    ensures looked { let look = result.value in LooksAtChild token.old.view token.new.view node key
        look.index result.loads (ref_meant look.reference) }
{
    know(token);
    read_child(table, token, node, key)
}

/// Searches for the key from the anchor down, only by loads, and returns its value, if it has one.
///
/// A change is read by its decision, and a rebuild by its target. An inner row is entered at the
/// child for the key. The map has this value for the key after some number of changes, no fewer
/// than those that the caller had seen when the call began.
///
/// Never blocks: each row lies above the one before it. The rows that it enters are the chain of
/// the node in which it ends. It makes at most 10 loads, plus for each of these rows 12 and the
/// distance of the guess from the child for the key.
pub fn find_from_anchor(table: &TreeTable, token: &mut TreeToken, key: u64) -> Found
    requires same_table { token.old.view.table ≡ table.now.table }
    ensures seen { HasSearched token.old.view token.new.view }
    ensures value { let w = token.new.view in
        HasPosition w.start w.words token.old.view.log w.log key result.value }
    ensures found { HasFound token.new.view key result.node result.index result.value }
    ensures linked { let w = token.new.view in WasLinked (start w.start w.words) w.log result.node }
    ensures index { IsChildFor (now token.new.view) result.node key result.index }
    ensures loads { HasFewLoads token.old.view token.new.view key result.node }
{
    find_and_loads(table, token, key).value
}

/// The same search, which also returns how many words it loaded.
pub fn find_and_loads(table: &TreeTable, token: &mut TreeToken, key: u64) -> Counted<Found>
    requires same_table { token.old.view.table ≡ table.now.table }
    ensures seen { HasSearched token.old.view token.new.view }
    ensures value { let w = token.new.view in
        HasPosition w.start w.words token.old.view.log w.log key result.value.value }
    ensures found { let it = result.value in
        HasFound token.new.view key it.node it.index it.value }
    ensures linked { let w = token.new.view in
        WasLinked (start w.start w.words) w.log result.value.node }
    ensures index { let it = result.value in
        IsChildFor (now token.new.view) it.node key it.index }
    ensures loads { HasFewLoads token.old.view token.new.view key result.value.node }
    ensures counted { token.new.view.loaded ≡ token.old.view.loaded + result.loads }
{
    // One load begins the search.
    begin_search(table, token);
    know(token);
    let mut node = ANCHOR;
    let mut look = look_at(table, token, node, key);
    let mut loads = look.loads + 1;
    while let Ref::Inner { base } = look.value.reference {
        node = base;
        look = look_at(table, token, node, key);
        loads += look.loads;
    }
    let value = value_in(table, token, look.value.reference, key);
    know(token);
    Counted {
        value: Found {
            value: value.value,
            node,
            index: look.value.index,
        },
        loads: loads + value.loads,
    }
}
