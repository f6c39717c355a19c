//! The slots in which inner rows hung that were linked below the anchor.
ghost use Rattle.std.specs.Prelude.{◌≡◌, ◌∷◌, [], ℕ, List, OnOk, IfOk, Some, None};
ghost use Rattle.ist_core.specs.declared.pairs.Pair.{Pair as APair};
ghost use Rattle.ist_core.specs.declared.states.InnerRow.{InnerRow};
ghost use Rattle.ist_core.specs.RowLayout.{anchor};
ghost use Rattle.ist_core.specs.Pieces.{Inner};
ghost use Rattle.ist_core.specs.Snapshots.{Snapshot};
ghost use Rattle.ist_core.specs.StartLayout.{start};
ghost use Rattle.ist_core.specs.Logs.{Log};
ghost use Rattle.ist_core.specs.Slots.{SlotHolds};
ghost use Rattle.ist_core.specs.Links.{IsChild};
ghost use Rattle.ist_core.specs.Lawful.{CanOpen, Lawful, state_of};
ghost use Rattle.check_events.specs.Mirroring.{Mirrors};
ghost use Rattle.check_events.specs.Remembering.{KnowsSlots};
ghost use Rattle.check_state.specs.Hanging.{AddsSlots, Brings, Hangs};
ghost use Rattle.check_state.specs.Hanging.{BringsInPlace, HangsOnce, PutsLink, PutsLinks};

use check_builds::{SlotReading, read_slot};
use check_events::{Replica, Slot, inner_of_word};
use ist_core::Event;
use ist_layout::ANCHOR;
use std::alloc::{AllocError, Global};
use std::collections::BTreeMap;

/// An inner row, and the slot in which it hangs.
#[derive(Clone, Copy, Debug, PartialEq, Eq, Drop)]
pub struct Link {
    pub node: u64,
    pub index: u64,
    pub child: u64,
}

/// Returns the slots in which the inner rows of a new table hang. The replica must show the table's
/// state.
pub fn slots_of_start(alloc: Global, replica: &Replica) -> Result<BTreeMap<u64, Slot>, AllocError>
    ensures exact { IfOk result (λ slots. (pairs : List APair) → (words : ℕ)
        → CanOpen pairs words → Mirrors replica.now (start pairs words)
        → KnowsSlots slots (start pairs words) []) }
{
    let mut slots = BTreeMap::new(alloc);
    note_slot(
        alloc,
        replica,
        &mut slots,
        u64::from(ANCHOR),
        0,
        replica.anchor,
    )?;
    Ok(slots)
}

/// Remembers the slots in which the inner rows that a Decide links hang. The replica must show the
/// state after the event.
pub fn remember_links(
    alloc: Global,
    replica: &Replica,
    slots: &mut BTreeMap<u64, Slot>,
    event: &Event,
) -> Result<(), AllocError>
    ensures exact { OnOk result ((pairs : List APair) → (words : ℕ) → (log : Log)
        → Lawful pairs words (event.now ∷ log)
        → Mirrors replica.now (state_of pairs words (event.now ∷ log))
        → KnowsSlots slots.old (start pairs words) log
        → KnowsSlots slots.new (start pairs words) (event.now ∷ log)) }
{
    match event {
        Event::Decide { change, yes, .. } => {
            if !*yes {
                return Ok(());
            }
            note_links(alloc, replica, slots, *change)
        }
        _ => Ok(()),
    }
}

/// Remembers the slots of the inner row that the change puts in, and of the rows below it. A start
/// puts in none: its rebuild reads as the row that hung there.
fn note_links(
    alloc: Global,
    replica: &Replica,
    slots: &mut BTreeMap<u64, Slot>,
    change: u64,
) -> Result<(), AllocError>
    ensures exact { OnOk result ((t : Snapshot) → Mirrors replica.now t → HangsOnce slots.old t
        → BringsInPlace t change → AddsSlots slots.old slots.new (Brings t change)) }
{
    match replica.changes.get(&change) {
        None => Ok(()),
        Some(row) => match inner_of_word(row.to) {
            None => Ok(()),
            Some(child) => note_row(alloc, replica, slots, row.node, row.index, child),
        },
    }
}

/// Remembers the slots in which rows hang in or below slot `index` of the node, which holds the
/// word.
fn note_slot(
    alloc: Global,
    replica: &Replica,
    slots: &mut BTreeMap<u64, Slot>,
    node: u64,
    index: u64,
    word: u64,
) -> Result<(), AllocError>
    ensures exact { OnOk result ((t : Snapshot) → Mirrors replica.now t → HangsOnce slots.old t
        → SlotHolds t node index word → AddsSlots slots.old slots.new (Hangs t node index)) }
{
    match read_slot(replica, word) {
        SlotReading::OneRow(child) => note_row(alloc, replica, slots, node, index, child),
        _ => Ok(()),
    }
}

/// Remembers slot `index` of the node for the inner row in it, and the slots of the rows below that
/// row. Rows still to be remembered wait in a list, so no tree is too deep.
fn note_row(
    alloc: Global,
    replica: &Replica,
    slots: &mut BTreeMap<u64, Slot>,
    node: u64,
    index: u64,
    child: u64,
) -> Result<(), AllocError>
    ensures exact { OnOk result ((t : Snapshot) → Mirrors replica.now t → HangsOnce slots.old t
        → IsChild t node index child → AddsSlots slots.old slots.new (Hangs t node index)) }
{
    let mut waiting = Vec::new(alloc);
    waiting.push(Link { node, index, child })?;
    for _ in 0..u64::MAX {
        match waiting.pop() {
            None => return Ok(()),
            Some(link) => {
                let slot = Slot {
                    node: link.node,
                    index: link.index,
                };
                slots.insert(link.child, slot)?;
                put_links(replica, link.child, &mut waiting)?;
            }
        }
    }
    Err(AllocError)
}

/// Adds the rows that hang in the slots of the node to those that wait.
fn put_links(replica: &Replica, node: u64, waiting: &mut Vec<Link>) -> Result<(), AllocError>
    ensures exact { OnOk result ((t : Snapshot) → Mirrors replica.now t → t.pieces anchor ≡ None
        → (row : InnerRow) → t.pieces node ≡ Some (Inner row)
        → PutsLinks t node waiting.old.items waiting.new.items) }
{
    match replica.inners.get(&node) {
        None => Ok(()),
        Some(row) => {
            for (index, word) in row.slots.as_slice().iter().enumerate() {
                put_link(replica, node, index as u64, *word, waiting)?;
            }
            Ok(())
        }
    }
}

/// Adds the row that hangs in slot `index` of the node, which holds the word, to those that wait.
fn put_link(
    replica: &Replica,
    node: u64,
    index: u64,
    word: u64,
    waiting: &mut Vec<Link>,
) -> Result<(), AllocError>
    ensures exact { OnOk result ((t : Snapshot) → Mirrors replica.now t
        → PutsLink t node index word waiting.old.items waiting.new.items) }
{
    match read_slot(replica, word) {
        SlotReading::OneRow(child) => {
            waiting.push(Link { node, index, child })?;
            Ok(())
        }
        _ => Ok(()),
    }
}
