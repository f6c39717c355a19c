//! The ways from the anchor to the inner rows that were linked.
ghost use Rattle.std.specs.Prelude.{◌≡◌, ◌∷◌, [], ℕ, List, OnOk, IfOk, IfSome};
ghost use Rattle.std.specs.Ordering.{nat_cmp};
ghost use Rattle.std.specs.BTreeMap as tree;
ghost use Rattle.ist_core.specs.declared.pairs.Pair.{Pair as APair};
ghost use Rattle.ist_core.specs.RowLayout.{anchor};
ghost use Rattle.ist_core.specs.Snapshots.{Snapshot};
ghost use Rattle.ist_core.specs.StartLayout.{start};
ghost use Rattle.ist_core.specs.Logs.{Log};
ghost use Rattle.ist_core.specs.Lawful.{CanOpen, Lawful, state_of};
ghost use Rattle.check_events.specs.Mirroring.{Mirrors};
ghost use Rattle.check_events.specs.Remembering.{KnowsSlots, KnowsWays};
ghost use Rattle.check_events.specs.Ways.{KeysStay};
ghost use Rattle.check_state.specs.Leading.{IsSpanOf, IsWayBy, JumpsFrom};

use check_events::{Replica, RowWay, Slot, inner_of_word};
use ist_core::Event;
use ist_layout::ANCHOR;
use std::alloc::{AllocError, Global};
use std::collections::BTreeMap;

/// The keys from `low` to `high`.
#[derive(Clone, Copy, Debug, PartialEq, Eq, Drop)]
pub struct KeySpan {
    pub low: u64,
    pub high: u64,
}

/// Returns the ways to the inner rows of a new table. The replica must show the table's state, and
/// the slots must be those in which its rows hang.
pub fn ways_of_start(
    alloc: Global,
    replica: &Replica,
    slots: &BTreeMap<u64, Slot>,
) -> Result<BTreeMap<u64, RowWay>, AllocError>
    ensures exact { IfOk result (λ ways. (pairs : List APair) → (words : ℕ) → CanOpen pairs words
        → Mirrors replica.now (start pairs words) → KnowsSlots slots.now (start pairs words) []
        → KnowsWays ways (start pairs words) []) }
{
    let mut ways = BTreeMap::new(alloc);
    add_ways(alloc, replica, slots, &mut ways, replica.anchor)?;
    Ok(ways)
}

/// Remembers the ways to the inner rows that a Decide links. The replica and the slots must show
/// the state after the event.
pub fn remember_ways(
    alloc: Global,
    replica: &Replica,
    slots: &BTreeMap<u64, Slot>,
    ways: &mut BTreeMap<u64, RowWay>,
    event: &Event,
) -> Result<(), AllocError>
    ensures exact { OnOk result ((pairs : List APair) → (words : ℕ) → (log : Log)
        → Lawful pairs words (event.now ∷ log)
        → Mirrors replica.now (state_of pairs words (event.now ∷ log))
        → KnowsSlots slots.now (start pairs words) (event.now ∷ log)
        → KnowsWays ways.old (start pairs words) log
        → KnowsWays ways.new (start pairs words) (event.now ∷ log)) }
{
    match event {
        Event::Decide { change, yes, .. } => {
            if !*yes {
                return Ok(());
            }
            match replica.changes.get(change) {
                None => Ok(()),
                Some(row) => add_ways(alloc, replica, slots, ways, row.to),
            }
        }
        _ => Ok(()),
    }
}

/// Adds the ways to the inner row that the word names, if it names one, and to the rows below.
fn add_ways(
    alloc: Global,
    replica: &Replica,
    slots: &BTreeMap<u64, Slot>,
    ways: &mut BTreeMap<u64, RowWay>,
    word: u64,
) -> Result<(), AllocError>
    ensures exact { OnOk result ((pairs : List APair) → (words : ℕ) → (log : Log)
        → Lawful pairs words log → Mirrors replica.now (state_of pairs words log)
        → KnowsSlots slots.now (start pairs words) log
        → KnowsWays ways.old (start pairs words) log
        → KnowsWays ways.new (start pairs words) log) }
{
    let mut waiting = Vec::new(alloc);
    waiting.push(word)?;
    for _ in 0..u64::MAX {
        match waiting.pop() {
            None => return Ok(()),
            Some(word) => {
                if let Some(row) = inner_of_word(word) {
                    add_way(replica, slots, ways, row)?;
                    put_slots(replica, row, &mut waiting)?;
                }
            }
        }
    }
    Err(AllocError)
}

/// Adds the words in the slots of the inner row to those that wait.
fn put_slots(replica: &Replica, row: u64, waiting: &mut Vec<u64>) -> Result<(), AllocError> {
    if let Some(row) = replica.inners.get(&row) {
        for word in row.slots.as_slice() {
            waiting.push(*word)?;
        }
    }
    Ok(())
}

/// Adds the way to the inner row, if it hangs in a slot and the way to the slot's node is known.
fn add_way(
    replica: &Replica,
    slots: &BTreeMap<u64, Slot>,
    ways: &mut BTreeMap<u64, RowWay>,
    row: u64,
) -> Result<(), AllocError>
    ensures exact { OnOk result ((pairs : List APair) → (words : ℕ) → (log : Log)
        → Lawful pairs words log → Mirrors replica.now (state_of pairs words log)
        → KnowsSlots slots.now (start pairs words) log
        → KnowsWays ways.old (start pairs words) log
        → KnowsWays ways.new (start pairs words) log) }
{
    match slots.get(&row) {
        None => Ok(()),
        Some(slot) => match way_by(replica, ways, slot.node, slot.index) {
            None => Ok(()),
            Some(way) => {
                ways.insert(row, way)?;
                Ok(())
            }
        },
    }
}

/// Returns the way to a row in slot `index` of the node, if the way to the node is known.
fn way_by(replica: &Replica, ways: &BTreeMap<u64, RowWay>, node: u64, index: u64) -> Option<RowWay>
    ensures exact { IfSome result (λ way. (pairs : List APair) → (words : ℕ) → (log : Log)
        → Lawful pairs words log → Mirrors replica.now (state_of pairs words log)
        → KnowsWays ways.now (start pairs words) log
        → IsWayBy (start pairs words) log node index way) }
{
    if node == u64::from(ANCHOR) {
        return top_way(index);
    }
    match ways.get(&node) {
        None => None,
        Some(above) => match replica.inners.get(&node) {
            None => None,
            Some(row) => match span_of(row.keys.as_slice(), index) {
                None => None,
                Some(span) => Some(RowWay {
                    low: above.low.max(span.low),
                    high: above.high.min(span.high),
                    jump: jump_from(ways, node, above),
                    depth: above.depth.saturating_add(1),
                }),
            },
        },
    }
}

/// Returns the way to a row in the anchor's slot.
fn top_way(index: u64) -> Option<RowWay>
    ensures exact { IfSome result (λ way. (first : Snapshot) → (log : Log) → KeysStay first log
        → IsWayBy first log anchor index way) }
{
    if index != 0 {
        return None;
    }
    Some(RowWay {
        low: 0,
        high: u64::MAX,
        jump: u64::from(ANCHOR),
        depth: 1,
    })
}

/// Returns the interval of the keys whose child, in a row with these keys, is child `index`.
fn span_of(keys: &[u64], index: u64) -> Option<KeySpan>
    ensures exact { IfSome result (λ span. IsSpanOf keys.now index span.low span.high) }
{
    let count = keys.len() as u64;
    if index > count {
        return None;
    }
    let low = if index == 0 {
        0
    } else {
        keys[(index - 1) as usize]
    };
    if index == count {
        return Some(KeySpan {
            low,
            high: u64::MAX,
        });
    }
    let next = keys[index as usize];
    if next == 0 {
        return None;
    }
    Some(KeySpan {
        low,
        high: next - 1,
    })
}

/// Returns where the way to a row in a slot of the node jumps to: as far as two jumps from the
/// node, if these have the same length, and otherwise to the node.
fn jump_from(ways: &BTreeMap<u64, RowWay>, node: u64, above: &RowWay) -> u64
    ensures exact { (first : Snapshot) → (log : Log) → KnowsWays ways.now first log
        → tree.get nat_cmp ways.now node ≡ Some above.now → JumpsFrom first log node result }
{
    match ways.get(&above.jump) {
        None => node,
        Some(middle) => {
            let first = above.depth.saturating_sub(middle.depth);
            let second = middle.depth.saturating_sub(depth_of(ways, middle.jump));
            if first == second { middle.jump } else { node }
        }
    }
}

/// Returns the number of rows on the way, and 0 for the anchor.
fn depth_of(ways: &BTreeMap<u64, RowWay>, node: u64) -> u64 {
    match ways.get(&node) {
        None => 0,
        Some(way) => way.depth,
    }
}
