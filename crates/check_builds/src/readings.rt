//! What the slots of a replica read as.
ghost use Rattle.std.specs.Prelude.{◌≡◌};
ghost use Rattle.std.specs.Option.{option_map};
ghost use Rattle.ist_core.specs.References.{ref_of};
ghost use Rattle.ist_core.specs.Snapshots.{Snapshot};
ghost use Rattle.ist_core.specs.After as after;
ghost use Rattle.ist_core.specs.Slots as slots;
ghost use Rattle.ist_layout.specs.Meanings.{ref_meant};
ghost use Rattle.check_events.specs.Mirroring.{Mirrors};
ghost use Rattle.check_builds.specs.Reading.{IsReadingOf};

use check_events::Replica;
use ist_core::ChangeRow;
use ist_layout::{DECIDED_YES, Ref};

/// What a slot reads as, as far as leaves lie below it.
#[derive(Clone, Copy, Debug, PartialEq, Eq, Drop)]
pub enum SlotReading {
    /// No leaf.
    Nothing,
    /// The leaf at this base.
    OneLeaf(u64),
    /// The inner row at this base.
    OneRow(u64),
    /// A part that isn't built yet, or a word that names nothing.
    Other,
}

/// Returns what a slot with this word reads as.
pub fn read_slot(replica: &Replica, word: u64) -> SlotReading
    ensures exact { (t : Snapshot) → Mirrors replica.now t
        → IsReadingOf result (slots.logical t.pieces word) }
{
    match past_change(replica, word) {
        Some(Ref::Empty) => SlotReading::Nothing,
        Some(Ref::Leaf { base }) => SlotReading::OneLeaf(u64::from(base)),
        Some(Ref::Inner { base }) => SlotReading::OneRow(u64::from(base)),
        Some(Ref::Rebuild { base }) => target_of(replica, u64::from(base)),
        _ => SlotReading::Other,
    }
}

/// Returns what a slot with this word reads as after changes.
fn past_change(replica: &Replica, word: u64) -> Option<Ref>
    ensures value { (t : Snapshot) → Mirrors replica.now t
        → option_map ref_meant result ≡ slots.past_change t.pieces (ref_of word) }
{
    match Ref::from_word(word) {
        Some(Ref::Change { base }) => side_at(replica, u64::from(base)),
        other => other,
    }
}

/// Returns what a change at the base reads as.
fn side_at(replica: &Replica, base: u64) -> Option<Ref>
    ensures value { (t : Snapshot) → Mirrors replica.now t
        → option_map ref_meant result ≡ slots.change_reads (t.pieces base) }
{
    match replica.changes.get(&base) {
        None => None,
        Some(change) => Ref::from_word(side_of(change)),
    }
}

/// Returns the word that a change leaves in its slot.
fn side_of(change: &ChangeRow) -> u64
    ensures value { result ≡ after.side_of change.now }
{
    if change.decision == DECIDED_YES {
        change.to
    } else {
        change.from
    }
}

/// Returns what a rebuild at the base reads as.
fn target_of(replica: &Replica, base: u64) -> SlotReading
    ensures exact { (t : Snapshot) → Mirrors replica.now t
        → IsReadingOf result (slots.rebuild_reads (t.pieces base)) }
{
    match replica.rebuilds.get(&base) {
        None => SlotReading::Other,
        Some(row) => SlotReading::OneRow(row.target),
    }
}
