//! What the checker remembers of the events so far.
ghost use Rattle.std.specs.Prelude.{◌≡◌};
ghost use Rattle.check_events.specs.Remembering as remembering;

use crate::leaves::FoundLeaf;
use check_fairness::BuildingLists;
use std::collections::{BTreeMap, BTreeSet};

/// A put or remove that was decided yes, and the nodes at which it was counted since.
#[derive(Drop)]
pub struct LastUpdate {
    pub change: u64,
    pub counted: BTreeSet<u64>,
}

/// A slot: its node, and its number in the node.
#[derive(Clone, Copy, Debug, PartialEq, Eq, Drop)]
pub struct Slot {
    pub node: u64,
    pub index: u64,
}

/// What is known of the way from the anchor to an inner row: the keys that lead to the row are
/// those from `low` to `high`. `jump` is a row on the way, or the anchor; it is chosen so that each
/// way up takes few jumps. `depth` counts the rows of the way.
#[derive(Clone, Copy, Debug, PartialEq, Eq, Drop)]
pub struct RowWay {
    pub low: u64,
    pub high: u64,
    pub jump: u64,
    pub depth: u64,
}

/// The Roots and Places so far, by the sizes of their rows.
#[derive(Drop)]
pub struct BuildTable {
    /// How many Roots and Places there were.
    pub count: u64,
    /// For all sizes that occurred: how many there were up to the last one whose rows have these
    /// sizes.
    pub last: BTreeMap<Vec<u64>, u64>,
    /// How many there were up to the last Root, Place or Lose of a caller.
    pub since: BTreeMap<u64, u64>,
}

/// What the conditions of events need from the events before them, in tables with a look-up.
/// `Remembering.antt` says for each table what it holds.
#[derive(Drop)]
pub struct Past {
    /// The changes that an Okay named.
    pub okayed: BTreeSet<u64>,
    /// The nodes that there is a cause to mark.
    pub called: BTreeSet<u64>,
    /// The greatest part that a caller drew of a rebuild.
    pub drawn: BTreeMap<u128, u64>,
    /// The word with which a slot was passed.
    pub passed: BTreeMap<u128, u64>,
    /// The last put or remove of each caller that was decided yes.
    pub updates: BTreeMap<u64, LastUpdate>,
    /// The slot in which each node hung that was linked below the anchor.
    pub slots: BTreeMap<u64, Slot>,
    /// The ways to some of these nodes.
    pub ways: BTreeMap<u64, RowWay>,
    /// The callers that had a change decided no, each with the node of the change.
    pub refused: BTreeSet<u128>,
    /// The rebuilds that were started.
    pub started: BTreeSet<u64>,
    /// The Roots and Places.
    pub builds: BuildTable,
    /// The targets of the rebuilds that were started.
    pub targets: BTreeSet<u64>,
    /// The building lists.
    pub building: BuildingLists,
    /// The leaves of the targets of rebuilds of which a part was placed, child by child.
    pub leaves: BTreeMap<u64, Vec<FoundLeaf>>,
}

/// Combines two words into one key of a table.
pub fn pair_key(x: u64, y: u64) -> u128
    ensures value { result ≡ remembering.pair_key x y }
{
    u128::from(x) * (1 << 64) + u128::from(y)
}
