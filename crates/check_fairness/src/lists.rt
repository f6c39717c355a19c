//! The building lists of a state, as a checker keeps them.
ghost use Rattle.std.specs.Prelude.{◌≡◌, OnOk};
ghost use Rattle.ist_core.specs.Snapshots.{Snapshot};
ghost use Rattle.check_fairness.specs.Targets.{GainsKeys};
ghost use Rattle.check_fairness.specs.Knowing.{KnowsLists, HasNone};

use crate::keeping::KeptReadings;
use crate::shapes::add_lists;
use std::alloc::{AllocError, Global};
use std::collections::{BTreeMap, BTreeSet};

/// The building lists of a state, and what is kept of the sizes that callers hold.
#[derive(Drop)]
pub struct BuildingLists {
    /// The numbers of keys with which targets of started rebuilds are finished.
    pub counts: BTreeSet<u64>,
    /// The building lists for these numbers of keys, each once.
    pub lists: Vec<Vec<u64>>,
    /// Numbers of keys whose ideal trees have their sizes among the lists.
    pub shapes: BTreeSet<u64>,
    /// What the readings of the sizes that callers hold leave, for some callers.
    pub kept: BTreeMap<u64, KeptReadings>,
}

/// Makes the building lists of a state without rebuilds.
pub fn no_lists(alloc: Global) -> BuildingLists
    ensures none { HasNone result }
{
    BuildingLists {
        counts: BTreeSet::new(alloc),
        lists: Vec::new(alloc),
        shapes: BTreeSet::new(alloc),
        kept: BTreeMap::new(alloc),
    }
}

/// Adds a number of keys with which a target of a started rebuild is finished, and the building
/// lists for it. If the number is already there, nothing changes.
pub fn add_keys(alloc: Global, building: &mut BuildingLists, keys: u64) -> Result<(), AllocError>
    ensures exact { OnOk result ((t u : Snapshot) → GainsKeys t u (λ k. k ≡ keys)
        → KnowsLists building.old t → KnowsLists building.new u) }
{
    if building.counts.contains(&keys) {
        return Ok(());
    }
    building.counts.insert(keys)?;
    add_lists(alloc, keys, &mut building.shapes, &mut building.lists)
}
