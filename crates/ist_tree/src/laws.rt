//! Laws over lawful logs. The functions take no steps and return nothing: their contracts are the
//! laws.
ghost use Rattle.ist_tree.specs.Freezing.{FrozenTreesStay, FrozenPairsStay};
ghost use Rattle.ist_tree.specs.Freezing.{FrozenTreesHavePairs, FrozenPairsAreOne};
ghost use Rattle.ist_tree.specs.Walks.{OneWalkIsFew, RoundsAddUp, WalksAddUp};

/// A tree that is frozen in a log stays frozen in each lawful log that goes on, with the same
/// pairs: it has one list of pairs, one for each of its keys, strictly increasing by key.
pub fn frozen_trees_stay()
    ensures stay { FrozenTreesStay }
    ensures pairs_stay { FrozenPairsStay }
    ensures has { FrozenTreesHavePairs }
    ensures one { FrozenPairsAreOne }
{}

/// All calls of a pass together begin at most one walk per call, and in the life of the table at most
/// as many more as it has words.
///
/// Each `put`, `remove` and `freeze` meets the premise by its clause `few_walks`, even if it was
/// refused. Each other call begins one walk (`find`, `span`, `sweep`) or none (`frozen_pair`, `meet`,
/// `note`, `room`), and so few (`one`). Calls among which are `put_if` and `remove_if` begin at most two
/// each, and two more for each change of the map (`rounds`).
///
/// A step that changes the tree pays for a walk, whichever pass made it.
pub fn walks_add_up()
    ensures add_up { WalksAddUp }
    ensures one { OneWalkIsFew }
    ensures rounds { RoundsAddUp }
{}
