//! Laws on trees that follow one another. The functions do nothing and return nothing: contracts are
//! laws.
ghost use Rattle.ist_reopen.specs.Laws.{OpenedTreesFollow, ClosedTreesAreGenerations};
ghost use Rattle.ist_reopen.specs.Laws.{HistoriesAreOne, HistoriesLeadOn, HistoriesAreMadeOfCalls};
ghost use Rattle.ist_reopen.specs.Laws.{HistoriesAreLinearizable, MomentsAreOfCalls};

/// A tree that is opened over a closed one, at any time later, begins with exactly the pairs that all
/// calls of the closed one's passes left, as a tree that `reopen` opens does.
#[tactic(auto, using(crate::proofs::ReopenLemmas::follows))]
pub fn opened_trees_follow()
    ensures follows { OpenedTreesFollow }
{}

/// What `Tree::close` ensures makes the closed tree a generation: its calls are placed in one lawful
/// log, and all changes of the map are calls of its passes.
#[tactic(auto, using(crate::proofs::GenerationLemmas::closed_is))]
pub fn closed_trees_are_generations()
    ensures closed { ClosedTreesAreGenerations }
{}

/// The calls on trees that follow one another form one legal history, from the pairs of the first
/// tree to the pairs that the last one left.
pub fn histories_are_one()
    ensures legal { HistoriesAreOne }
    ensures leads { HistoriesLeadOn }
{}

/// This history is made of what the passes of each number were told on the trees, one tree after
/// another: each answered call once, in the order of its number's calls, and no others.
pub fn histories_are_made_of_calls()
    ensures made { HistoriesAreMadeOfCalls }
{}

/// The calls on all trees are linearizable together: they have one order that is legal from the pairs of
/// the first tree on, leads to those that the last one left, and keeps real time. They are what the passes
/// of each number were told.
pub fn histories_are_linearizable()
    ensures linearizable { HistoriesAreLinearizable }
    ensures calls { MomentsAreOfCalls }
{}
