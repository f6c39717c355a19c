//! Laws of shots. The functions take no steps and return nothing: their contracts are the laws.
ghost use Rattle.ist_scan.specs.Shots.{ShotsStay, LaterCallsComeAfter, PairsStay};
ghost use Rattle.ist_scan.specs.Shots.{ShotsHavePairs, PositionsHavePairs};
ghost use Rattle.ist_scan.specs.Room.{LoneShotsAreTaken, LoneShotsAreWhole};
ghost use Rattle.ist_scan.specs.Walks.{WalksStay};

/// A shot stays of its position while its pass goes on, and for each pass that has learnt what that
/// pass knew. So does a walk. Each later call of the pass is at that position or after it.
pub fn shots_stay()
    ensures stay { ShotsStay }
    ensures walks { WalksStay }
    ensures following { LaterCallsComeAfter }
{}

/// A shot that is frozen in what a pass has seen has one list of pairs there: the map's, if the shot
/// is of a position for the pass. It has the same pairs for each pass that has seen more.
pub fn shots_have_pairs()
    ensures has { ShotsHavePairs }
    ensures position { PositionsHavePairs }
    ensures stay { PairsStay }
{}

/// A shot isn't refused if at a step of the pass in the call there was room for the rebuild's row and
/// its change, and from then on only the pass took words. If there was room for all words of the
/// shot, its rebuild isn't refused either, and it takes at most these words.
pub fn lone_shots_are_taken()
    ensures taken { LoneShotsAreTaken }
    ensures whole { LoneShotsAreWhole }
{}
