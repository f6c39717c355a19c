//! Laws. The functions take no steps and return nothing: their contracts are the laws.
ghost use Rattle.laws_calls.specs.Sizing.{RowsAreSized};
ghost use Rattle.laws_calls.specs.Rooting.{RootsHaveTheirForm};
ghost use Rattle.laws_calls.specs.Carrying.{IdealsCarryOver, PartsCarryOver, PartsJoin};
ghost use Rattle.laws_calls.specs.Dividing.{PartsAreShares, FirstPartsGoOn, FirstPartsAreAll};
ghost use Rattle.laws_calls.specs.Dividing.{FirstKeysGoOn};
ghost use Rattle.laws_calls.specs.Finishing.{SlotsThatWereLinkedAreSet, FinishedSlotsWerePassed};
ghost use Rattle.laws_calls.specs.Finishing.{LeavesThatWereLinkedRise, FinishedLeavesRise};
ghost use Rattle.laws_calls.specs.Finishing.{NumbersAreOfPuts, SetSlotsStaySet};
ghost use Rattle.laws_calls.specs.Freezing.{FrozenRowsHaveThePairs};

/// Each published inner row has a degree and a size of at least 2, and the word of a status.
pub fn rows_are_sized()
    ensures sized { RowsAreSized }
{}

/// The root of a rebuild with few keys never has an Unset slot. Over many keys it is a row with one
/// slot for each part.
pub fn roots_have_their_form()
    ensures form { RootsHaveTheirForm }
{}

/// An ideal subtree is one wherever its leaves and its own rows are. Added to other parts it is one
/// part more.
pub fn ideals_carry_over()
    ensures ideal { IdealsCarryOver }
    ensures parts { PartsCarryOver }
    ensures join { PartsJoin }
{}

/// Part i of some leaves is the share of child i, which follows the shares of the children before
/// it. The first parts and their keys grow one by one, until they are all.
pub fn parts_are_shares()
    ensures share { PartsAreShares }
    ensures next { FirstPartsGoOn }
    ensures all { FirstPartsAreAll }
    ensures keys { FirstKeysGoOn }
{}

/// Each slot of a row that was linked is set, and stays set; each slot of a finished row was
/// passed. The leaves below have strictly increasing keys, and a finished row has at most as many
/// as there were pairs at the start plus puts since.
pub fn finished_rows_are_known()
    ensures set { SlotsThatWereLinkedAreSet }
    ensures stays_set { SetSlotsStaySet }
    ensures passed { FinishedSlotsWerePassed }
    ensures linked_rise { LeavesThatWereLinkedRise }
    ensures rise { FinishedLeavesRise }
    ensures few { NumbersAreOfPuts }
{}

/// If a row was the anchor's child once and is finished later, its leaves are the pairs that the
/// map had at some moment in between.
pub fn frozen_rows_have_the_pairs()
    ensures pairs { FrozenRowsHaveThePairs }
{}
