//! Laws over lawful logs. The functions take no steps and return nothing: their contracts are the
//! laws.
ghost use Rattle.laws_stability.specs.Progress.{ProgressIsWithinWords, ProgressIsBounded, ProgressNeverFalls};
ghost use Rattle.laws_stability.specs.Progress.{ResolvingIsProgress, InstallingIsProgress};
ghost use Rattle.laws_stability.specs.Standstill.{SlotsStand, OpenNodesStand, OpenNodesHaveOpenChildren};
ghost use Rattle.laws_stability.specs.OpenRows.{OpenRowsStand};

/// How far a table has come is at most the number of its words: each change is installed once and
/// taken out of its slot once, and each row is marked once. It never falls, and it rises when a
/// change is resolved or installed.
pub fn progress_is_bounded()
    ensures within_words { ProgressIsWithinWords }
    ensures bounded { ProgressIsBounded }
    ensures never_falls { ProgressNeverFalls }
    ensures resolving { ResolvingIsProgress }
    ensures installing { InstallingIsProgress }
{}

/// While a table comes no further, a slot that is set holds its word and an open node stays open.
/// At any time, if a slot of a linked open node names a row, that row is open too.
pub fn tables_stand_still()
    ensures slots { SlotsStand }
    ensures nodes { OpenNodesStand }
    ensures children { OpenNodesHaveOpenChildren }
{}

/// A row that was linked and is open is found in the slot that once held it: the slot's word is the
/// row's own, or a change's, or the word of a rebuild of that row.
pub fn open_rows_stand()
    ensures stand { OpenRowsStand }
{}
