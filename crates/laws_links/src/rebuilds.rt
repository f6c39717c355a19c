//! Laws over lawful logs. The functions take no steps and return nothing: their contracts are the
//! laws.
ghost use Rattle.laws_links.specs.Returning.{UnlinkedRowsStayOut};
ghost use Rattle.laws_links.specs.Replacing.{StartedRebuildsStand, ReplacedRebuildsAreGone};
ghost use Rattle.laws_links.specs.Replacing.{ReplacedTargetsAreOut, RootsComeLate};
ghost use Rattle.laws_links.specs.Replacing.{RootsAreIdeal};
ghost use Rattle.laws_links.specs.Replacing.{FinishedRowsHaveLeaves, NumbersAreLow};
ghost use Rattle.laws_links.specs.Replacing.{NumbersCountLeaves};
ghost use Rattle.laws_links.specs.Replacing.{ContentsExist, UpdatesAloneChange};
ghost use Rattle.laws_links.specs.Replacing.{LinkedSlotsAreSet};
ghost use Rattle.laws_links.specs.Drawing.{DrawsStayLow};
ghost use Rattle.laws_links.specs.Opening.{RowsAreOpenAtRest};

/// A row that was linked and isn't any more is never linked again: no change brings it back.
pub fn unlinked_rows_stay_out()
    ensures out { UnlinkedRowsStayOut }
{}

/// A started rebuild either was replaced or is in its slot. Once replaced it is never there again,
/// and its target isn't linked. A rebuild gets its root only after its target is finished.
pub fn rebuilds_stand()
    ensures stand { StartedRebuildsStand }
    ensures gone { ReplacedRebuildsAreGone }
    ensures out { ReplacedTargetsAreOut }
    ensures rooted { RootsComeLate }
{}

/// When a finish is decided yes, the root that it puts into its slot is the ideal subtree over
/// exactly the leaves below the target. The subtree's inner rows lie above the target.
pub fn roots_are_ideal()
    ensures ideal { RootsAreIdeal }
{}

/// A table has contents after each lawful log, so each slot of a linked node is set. Only a Decide
/// with yes of a put or remove changes the contents. Any other event, also one of a rebuild, leaves
/// the pairs that are reached from the anchor.
pub fn updates_alone_change()
    ensures exist { ContentsExist }
    ensures kept { UpdatesAloneChange }
    ensures set { LinkedSlotsAreSet }
{}

/// A finished row has leaves below it, and its number is how many. No two leaves share a word, so
/// the number is at most the number of the table's places.
pub fn numbers_count_leaves()
    ensures leaves { FinishedRowsHaveLeaves }
    ensures number { NumbersCountLeaves }
    ensures low { NumbersAreLow }
{}

/// The draw word of a rebuild is at most the number of places plus the number of callers, since its
/// target has no more leaves than there are places. So it stays far below where it would wrap.
pub fn draws_stay_low()
    ensures low { DrawsStayLow }
{}

/// If each started rebuild was replaced, or hangs in a node that isn't open, no linked row is
/// marked or finished.
pub fn rows_are_open_at_rest()
    ensures all_open { RowsAreOpenAtRest }
{}
