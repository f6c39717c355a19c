//! Laws over lawful logs. The functions take no steps and return nothing: their contracts are the
//! laws.
ghost use Rattle.laws_calls.specs.Owning.{OwnersAreKnown, ChangesComeByInstalls};
ghost use Rattle.laws_calls.specs.Owning.{OthersInstallNoOwn, ResolvedChangesStay};
ghost use Rattle.laws_calls.specs.Owning.{RefusedNodesAreClosed, OpenNodesRefuseNone};
ghost use Rattle.laws_calls.specs.Starting.{RebuildsHaveStarts, StartsAreOne, SlotsTellStarts};
ghost use Rattle.laws_calls.specs.Settling.{TablesAreSettled, DoneStartsStay, ClosedRowsStay};
ghost use Rattle.laws_calls.specs.Settling.{StartsStayDone, DueRowsStayClosed};
ghost use Rattle.laws_calls.specs.Settling.{StartsStayDoneByOwn, DueRowsStayClosedByOwn};
ghost use Rattle.laws_calls.specs.Settling.{CountsKeepDueRowsClosed};

/// The owner of a change is a caller that entered, and it installed the change itself. Events of
/// others add no change of it, and leave its resolved changes as they are.
pub fn owners_install_changes()
    ensures known { OwnersAreKnown }
    ensures installed { ChangesComeByInstalls }
    ensures none { OthersInstallNoOwn }
    ensures resolved { ResolvedChangesStay }
{}

/// The node of a change that was decided no isn't open, and never is again. So while a node is
/// open, no change on it was decided no; on the anchor none ever is.
pub fn refused_nodes_are_closed()
    ensures closed { RefusedNodesAreClosed }
    ensures unrefused { OpenNodesRefuseNone }
{}

/// A rebuild has one start, which is for the rebuild's slot and takes out its target. If a slot
/// reads as a rebuild, the rebuild was started.
pub fn rebuilds_have_one_start()
    ensures some { RebuildsHaveStarts }
    ensures one { StartsAreOne }
    ensures told { SlotsTellStarts }
{}

/// If each caller's starts are done, and each row that a caller made due has a row on its chain
/// that isn't open, the table is settled.
pub fn tables_are_settled()
    ensures settled { TablesAreSettled }
{}

/// What a caller has done stays done while others make events, and over its own events if it
/// installs no start, or counts nothing. A Count that doesn't bring its row to the limit leaves it
/// too.
pub fn done_stays_done()
    ensures done { DoneStartsStay }
    ensures closed { ClosedRowsStay }
    ensures starts { StartsStayDone }
    ensures due { DueRowsStayClosed }
    ensures own_starts { StartsStayDoneByOwn }
    ensures own_due { DueRowsStayClosedByOwn }
    ensures counted { CountsKeepDueRowsClosed }
{}
