//! Laws over lawful logs. The functions take no steps and return nothing: their contracts are the
//! laws.
ghost use Rattle.laws_links.specs.Linking.{RowsStayLinked, OpenRowsAreLinked};
ghost use Rattle.laws_links.specs.Linking.{ClosedRowsWereLinked, ChildrenOfFinishedRows};
ghost use Rattle.laws_links.specs.Linking.{UnresolvedChangesStand, ResolvedChangesAreGone};
ghost use Rattle.laws_links.specs.Linking.{UndecidedChangesAreUnresolved, NodesWereLinked};
ghost use Rattle.laws_links.specs.Linking.{YesIsLinked, OkayedSlotsAreUnpassed};
ghost use Rattle.laws_links.specs.Linking.{UnlinkedChangesAreRefused};

/// A row that was linked is linked or finished, so if it is still open, it is linked. What hangs
/// below a finished row is finished. Only a row that was linked is ever closed.
pub fn linked_rows_stay()
    ensures linked { RowsStayLinked }
    ensures still_open { OpenRowsAreLinked }
    ensures closed { ClosedRowsWereLinked }
    ensures below { ChildrenOfFinishedRows }
{}

/// A change is in its slot until it is resolved, which takes a decision, and in no slot from then
/// on. Its node was linked when it was installed.
pub fn changes_stand()
    ensures stand { UnresolvedChangesStand }
    ensures gone { ResolvedChangesAreGone }
    ensures undecided { UndecidedChangesAreUnresolved }
    ensures linked { NodesWereLinked }
{}

/// When a change is decided yes its node is linked: an Okay and a Pass of one slot exclude each
/// other, and a finished node has passed all its slots. If the node isn't linked any more, the
/// change can only be decided no.
pub fn yes_is_linked()
    ensures linked { YesIsLinked }
    ensures unpassed { OkayedSlotsAreUnpassed }
    ensures refused { UnlinkedChangesAreRefused }
{}
