//! Laws over changes and the nodes that they are on. The functions take no steps and return
//! nothing: their contracts are the laws.
ghost use Rattle.ist_dcss.specs.Opening.{ClosedNodesStay, OpenNodesAreUnrefused};
ghost use Rattle.ist_dcss.specs.Opening.{HelpedChangesAreResolved};

/// A node that isn't open is never open again. While it is open, no change on it was decided no, so
/// that a caller may install one more there.
pub fn nodes_close_once()
    ensures closed { ClosedNodesStay }
    ensures unrefused { OpenNodesAreUnrefused }
{}

/// If all changes of a caller are resolved, and it installs one more and helps it, all are
/// resolved.
pub fn helped_changes_are_resolved()
    ensures resolved { HelpedChangesAreResolved }
{}
