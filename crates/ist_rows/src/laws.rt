//! Laws over callers. The functions take no steps and return nothing: their contracts are the laws.
ghost use Rattle.ist_rows.specs.CallerLaws.{CallersGoOn, RefusedBuildsStay, ChangesStayResolved};
ghost use Rattle.ist_rows.specs.CallerLaws.{EventsMoveRows, LoadsMoveRows};
ghost use Rattle.ist_rows.specs.CallerLaws.{GivenRowsGo, LostRowsGo, RefusedBuildsAreKept};

/// An Okay, a Decide, a Resolve, a Count, a Mark, a Pass, a Finish or a Draw changes nothing of
/// what its caller holds: the caller is still a caller, and its refused builds are still refused.
/// If all changes of a caller are resolved, they are until it installs one.
pub fn callers_go_on()
    ensures caller { CallersGoOn }
    ensures refused { RefusedBuildsStay }
    ensures resolved { ChangesStayResolved }
{}

/// A Reserve adds its row to what its caller holds, as the last. An Install, a Root, a Place and a
/// Lose take away the rows that they name. No other event changes it.
pub fn events_move_rows()
    ensures made { EventsMoveRows }
    ensures loaded { LoadsMoveRows }
{}

/// A caller that published or lost its rows of some kinds is a caller without these, and its
/// refused builds are still refused.
pub fn given_rows_go()
    ensures given { GivenRowsGo }
    ensures lost { LostRowsGo }
    ensures refused { RefusedBuildsAreKept }
{}
