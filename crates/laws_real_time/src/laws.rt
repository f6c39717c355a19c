//! Laws. The functions take no steps and return nothing: their contracts are the laws.
ghost use Rattle.laws_real_time.specs.Timing.{PlacedCallsAreLinearizable};
ghost use Rattle.laws_real_time.specs.Making.{MadeCallsAreLinearizable};
ghost use Rattle.laws_real_time.specs.Keeping.{LongerLogsKeep, BeginningsKeep, ReturnsKeep};
ghost use Rattle.laws_real_time.specs.Keeping.{GivingUpKeeps, KeptCallsAreLinearizable};
ghost use Rattle.laws_real_time.specs.Joining.{PlacedCallsLead, HistoriesJoin, CallsJoin};

/// Calls that are placed in their time are linearizable: each at a number of changes between those at
/// its beginning and at its return, with the map's reply there, if each change of the map is that of
/// exactly one call, returned or in progress.
pub fn placed_calls_are_linearizable()
    ensures linearizable { PlacedCallsAreLinearizable }
{}

/// So are calls of callers, if the changes that each caller made are those of its returned calls, and
/// perhaps one more of the call that it is in.
pub fn made_calls_are_linearizable()
    ensures linearizable { MadeCallsAreLinearizable }
{}

/// Moments beside a lawful log stay kept while the log goes on, while calls begin, return at their
/// positions, and are given up; and what is kept is linearizable, and leads to the map after the changes.
pub fn kept_calls_are_linearizable()
    ensures longer { LongerLogsKeep }
    ensures begins { BeginningsKeep }
    ensures returns { ReturnsKeep }
    ensures gives_up { GivingUpKeeps }
    ensures linearizable { KeptCallsAreLinearizable }
{}

/// Histories of calls one after another are one, if no call is in progress between them and the map
/// of the second is the one to which the first led.
pub fn histories_join()
    ensures leads { PlacedCallsLead }
    ensures join { HistoriesJoin }
    ensures calls { CallsJoin }
{}
