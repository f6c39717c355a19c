//! Laws over lawful logs. The functions take no steps and return nothing: their contracts are the
//! laws.
ghost use Rattle.laws_calls.specs.Walking.{SearchesMeetRows, MeetingsAreSearches, MeetingsGoOn};
ghost use Rattle.laws_calls.specs.Walking.{MetRowsAreTheChain, WalkedRowsAreTheChain};
ghost use Rattle.laws_calls.specs.Walking.{ChainsHaveTheirRows, UpperRowsWereOnTheChain};
ghost use Rattle.laws_calls.specs.Walking.{WalksByKeyAreWalks, WalksByKeyAreSearches};
ghost use Rattle.laws_calls.specs.Accepting.{EntriesComeByYes, NoYesMakesNoEntry};
ghost use Rattle.laws_calls.specs.Accepting.{InstallsWithoutYesMakeNoEntry, NoEntriesJoin};
ghost use Rattle.laws_calls.specs.Counting.{UpdatesMayBeCounted, CountsGoUp, CountsAreFrom};

/// The rows that a search, or a walk by raw words, met on the way to its node are exactly the
/// node's chain, at every moment when it had one. So each row that was met may be counted at.
pub fn met_rows_are_the_chain()
    ensures some { SearchesMeetRows }
    ensures search { MeetingsAreSearches }
    ensures on { MeetingsGoOn }
    ensures met { MetRowsAreTheChain }
    ensures walked { WalkedRowsAreTheChain }
    ensures rows { ChainsHaveTheirRows }
    ensures upper { UpperRowsWereOnTheChain }
{}

/// A walk by the children for a key, at each node at one moment, is a search for the key that met
/// the same rows. So what holds of a search's node holds of the walk's too.
pub fn walks_by_key_are_searches()
    ensures walk { WalksByKeyAreWalks }
    ensures search { WalksByKeyAreSearches }
{}

/// A caller has the same entries in a longer log exactly if each of its puts and removes that is
/// decided yes there was already so before. If its changes were resolved, only newer ones matter:
/// it is enough that none that it installed since is decided yes.
pub fn entries_come_by_yes()
    ensures yes { EntriesComeByYes }
    ensures resolved { NoYesMakesNoEntry }
    ensures installed { InstallsWithoutYesMakeNoEntry }
    ensures join { NoEntriesJoin }
{}

/// A put or remove that was decided yes, and is its caller's only entry since, may be counted once
/// at each row of its node's chain. From the lowest row up each Count is enabled.
pub fn updates_may_be_counted()
    ensures once { UpdatesMayBeCounted }
    ensures up { CountsGoUp }
    ensures from { CountsAreFrom }
{}
