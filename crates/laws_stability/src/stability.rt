//! Laws over lawful logs. The functions take no steps and return nothing: their contracts are the
//! laws.
ghost use Rattle.laws_stability.specs.Stability.{EntersStay, ReservesStay, LosesStay};
ghost use Rattle.laws_stability.specs.Stability.{DecidesStay, ResolvesStay, MarksStay, FinishesStay};
ghost use Rattle.laws_stability.specs.Stability.{RootsStay, PlacesStay, DrawsStay, DrawsGoOn};
ghost use Rattle.laws_stability.specs.Stability.{InstallsStay, CountsStay, OkaysStay, PassesStay};
ghost use Rattle.laws_stability.specs.Stability.{ResolvedChangesAreQuiet, TouchesStay};
ghost use Rattle.laws_stability.specs.Stability.{PlacesHaveOneWord, EventsFindTheirWord};
ghost use Rattle.laws_stability.specs.Needs.{WordsAreNeeded, NoRefusalIsNeeded};
ghost use Rattle.laws_stability.specs.Needs.{NoDecisionIsNeeded, TheMarkIsNeeded};

/// An event that is enabled after a log is enabled after each longer one whose further events are
/// made by others, if its place has the word that the event expects. What the place had in between
/// doesn't matter. An Enter and a Lose stay enabled whatever their word; a Draw moves on to the
/// part that the draw word names.
pub fn enabled_events_stay()
    ensures enter { EntersStay }
    ensures reserve { ReservesStay }
    ensures decide { DecidesStay }
    ensures resolve { ResolvesStay }
    ensures mark { MarksStay }
    ensures finish { FinishesStay }
    ensures root { RootsStay }
    ensures draw { DrawsStay }
    ensures next_draw { DrawsGoOn }
    ensures place { PlacesStay }
    ensures lose { LosesStay }
{}

/// Four kinds of event need more than their word. For an Install, no change of the caller on its
/// node was decided no meanwhile. For a Count, no put or remove of the caller was decided yes. The
/// change of an Okay is undecided, and the node of a Pass isn't finished. If all changes of a
/// caller are resolved when it begins an Install, it has nothing that others could decide.
pub fn exposed_events_stay()
    ensures install { InstallsStay }
    ensures count { CountsStay }
    ensures okay { OkaysStay }
    ensures pass { PassesStay }
    ensures quiet { ResolvedChangesAreQuiet }
{}

/// An event touches the same place after the longer log, and expects and leaves the same words
/// there. This excludes an Enter, a Count and a Draw, which add to what they find.
pub fn touches_stay()
    ensures touch { TouchesStay }
{}

/// A place has at most one word after a lawful log. An enabled event except a Lose finds its word
/// there: what the clauses above ask of the longer log is true of the shorter one.
pub fn events_find_their_words()
    ensures one { PlacesHaveOneWord }
    ensures found { EventsFindTheirWord }
{}

/// What the clauses above ask of the longer log is needed: an event that is enabled after both logs
/// finds its word, and so on. This isn't said of a Count: if another put or remove of its caller
/// was decided yes meanwhile, it may count that one.
pub fn premises_are_needed()
    ensures word { WordsAreNeeded }
    ensures install { NoRefusalIsNeeded }
    ensures okay { NoDecisionIsNeeded }
    ensures pass { TheMarkIsNeeded }
{}
