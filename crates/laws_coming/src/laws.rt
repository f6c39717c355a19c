//! Laws over what a caller knows. The functions take no steps and return nothing: their contracts
//! are the laws.
ghost use Rattle.laws_coming.specs.Coming.{EnabledEventsCome, CountsCome, DrawsCome};
ghost use Rattle.laws_coming.specs.Coming.{GoneWordsAreMissed, RowsAreKnown, OpenIsGone, MarkIsGone};
ghost use Rattle.laws_coming.specs.Builds.{RootsCome, RootsComeOrLose, PartsCome, PartsComeOrLose};
ghost use Rattle.laws_coming.specs.Builds.{UnsetIsSeen, UnsetStaysSeen};

/// A caller may come to make what is enabled in the log that it has seen, whatever others do
/// meanwhile: an exchange if its word is still at the place, and a Count or a Draw whatever word is
/// there.
///
/// An Install needs that all changes of the caller are resolved, which its call asks. A Count needs
/// this too.
pub fn enabled_events_come()
    ensures exchange { EnabledEventsCome }
    ensures count { CountsCome }
    ensures draw { DrawsCome }
{}

/// If the word that an exchange must find is gone for good, the exchange may be named for any event
/// of the caller's own: it fails. The words of published rows are known. An open node that was
/// closed is never open again, and a finished node is never marked again.
pub fn gone_words_are_missed()
    ensures missed { GoneWordsAreMissed }
    ensures known { RowsAreKnown }
    ensures open_word { OpenIsGone }
    ensures marked_word { MarkIsGone }
{}

/// A caller may put in place what it has built, if the root, or the slot of a shared root, is still
/// Unset. If it isn't, and was Unset when the caller looked, another has put a build of the same
/// sizes there: then the exchange that fails is the loss of the rows.
///
/// The caller looked after its last Root, Place or Lose: a load gave Unset, and since then it has
/// made loads and other events. A root over no key or one key has no rows, so nothing can be lost,
/// and an exchange that fails is a load.
pub fn builds_come()
    ensures root { RootsCome }
    ensures root_or_lose { RootsComeOrLose }
    ensures part { PartsCome }
    ensures part_or_lose { PartsComeOrLose }
    ensures seen { UnsetIsSeen }
    ensures still_seen { UnsetStaysSeen }
{}
