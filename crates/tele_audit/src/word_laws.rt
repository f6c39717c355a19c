//! Laws on the words of a table at rest. The functions do nothing and return nothing: contracts are
//! laws.
ghost use Rattle.tele_audit.specs.WordLaws.{PairsAreOne, LawfulWordsBreakNowhere, BreaksAreOne};
ghost use Rattle.tele_audit.specs.WordLaws.{ZerosChangeNothing};

/// Words hold at most one list of pairs.
pub fn pairs_are_one()
    ensures one { PairsAreOne }
{}

/// Words that are lawful at rest break at no slot, and other words break first at one slot only.
pub fn lawful_words_break_nowhere()
    ensures nowhere { LawfulWordsBreakNowhere }
    ensures one { BreaksAreOne }
{}

/// The used words decide everything: zeros after them change neither what the words hold, nor where
/// they break.
pub fn zeros_change_nothing()
    ensures nothing { ZerosChangeNothing }
{}
