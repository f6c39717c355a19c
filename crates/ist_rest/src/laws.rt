//! Laws on words that represent some pairs and calls. The functions do nothing and return nothing:
//! contracts are laws.
ghost use Rattle.ist_rest.specs.Laws.{StandingWordsHoldTheMap, StandingWordsAreLawful};
ghost use Rattle.ist_rest.specs.Laws.{NewWordsStand};

/// Words that represent some pairs and calls hold the pairs of the map after the changes of their
/// log, and are lawful at rest.
pub fn standing_words_hold_the_map()
    ensures hold { StandingWordsHoldTheMap }
    ensures lawful { StandingWordsAreLawful }
{}

/// The words of a new table represent its pairs and no calls.
#[tactic(auto, using(crate::proofs::NewLemmas::new_stand))]
pub fn new_words_stand()
    ensures stand { NewWordsStand }
{}
