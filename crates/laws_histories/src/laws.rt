//! Laws over lawful logs. The functions take no steps and return nothing: their contracts are the
//! laws.
ghost use Rattle.laws_histories.specs.Telling.{TreeGivesTheMap, ContentsAreThePairs, PairsRise};
ghost use Rattle.laws_histories.specs.Telling.{ChangesAreLegal, UpdatesHaveEntries};
ghost use Rattle.laws_histories.specs.Telling.{EntriesAreUpdates, EntriesAreOnce, EntriesAreOfOne};
ghost use Rattle.laws_histories.specs.Telling.{EntriesChangeTheMap};
ghost use Rattle.laws_histories.specs.Calls.{ChangesGoOn, CallsStandOn, CallsAreKept};
ghost use Rattle.laws_histories.specs.Calls.{ReadingsStand, UpdatesTakeEffect, UpdatesStand};
ghost use Rattle.laws_histories.specs.Weaving.{WovenIsLegal, TakenBackIsLegal};
ghost use Rattle.laws_histories.specs.Weaving.{LearntCallsComeFirst};
ghost use Rattle.laws_histories.specs.Placing.{WovenHasPlaces, CallsHavePlaces, FollowersComeLater};
ghost use Rattle.laws_histories.specs.Loads.{WordsStandInTheImage, WordsAreOne};
ghost use Rattle.laws_histories.specs.Loads.{WordsLieInNoOtherRow, PrefixesAreAt, LoadsTellOn};
ghost use Rattle.laws_histories.specs.Searching.{LooksGoOn, SearchesComeOn, SearchesEndOn};
ghost use Rattle.laws_histories.specs.Searching.{SearchesHaveAPosition, SearchesStand};
ghost use Rattle.laws_histories.specs.Searching.{SlotLoadsHold, NodesWereMet, LooksGoUp};
ghost use Rattle.laws_histories.specs.Positions.{PositionsGoOn};

/// The changes of a log are what happened to the map. After them the tree gives each key what the
/// map has for it, and the contents are the pairs of the map, in increasing order of keys. Each
/// change has the reply of the map at its place.
pub fn changes_are_told()
    ensures gives { TreeGivesTheMap }
    ensures contents { ContentsAreThePairs }
    ensures rising { PairsRise }
    ensures legal { ChangesAreLegal }
{}

/// Each put or remove that was decided yes is exactly one of the changes, with its owner, its
/// command, and the reply that is read from its row. There are no other changes.
pub fn updates_are_entries()
    ensures entry { UpdatesHaveEntries }
    ensures update { EntriesAreUpdates }
    ensures once { EntriesAreOnce }
    ensures of_one { EntriesAreOfOne }
    ensures change { EntriesChangeTheMap }
{}

/// The changes of a log are the first changes of each longer log. Calls that are placed in a log
/// are also placed in a longer one, if their pass made no entry meanwhile and the pass's stamp
/// isn't lower.
pub fn calls_stand_on()
    ensures front { ChangesGoOn }
    ensures stand { CallsStandOn }
    ensures keep { CallsAreKept }
{}

/// What a call adds to the calls of its pass. A get, or a remove that found nothing, is placed at
/// any fresh position at which the map has its reply. A put or remove with a change that was
/// decided yes since has taken effect, if its owner has at most one entry since; its call is placed
/// at that entry, and is fresh.
pub fn calls_are_added()
    ensures reading { ReadingsStand }
    ensures effect { UpdatesTakeEffect }
    ensures update { UpdatesStand }
{}

/// The table has one word at each place of a published row and in the anchor's slot. The image has
/// this word there, and the place is in no row that is held or was lost.
pub fn words_are_told()
    ensures image { WordsStandInTheImage }
    ensures one { WordsAreOne }
    ensures elsewhere { WordsLieInNoOtherRow }
{}

/// What was loaded, and how far a search has come by it, stays true as the log grows: a longer log
/// has the same prefix of each length.
pub fn searches_go_on()
    ensures prefix { PrefixesAreAt }
    ensures load { LoadsTellOn }
    ensures look { LooksGoOn }
    ensures come { SearchesComeOn }
    ensures end { SearchesEndOn }
{}

/// A search that began at the anchor, and loaded each slot at a moment of its own, has the reply of
/// the map after some number of changes, no fewer than there were when it began. So its call
/// follows the calls of its pass, and is fresh.
pub fn searches_have_a_position()
    ensures position { SearchesHaveAPosition }
    ensures stand { SearchesStand }
{}

/// A value that a key had at some position between two logs, it also had between an earlier beginning
/// and a longer log.
pub fn positions_go_on()
    ensures position { PositionsGoOn }
{}

/// Each node that a search reaches was linked and led to by its key, and is published. The word
/// that was loaded from its slot is what the slot held, and the next node has a greater base, so
/// the search ends.
pub fn searches_go_up()
    ensures met { NodesWereMet }
    ensures held { SlotLoadsHold }
    ensures up { LooksGoUp }
{}

/// Calls of several passes, each placed in a prefix of one lawful log, are woven into one legal
/// history. A fresh call follows each call that its pass has learnt of.
pub fn calls_are_woven()
    ensures woven { WovenIsLegal }
    ensures taken_back { TakenBackIsLegal }
    ensures learnt { LearntCallsComeFirst }
{}

/// The woven history has each change once and each other call once, in order. Each call of the
/// passes is one of these, and one that follows another is never placed before it.
pub fn calls_have_places()
    ensures places { WovenHasPlaces }
    ensures among { CallsHavePlaces }
    ensures later { FollowersComeLater }
{}
