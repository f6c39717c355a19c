//! Laws over the definitions. The functions take no steps and return nothing: their contracts are
//! the laws.
ghost use Rattle.std.specs.Prelude.{◌≡◌, ℕ, List};
ghost use Rattle.ist_core.specs.declared.pairs.Pair.{Pair};
ghost use Rattle.ist_core.specs.declared.states.State.{State};
ghost use Rattle.ist_core.specs.Snapshots.{Snapshot, Shows};
ghost use Rattle.ist_core.specs.Leaves.{HasContents};
ghost use Rattle.ist_core.specs.Logs.{Log, Happened, Reserves};
ghost use Rattle.ist_core.specs.Lawful.{Lawful, state_of};
ghost use Rattle.ist_core.specs.Spending.{spent, IsAccountedFor};
ghost use Rattle.ist_core.specs.Laws.{PublishedRowsAreSetAside, HeldRowsAreSetAside, RowsLieWithin, RowsLieApart, RowsHaveOneSize};
ghost use Rattle.ist_core.specs.Laws.{HeldRowsAreUnpublished, RowsAreHeldOnce, LostRowsAreUnpublished, LostRowsAreFree, RowsGrow};
ghost use Rattle.ist_core.specs.Laws.{CountsAreFew, CountsAreLow, DrawsAreFew, CallersAreFew};
ghost use Rattle.ist_core.specs.ImageLaws.{WordsAreFound, OneWordIsWritten, SlotsStandInTheImage};
ghost use Rattle.ist_core.specs.TreeLaws.{SlotsNameRows, RowsHaveTheirDegree};
ghost use Rattle.ist_core.specs.TreeLaws.{KeysRise, LeavesLieByKey, LeavesRise, ContentsRise, FinishedLeavesStay};
ghost use Rattle.ist_core.specs.TreeLaws.{ChildrenLieAbove, ParentsAreOne, FrozenSlotsRead, FrozenSlotsKeep, PassesAgree};

/// At most one state shows a snapshot, and a state shows the rows of only one snapshot.
pub fn states_are_shown()
    ensures one_state { (s u : State) (t : Snapshot) → Shows s t → Shows u t → s ≡ u }
    ensures one_snapshot { (s : State) (t u : Snapshot) → Shows s t → Shows s u
        → (base : ℕ) → t.pieces base ≡ u.pieces base }
{}

/// A table has at most one list of contents.
pub fn contents_are_one()
    ensures one { (t : Snapshot) (xs ys : List Pair)
        → HasContents t xs → HasContents t ys → xs ≡ ys }
{}

/// After a lawful log the first free word is what was spent: the fixed words, the rows of the start
/// pairs, and all that was reserved.
pub fn words_are_spent()
    ensures next { (pairs : List Pair) (words : ℕ) (log : Log) → Lawful pairs words log
        → (state_of pairs words log).next ≡ spent pairs log }
{}

/// After a lawful log each row that was reserved is still held by the caller that reserved it, or
/// is published with the same size, or was lost.
pub fn rows_are_known()
    ensures known { (pairs : List Pair) (words : ℕ) (log : Log) → Lawful pairs words log
        → (caller base size : ℕ) → Happened (Reserves caller base size) log
        → IsAccountedFor (state_of pairs words log) log caller base size }
{}

/// A reserved row has one fate. A held row is held once and isn't published; a lost row is never
/// again held or published.
pub fn fates_are_one()
    ensures held_unpublished { HeldRowsAreUnpublished }
    ensures held_once { RowsAreHeldOnce }
    ensures lost_unpublished { LostRowsAreUnpublished }
    ensures lost_unheld { LostRowsAreFree }
{}

/// Rows share no word. Each published or held row has the words that were set aside for it, in the
/// new table or by a caller. They lie after the fixed words and below the first free word.
pub fn rows_lie_apart()
    ensures published { PublishedRowsAreSetAside }
    ensures held { HeldRowsAreSetAside }
    ensures within { RowsLieWithin }
    ensures apart { RowsLieApart }
    ensures one_size { RowsHaveOneSize }
{}

/// A published row stays a row of its kind, and only its status, count, slots, decision, root and
/// draw change. A status goes from open to marked to finished, a change is decided once, a rebuild
/// gets its root once, and counts never fall.
pub fn rows_grow()
    ensures grow { RowsGrow }
{}

/// A row counts at most as many changes as were decided yes, and so fewer than would wrap a word.
pub fn counts_are_low()
    ensures few { CountsAreFew }
    ensures low { CountsAreLow }
{}

/// The draw word of a rebuild is at most the degree for its target's keys plus the number of
/// callers. There are no more callers than their limit.
pub fn draws_are_low()
    ensures few { DrawsAreFew }
    ensures callers { CallersAreFew }
{}

/// The word in a slot names a published row of its kind, or nothing. An inner row has as many slots
/// as its degree says, and one key less.
pub fn words_name_rows()
    ensures slots { SlotsNameRows }
    ensures degree { RowsHaveTheirDegree }
{}

/// An inner child's base is above its parent's, so each path down the tree ends.
pub fn children_lie_above()
    ensures above { ChildrenLieAbove }
{}

/// The keys of an inner row are strictly increasing, and each leaf lies where its key leads, so a
/// search by the child for a key reaches the leaf of the key. So the leaves below each slot have
/// strictly increasing keys, and so do the contents of the table.
pub fn leaves_lie_by_key()
    ensures keys { KeysRise }
    ensures leaves { LeavesLieByKey }
    ensures below { LeavesRise }
    ensures contents { ContentsRise }
{}

/// The leaves below a finished row never change.
pub fn finished_leaves_stay()
    ensures stay { FinishedLeavesStay }
{}

/// An inner row is only ever the logical child of one slot, whatever changes and rebuilds come.
pub fn parents_are_one()
    ensures one { ParentsAreOne }
{}

/// A slot that was passed is frozen. All its passes have the same word. It reads as this word from
/// then on, and holds it, or a change that would take it out and can't take effect. Its node isn't
/// open.
pub fn frozen_slots_stay()
    ensures reads { FrozenSlotsRead }
    ensures keeps { FrozenSlotsKeep }
    ensures agree { PassesAgree }
{}

/// The step of an event touches one word of the table. It finds there what the event's condition
/// says, and leaves there what the state after the event says. No other word of the image changes,
/// if the rows that the event publishes were in their words before. A Lose touches no word.
pub fn one_word_is_written()
    ensures found { WordsAreFound }
    ensures written { OneWordIsWritten }
    ensures slots { SlotsStandInTheImage }
{}
