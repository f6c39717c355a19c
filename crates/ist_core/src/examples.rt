//! What the definitions mean on small examples. The functions take no steps: contracts are facts.
ghost use Rattle.std.specs.Prelude.{◌≡◌, [], ◌∷◌, Some};
ghost use Rattle.ist_core.specs.declared.commands.Command.TheVariants.{Put};
ghost use Rattle.ist_core.specs.ExampleTables.{two_pairs, two_pairs_words, ten_pairs, ten_rows};
ghost use Rattle.ist_core.specs.RowLayout.{first_row};
ghost use Rattle.ist_core.specs.ExampleLogs.{put_installed, put_decided, put_resolved, put_unseen};
ghost use Rattle.ist_core.specs.ExampleLogs.{start_pairs, start_installed, rebuild_replaced};
ghost use Rattle.ist_core.specs.ExampleLogs.{late_finished, too_late};
ghost use Rattle.ist_core.specs.Changes.{changes_of};
ghost use Rattle.ist_core.specs.References.{Empty, LeafAt, InnerAt, ChangeAt, RebuildAt, word_of};
ghost use Rattle.ist_core.specs.StartLayout.{start, rows_from};
ghost use Rattle.ist_core.specs.Images.{IsImage};
ghost use Rattle.ist_core.specs.Slots.{logical};
ghost use Rattle.ist_core.specs.Leaves.{HasContents};
ghost use Rattle.ist_core.specs.Lawful.{Lawful, state_of};

/// The words of a new table of 20 words with the pairs (5, 7) and (9, 1), and the rows of one with
/// ten pairs.
pub fn a_table_opens()
    ensures image { IsImage (start two_pairs 20) two_pairs_words }
    ensures ten { rows_from first_row ten_pairs ≡ ten_rows }
{}

/// A put of (1, 1) into an empty table of 15 words: it uses them all, and its leaf is in the
/// anchor's slot.
///
/// It isn't lawful if nobody saw the anchor open, or if the table has one word less.
pub fn a_put_is_lawful()
    ensures lawful { Lawful [] 15 put_resolved }
    ensures next { (state_of [] 15 put_resolved).next ≡ 15 }
    ensures callers { (state_of [] 15 put_resolved).callers ≡ 1 }
    ensures anchor { (state_of [] 15 put_resolved).anchor ≡ word_of (LeafAt 4) }
    ensures unseen { ¬ (Lawful [] 15 put_unseen) }
    ensures no_room { ¬ (Lawful [] 14 put_resolved) }
{}

/// A change in a slot reads as what it takes out, and once it is decided yes as what it puts in.
pub fn a_change_is_read()
    ensures undecided { logical (state_of [] 15 put_installed).pieces (word_of (ChangeAt 6))
        ≡ Some Empty }
    ensures decided { logical (state_of [] 15 put_decided).pieces (word_of (ChangeAt 6))
        ≡ Some (LeafAt 4) }
{}

/// The start of a rebuild of the anchor's child is lawful even if that child isn't due, and a
/// rebuild reads as its target.
pub fn a_start_is_lawful()
    ensures lawful { Lawful start_pairs 100 start_installed }
    ensures rebuild { let ps = (state_of start_pairs 100 start_installed).pieces in
        logical ps (word_of (RebuildAt 15)) ≡ Some (InnerAt 4) }
{}

/// The same rebuild carried through: its target is marked, passed and finished, a new row over the
/// same leaves becomes the root, and the finish puts it into the anchor's slot. The contents stay.
pub fn a_rebuild_is_lawful()
    ensures lawful { Lawful start_pairs 100 rebuild_replaced }
    ensures next { (state_of start_pairs 100 rebuild_replaced).next ≡ 45 }
    ensures anchor { (state_of start_pairs 100 rebuild_replaced).anchor ≡ word_of (InnerAt 29) }
    ensures contents { HasContents (state_of start_pairs 100 rebuild_replaced) start_pairs }
{}

/// A put of (20, 9) in the target of a rebuild. Its node was seen open before the mark, and it is
/// decided yes after the mark: it takes effect, is counted, and its leaf is what is passed.
///
/// If it is installed only after the mark, nobody can have seen the node open, and yes isn't
/// lawful.
pub fn an_overtaken_put_is_lawful()
    ensures lawful { Lawful start_pairs 100 late_finished }
    ensures changes { changes_of start_pairs 100 late_finished
        ≡ record { owner = 1; command = Put 20 9; reply = Some 2 } ∷ [] }
    ensures contents { HasContents (state_of start_pairs 100 late_finished)
        (record { key = 10; value = 1 } ∷ record { key = 20; value = 9 } ∷ []) }
    ensures too_late { ¬ (Lawful start_pairs 100 too_late) }
{}
