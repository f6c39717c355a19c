//! What the laws mean on small logs. The functions take no steps: contracts are facts.
ghost use Rattle.std.specs.Prelude.{◌≡◌, [], ◌∷◌, replicate, Some, None};
ghost use Rattle.ist_core.specs.declared.commands.Command.TheVariants.{Put};
ghost use Rattle.ist_core.specs.Map.{map_of};
ghost use Rattle.ist_core.specs.References.{InnerAt, RebuildAt, word_of, unset_word};
ghost use Rattle.ist_core.specs.Slots.{SlotHolds};
ghost use Rattle.ist_core.specs.Rebuilding.{IsBuilt};
ghost use Rattle.ist_core.specs.Leaves.{HasContents};
ghost use Rattle.ist_core.specs.Changes.{changes_of};
ghost use Rattle.ist_core.specs.Lawful.{Lawful, state_of};
ghost use Rattle.ist_core.specs.Standing.{StandsIn, IsFresh};
ghost use Rattle.ist_core.specs.Histories.{woven, IsLegal};
ghost use Rattle.ist_core.specs.ExampleTables.{pair};
ghost use Rattle.ist_core.specs.ExampleLogs.{put_decided, put_resolved};
ghost use Rattle.ist_core.specs.ExampleLogs.{start_pairs, rebuild_replaced};
ghost use Rattle.ist_core.specs.ExampleLogs.{late_marked, late_resolved, late_finished};
ghost use Rattle.laws_histories.specs.Searching.{Searched};
ghost use Rattle.laws_histories.specs.ExampleCalls.{refused, early_find, late_find, writer, reader};
ghost use Rattle.laws_histories.specs.ExampleCalls.{one_history};
ghost use Rattle.laws_histories.specs.ExampleRebuilds.{three_pairs, left_refused, left_too_late};
ghost use Rattle.laws_histories.specs.ExampleShares.{many_pairs, share_placed};

/// A put of (1, 1) into an empty table is its one change, and the contents are this pair.
pub fn a_put_moves_the_map()
    ensures changes { changes_of [] 15 put_resolved
        ≡ record { owner = 0; command = Put 1 1; reply = None } ∷ [] }
    ensures contents { HasContents (state_of [] 15 put_resolved) (pair 1 1 ∷ []) }
{}

/// A whole rebuild makes no change of the map.
pub fn a_rebuild_leaves_the_map()
    ensures changes { changes_of start_pairs 100 rebuild_replaced ≡ [] }
{}

/// A put that is installed only after the mark of its node is decided no and leaves its slot. It
/// makes no change of the map, and the contents stay.
pub fn a_refused_put_leaves_the_map()
    ensures lawful { Lawful start_pairs 100 refused }
    ensures changes { changes_of start_pairs 100 refused ≡ [] }
    ensures contents { HasContents (state_of start_pairs 100 refused) start_pairs }
{}

/// A search that loads the put's change from the slot while it is undecided. If it loads the
/// decision after the yes, it finds the value; if it loads the decision earlier, it finds none.
pub fn a_search_reads_a_change()
    ensures following { Searched [] 15 put_decided 1 4 2 (Some 1) }
    ensures before { Searched [] 15 put_decided 1 4 2 None }
{}

/// Two passes on the log of a put that a rebuild overtakes. One pass has made the put. The first
/// find of the other comes before the put, also in the log as it was then, and its second find sees
/// the put. Woven they are one legal history.
pub fn two_passes_are_woven()
    ensures writer { StandsIn start_pairs 100 late_finished writer.number writer.calls }
    ensures early { StandsIn start_pairs 100 late_marked reader.number (early_find ∷ []) }
    ensures reader { StandsIn start_pairs 100 late_finished reader.number reader.calls }
    ensures fresh { IsFresh start_pairs 100 late_resolved early_find.stamp late_find }
    ensures woven { woven (changes_of start_pairs 100 late_finished) (writer ∷ reader ∷ [])
        ≡ one_history }
    ensures legal { IsLegal (map_of start_pairs) one_history }
{}

/// The rebuild of a row that eight puts made due is carried through to its root, and meanwhile the
/// row above it is marked for a rebuild of its own. The finish is installed after this mark,
/// decided no, and leaves its slot, which holds the rebuild again. The contents stay.
///
/// Nobody can have seen the upper row open after the mark, and yes isn't lawful.
pub fn a_finish_too_late_is_refused()
    ensures lawful { Lawful three_pairs 200 left_refused }
    ensures contents { HasContents (state_of three_pairs 200 left_refused) three_pairs }
    ensures slot { SlotHolds (state_of three_pairs 200 left_refused) 4 0 (word_of (RebuildAt 112)) }
    ensures changes { changes_of three_pairs 200 left_refused
        ≡ replicate 8 record { owner = 0; command = Put 10 1; reply = Some 1 } }
    ensures too_late { ¬ (Lawful three_pairs 200 left_too_late) }
{}

/// The rebuild of a tree of 256 pairs gets a shared root, and its first part is drawn, built and
/// placed. The root has that part in its first slot and Unset in its second, so it isn't built yet.
/// The contents stay.
pub fn a_shared_root_is_lawful()
    ensures lawful { Lawful many_pairs 3000 share_placed }
    ensures next { (state_of many_pairs 3000 share_placed).next ≡ 2215 }
    ensures part { let t = state_of many_pairs 3000 share_placed in
        SlotHolds t 2085 0 (word_of (InnerAt 2120)) }
    ensures unset { SlotHolds (state_of many_pairs 3000 share_placed) 2085 1 unset_word }
    ensures unbuilt { let t = state_of many_pairs 3000 share_placed in
        ¬ (IsBuilt t (word_of (InnerAt 2085))) }
    ensures contents { HasContents (state_of many_pairs 3000 share_placed) many_pairs }
{}
