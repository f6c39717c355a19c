//! The constants have the values of the definitions, and each word names one reference or one
//! status. Each law is the contract of a function that does nothing.
ghost use Rattle.std.specs.Prelude.{◌≡◌, ℕ, ◌<◌, Some};
ghost use Rattle.ist_core.specs.References.{Ref, word_of, ref_of, IsGoodRef};
ghost use Rattle.ist_core.specs.RowLayout as layout;
ghost use Rattle.ist_core.specs.Statuses.{Status, Open, Marked, Finished, status_word, status_of, keys_limit};
ghost use Rattle.ist_core.specs.Statuses as words;

use crate::places::{
    ANCHOR, ANCHOR_SLOT_PLACE, ANCHOR_STATUS_PLACE, CALLERS_PLACE, CHANGE_DECISION_OFFSET,
    CHANGE_FROM_OFFSET, CHANGE_INDEX_OFFSET, CHANGE_KEY_OFFSET, CHANGE_KIND_OFFSET,
    CHANGE_NODE_OFFSET, CHANGE_OWNER_OFFSET, CHANGE_TO_OFFSET, CHANGE_VALUE_OFFSET, CHANGE_WORDS,
    FIRST_ROW, INNER_COUNT_OFFSET, INNER_DEGREE_OFFSET, INNER_SIZE_OFFSET, INNER_STATUS_OFFSET,
    LEAF_KEY_OFFSET, LEAF_VALUE_OFFSET, LEAF_WORDS, NEXT_PLACE, PAIR_WORDS, PLACE_LIMIT,
    REBUILD_DRAW_OFFSET, REBUILD_INDEX_OFFSET, REBUILD_PARENT_OFFSET, REBUILD_ROOT_OFFSET,
    REBUILD_TARGET_OFFSET, REBUILD_WORDS,
};
use crate::statuses::{
    DECIDED_NO, DECIDED_YES, FINISH_KIND, PUT_KIND, REMOVE_KIND, START_KIND, UNDECIDED,
};

/// The fixed words of a table lie where the definitions say.
pub fn fixed_places_agree()
    ensures next_place { NEXT_PLACE ≡ layout.next_place }
    ensures callers_place { CALLERS_PLACE ≡ layout.callers_place }
    ensures anchor { ANCHOR ≡ layout.anchor }
    ensures anchor_status_place { ANCHOR_STATUS_PLACE ≡ layout.anchor_status_place }
    ensures anchor_slot_place { ANCHOR_SLOT_PLACE ≡ layout.anchor_slot_place }
    ensures first_row { FIRST_ROW ≡ layout.first_row }
    ensures place_limit { PLACE_LIMIT ≡ layout.place_limit }
{}

/// A leaf is laid out as the definitions say.
pub fn leaves_agree()
    ensures leaf_words { LEAF_WORDS ≡ layout.leaf_words }
    ensures leaf_key_offset { LEAF_KEY_OFFSET ≡ layout.leaf_key_offset }
    ensures leaf_value_offset { LEAF_VALUE_OFFSET ≡ layout.leaf_value_offset }
{}

/// An inner row is laid out as the definitions say.
pub fn inner_rows_agree()
    ensures pair_words { PAIR_WORDS ≡ layout.pair_words }
    ensures inner_status_offset { INNER_STATUS_OFFSET ≡ layout.inner_status_offset }
    ensures inner_count_offset { INNER_COUNT_OFFSET ≡ layout.inner_count_offset }
    ensures inner_degree_offset { INNER_DEGREE_OFFSET ≡ layout.inner_degree_offset }
    ensures inner_size_offset { INNER_SIZE_OFFSET ≡ layout.inner_size_offset }
{}

/// A change is laid out as the definitions say.
pub fn changes_agree()
    ensures change_words { CHANGE_WORDS ≡ layout.change_words }
    ensures change_decision_offset { CHANGE_DECISION_OFFSET ≡ layout.change_decision_offset }
    ensures change_kind_offset { CHANGE_KIND_OFFSET ≡ layout.change_kind_offset }
    ensures change_node_offset { CHANGE_NODE_OFFSET ≡ layout.change_node_offset }
    ensures change_index_offset { CHANGE_INDEX_OFFSET ≡ layout.change_index_offset }
    ensures change_from_offset { CHANGE_FROM_OFFSET ≡ layout.change_from_offset }
    ensures change_to_offset { CHANGE_TO_OFFSET ≡ layout.change_to_offset }
    ensures change_owner_offset { CHANGE_OWNER_OFFSET ≡ layout.change_owner_offset }
    ensures change_key_offset { CHANGE_KEY_OFFSET ≡ layout.change_key_offset }
    ensures change_value_offset { CHANGE_VALUE_OFFSET ≡ layout.change_value_offset }
{}

/// A rebuild is laid out as the definitions say.
pub fn rebuilds_agree()
    ensures rebuild_words { REBUILD_WORDS ≡ layout.rebuild_words }
    ensures rebuild_target_offset { REBUILD_TARGET_OFFSET ≡ layout.rebuild_target_offset }
    ensures rebuild_parent_offset { REBUILD_PARENT_OFFSET ≡ layout.rebuild_parent_offset }
    ensures rebuild_index_offset { REBUILD_INDEX_OFFSET ≡ layout.rebuild_index_offset }
    ensures rebuild_root_offset { REBUILD_ROOT_OFFSET ≡ layout.rebuild_root_offset }
    ensures rebuild_draw_offset { REBUILD_DRAW_OFFSET ≡ layout.rebuild_draw_offset }
{}

/// Decisions and kinds are the words of the definitions.
pub fn decisions_and_kinds_agree()
    ensures undecided { UNDECIDED ≡ words.undecided }
    ensures decided_yes { DECIDED_YES ≡ words.decided_yes }
    ensures decided_no { DECIDED_NO ≡ words.decided_no }
    ensures put_kind { PUT_KIND ≡ words.put_kind }
    ensures remove_kind { REMOVE_KIND ≡ words.remove_kind }
    ensures start_kind { START_KIND ≡ words.start_kind }
    ensures finish_kind { FINISH_KIND ≡ words.finish_kind }
{}

/// A good reference is read back from its word, and what is read from a word is good and has this
/// word.
pub fn words_name_one_reference()
    ensures read_back { (ref : Ref) → IsGoodRef ref → ref_of (word_of ref) ≡ Some ref }
    ensures good { (word : ℕ) (ref : Ref) → ref_of word ≡ Some ref → IsGoodRef ref }
    ensures same_word { (word : ℕ) (ref : Ref) → ref_of word ≡ Some ref → word_of ref ≡ word }
{}

/// A status is read back from its word, and what is read from a word has this word.
pub fn words_name_one_status()
    ensures open { status_of (status_word Open) ≡ Some Open }
    ensures marked { status_of (status_word Marked) ≡ Some Marked }
    ensures finished { (k : ℕ) → k < keys_limit
        → status_of (status_word (Finished k)) ≡ Some (Finished k) }
    ensures same_word { (word : ℕ) (s : Status) → status_of word ≡ Some s → status_word s ≡ word }
{}
