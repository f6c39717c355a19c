//! The words of a table: what is in a slot or in a status, and where the fields of each row lie.
//! Nothing here allocates. No call fails, but reading a word returns `None` if it is no word of its
//! kind.
//!
//! Read `specs/Meanings.antt`, then `references.rt`, `statuses.rt` and `places.rt`. Builds on
//! `ist_core`, which it needs only for the definitions.
#![tactic(auto)]

pub mod laws;
mod places;
mod references;
mod statuses;

pub use places::{
    ANCHOR, ANCHOR_SLOT_PLACE, ANCHOR_STATUS_PLACE, CALLERS_PLACE, CHANGE_DECISION_OFFSET,
    CHANGE_FROM_OFFSET, CHANGE_INDEX_OFFSET, CHANGE_KEY_OFFSET, CHANGE_KIND_OFFSET,
    CHANGE_NODE_OFFSET, CHANGE_OWNER_OFFSET, CHANGE_TO_OFFSET, CHANGE_VALUE_OFFSET, CHANGE_WORDS,
    FIRST_ROW, INNER_COUNT_OFFSET, INNER_DEGREE_OFFSET, INNER_SIZE_OFFSET, INNER_STATUS_OFFSET,
    LEAF_KEY_OFFSET, LEAF_VALUE_OFFSET, LEAF_WORDS, NEXT_PLACE, PAIR_WORDS, PLACE_LIMIT,
    REBUILD_DRAW_OFFSET, REBUILD_INDEX_OFFSET, REBUILD_PARENT_OFFSET, REBUILD_ROOT_OFFSET,
    REBUILD_TARGET_OFFSET, REBUILD_WORDS, inner_words, key_place, slot_place,
};
pub use references::{EMPTY_WORD, Ref, UNSET_WORD};
pub use statuses::{
    DECIDED_NO, DECIDED_YES, FINISH_KIND, MARKED_WORD, OPEN_WORD, PUT_KIND, REMOVE_KIND,
    START_KIND, Status, UNDECIDED,
};
