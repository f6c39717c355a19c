//! Where the fixed words of a table lie, how long its rows are, and at which offsets from its base
//! the fields of each row lie.
ghost use Rattle.std.specs.Prelude.{◌≡◌, ◌<◌, ◌≤◌};
ghost use Rattle.ist_core.specs.RowLayout.{inner_words, key_place, slot_place, place_limit};

/// Every place of a table is below this number.
pub const PLACE_LIMIT: u64 = 1 << 28;

/// The word that holds the place of the first free word.
pub const NEXT_PLACE: u64 = 0;
/// The word that holds how many callers have entered.
pub const CALLERS_PLACE: u64 = 1;
/// The base of the anchor, the node without keys above the whole tree.
pub const ANCHOR: u32 = 2;
/// The status of the anchor.
pub const ANCHOR_STATUS_PLACE: u64 = 2;
/// The one slot of the anchor.
pub const ANCHOR_SLOT_PLACE: u64 = 3;
/// The lowest base of a row.
pub const FIRST_ROW: u32 = 4;

/// How many words a leaf takes.
pub const LEAF_WORDS: u64 = 2;
/// The key of a leaf.
pub const LEAF_KEY_OFFSET: u64 = 0;
/// The value of a leaf.
pub const LEAF_VALUE_OFFSET: u64 = 1;

/// How many words a pair row takes, the inner row over two leaves that an update makes.
pub const PAIR_WORDS: u64 = 7;
/// The status of an inner row.
pub const INNER_STATUS_OFFSET: u64 = 0;
/// How many updates were counted below an inner row.
pub const INNER_COUNT_OFFSET: u64 = 1;
/// How many slots an inner row has.
pub const INNER_DEGREE_OFFSET: u64 = 2;
/// How many keys an inner row was built over.
pub const INNER_SIZE_OFFSET: u64 = 3;

/// How many words a change takes.
pub const CHANGE_WORDS: u64 = 9;
/// Whether a change was decided, and how.
pub const CHANGE_DECISION_OFFSET: u64 = 0;
/// What a change is for.
pub const CHANGE_KIND_OFFSET: u64 = 1;
/// The base of the node in whose slot a change is installed.
pub const CHANGE_NODE_OFFSET: u64 = 2;
/// The number of that slot.
pub const CHANGE_INDEX_OFFSET: u64 = 3;
/// The word that a change takes out of the slot.
pub const CHANGE_FROM_OFFSET: u64 = 4;
/// The word that a change puts into the slot.
pub const CHANGE_TO_OFFSET: u64 = 5;
/// The number of the caller that made a change.
pub const CHANGE_OWNER_OFFSET: u64 = 6;
/// The key of the command that a change carries out, or 0.
pub const CHANGE_KEY_OFFSET: u64 = 7;
/// The value of the command that a change carries out, or 0.
pub const CHANGE_VALUE_OFFSET: u64 = 8;

/// How many words a rebuild takes.
pub const REBUILD_WORDS: u64 = 5;
/// The base of the node that is rebuilt.
pub const REBUILD_TARGET_OFFSET: u64 = 0;
/// The base of the target's parent.
pub const REBUILD_PARENT_OFFSET: u64 = 1;
/// The number of the target's slot in its parent.
pub const REBUILD_INDEX_OFFSET: u64 = 2;
/// The word that names the root of the new subtree.
pub const REBUILD_ROOT_OFFSET: u64 = 3;
/// How many parts of a shared root were drawn.
pub const REBUILD_DRAW_OFFSET: u64 = 4;

/// Returns how many words an inner row of this degree takes.
pub fn inner_words(degree: u64) -> u64
    requires fits { degree < place_limit }
    ensures value { result ≡ inner_words degree }
{
    2 * degree + 3
}

/// Returns the place of key `j` of the inner row at `base`, counted from 1: the smallest key below
/// slot `j` when the row was built.
pub fn key_place(base: u32, j: u64) -> u64
    requires first { 1 ≤ j }
    requires fits { j < place_limit }
    ensures value { result ≡ key_place base j }
{
    u64::from(base) + 3 + j
}

/// Returns the place of slot `i` of the inner row of this degree at `base`, counted from 0.
pub fn slot_place(base: u32, degree: u64, i: u64) -> u64
    requires within { i < degree }
    requires fits { degree < place_limit }
    ensures value { result ≡ slot_place base degree i }
{
    u64::from(base) + 3 + degree + i
}
