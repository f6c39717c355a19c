//! What a handle of a caller in C holds, and what a call writes to the caller's memory.
//!
//! Read `src/held.rt`, which has the kinds of what a handle holds, then `src/handles.rt`, then the file of
//! each kind. The exports over it are those of `ist_c`. Stands on `ist_tree`, `ist_scan`,
//! `ist_live` and `ist_reopen`.
#![tactic(auto)]

mod closed_trees;
mod handles;
mod held;
mod opaques;
mod owners;
mod pairs;
mod passes;
mod pieces;
mod raw_boxes;
mod results;
mod shot_pieces;
mod shots;
mod trees;

pub use crate::closed_trees::{ClosedTree, LeftPairs};
pub use crate::handles::Handle;
pub use crate::held::Held;
pub use crate::opaques::Opaque;
pub use crate::owners::{PAIRS_LIMIT, TreeOwner};
pub use crate::pairs::{are_rising, sorted_pairs, write_pair, write_pairs};
pub use crate::passes::{TreeNote, TreePass};
pub use crate::pieces::{Piece, read_piece};
pub use crate::results::{
    BUSY, CallResult, DONE, FULL, MEMORY, MISUSE, NO_KEY, SMALL, Shortage, Stats, misused, refused,
    replied,
};
pub use crate::shots::TreeShot;
pub use crate::trees::NumberedTree;
