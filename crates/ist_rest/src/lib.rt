//! The words of a tree after its last call: the pairs that they hold, how many are used, and whether
//! all nodes are settled.
//!
//! Of words alone, wherever they come from, read `specs/WordRows.antt`, `specs/Walks.antt` and
//! `specs/RestingWords.antt`, then `listing.rt`; of a closed tree `specs/Standings.antt` and
//! `closed.rt`, then `specs/Settling.antt`. Stands on `ist_core`, `ist_math`, `ist_layout`,
//! `laws_links`, `laws_histories`, `laws_calls` and `atomic_table`.
#![tactic(auto)]

mod bounds;
mod children;
mod closed;
pub mod laws;
mod listing;
mod reading;
mod rows;
mod settling;
mod slots;
mod words;

pub use bounds::are_in_bounds;
pub use closed::Closed;
pub use listing::{all_words, list_words};
pub use reading::{is_within, past_change, past_rebuild, reads};
pub use rows::{degree_at, key_at, leaf_pair, slot_at};
pub use words::WordList;
