//! Ordered reads of a tree while others change it: the next pair above or below a key, the pairs between two
//! keys, and a cursor. They only load words. Each key that they speak of has a position of its own.
//!
//! Read `specs/Reading.antt`, then `ends.rt`, `lists.rt` and `cursors.rt`. Stands on `ist_core`,
//! `laws_histories`, `ist_find` and `ist_tree`.
#![tactic(auto)]

mod cursors;
mod ends;
mod lists;
mod parts;

pub use cursors::Live;
pub use ends::{at_least, at_most};
pub use lists::list_live;
