//! The words of a new table: the fixed words, the ideal tree of its pairs row by row, and then
//! zeros.
//!
//! Read `images.rt`, then `laying.rt` and `rows.rt`. Builds on `ist_core`, `ist_math` and `ist_layout`.
#![tactic(auto)]

mod cuts;
mod images;
mod laying;
mod rows;

pub use images::{Image, lay_image, needed_words};
pub use rows::tree_word;
