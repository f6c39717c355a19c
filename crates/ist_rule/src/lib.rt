//! The table under its rule: between any two atomic steps its words are the image of a lawful log,
//! and each step is one event of it or changes no state.
//!
//! Read `specs/Lib.antt`, then `view.rt`, then `steps.rt`. Builds on `ist_core`, `ist_layout` and
//! `atomic_table`.
#![tactic(auto)]

mod calling;
mod opening;
mod plays;
mod seating;
mod steps;
mod table;
mod view;
mod watching;

pub use calling::{begin_call, begin_read, begin_search, end_call, give_up, glance};
pub use opening::{close, know, open_table, open_table_over};
pub use seating::{join, split};
pub use steps::{add, exchange, exchange_all, exchange_or_lose, load, load_top, store};
pub use table::{TreeTable, TreeToken, word_count};
pub use view::{About, Loads, Met, OwnWord, Pending, Taken, TreeRule, View};
pub use watching::{load_okay, load_pass, load_past};
