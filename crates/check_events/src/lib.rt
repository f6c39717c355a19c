//! Decides for single events whether they may come next after a log. Nothing here runs beside a
//! table.
//!
//! Read `specs/Lib.antt`, then `replicas.rt` and `pasts.rt`, and the files that decide events:
//! `entering.rt`, `installing.rt`, `deciding.rt`, `counting.rt` and `marking.rt`. Stands on
//! `ist_core`, `ist_math`, `ist_layout` and `check_fairness`.
#![tactic(auto)]

mod climbing;
mod counting;
mod deciding;
mod entering;
mod held;
mod installing;
mod kinds;
mod leaves;
mod marking;
mod naming;
mod nodes;
mod pairs;
mod pasts;
mod replicas;
mod rows;

pub use climbing::was_linked;
pub use counting::can_count;
pub use deciding::{can_decide, can_okay, can_resolve};
pub use entering::{can_enter, can_reserve};
pub use held::{HeldTable, hold, let_go, no_rows, rows_held, sizes_held};
pub use installing::can_install;
pub use leaves::FoundLeaf;
pub use marking::{can_finish, can_mark, can_pass, target_keys};
pub use naming::{inner_of_word, leaf_of_word, names_nothing, rebuild_of_word};
pub use nodes::{finished_keys, holds_at, is_open, slot_holds};
pub use pasts::{BuildTable, LastUpdate, Past, RowWay, Slot, pair_key};
pub use replicas::Replica;
pub use rows::{change_of_words, holds_row, holds_rows, size_at};
