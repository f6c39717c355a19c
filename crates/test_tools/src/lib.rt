//! What tests and the programs that try the tree share: numbers, kinds of calls and keys that are drawn
//! from a seed; command lines; and a judge of whether the replies that threads got from one map fit an
//! order of their calls.
//!
//! Read `drawing.rt`, `sharing.rt`, `spreads.rt`, `openings.rt` and `options.rt`; of the judge
//! `telling.rt`, then `Order::of` in `orders.rt`, `times.rt`, and `judge_moments` in `cuts.rt`. Doesn't use the
//! tree; stands on `ist_core`, `plain_map` and `clap`.
#![tactic(auto)]

mod chains;
mod cuts;
mod drawing;
mod misfits;
mod openings;
mod options;
mod orders;
mod sharing;
mod spreads;
mod telling;
mod times;

pub use cuts::judge_moments;
pub use drawing::Draws;
pub use misfits::Misfit;
pub use openings::opening_pairs;
pub use options::{
    FAILED, JUDGE_STATUSES, Job, NumberOption, USAGE, WRONG, arguments, exit_code, number,
    read_words, with_numbers,
};
pub use orders::Order;
pub use sharing::{Kind, Shares};
pub use spreads::Spread;
pub use telling::{Asked, Told};
pub use times::{Clock, Timed, When};
