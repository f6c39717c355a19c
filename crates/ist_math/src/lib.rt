//! Arithmetic of the tree: how many children a node has, which keys each has, how many words a
//! subtree takes, when a node is due for a rebuild, and in which child a key lies. Nothing here
//! allocates, and no call fails.
//!
//! Read `specs/Guess.antt`, then `shares.rt`, `sizes.rt` and `children.rt`. `laws.rt` has what
//! follows from the definitions. Builds on `ist_core`.
#![tactic(auto)]

mod children;
mod gallops;
pub mod laws;
mod parts;
mod quotients;
mod shares;
mod sizes;
pub mod tables;

pub use children::{ChildFound, FEW_KEYS, child_and_looks, child_of, guess};
pub use gallops::Gallop;
pub use parts::Part;
pub use shares::{degree, part};
pub use sizes::{SHARE_FROM, ideal_words, limit};
