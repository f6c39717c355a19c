//! One tree after another: a tree that begins with exactly the pairs that the calls of a closed tree
//! left, and the one history of the calls on all of these trees. Starts no thread and waits for none.
//!
//! Read `specs/Reopening.antt` and `reopening.rt`, then `specs/Generations.antt`,
//! `specs/Interleaving.antt` and `laws.rt`. Uses `ist_tree`, `ist_rest` and `ist_image`, and the laws
//! of `laws_histories`.
#![tactic(auto)]

mod faults;
pub mod laws;
mod reopening;

pub use faults::{NotReopened, ReopenFault};
pub use reopening::{MOST_WORDS, open_after, reopen};
