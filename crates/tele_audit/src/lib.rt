//! Dumps of closed tables, and the audit of dumps that anyone may have written.
//!
//! Read `specs/Dumps.antt` and `specs/Flaws.antt`, then `dumps.rt`, `auditing.rt` and `audits.rt`; of the program
//! `specs/Runs.antt` and `runs.rt`. Stands on `ist_core`, `ist_math`, `ist_layout`, `laws_links`,
//! `ist_image`, `ist_rest`, `plain_map`, `tele_io` and `tele_lines`.
#![tactic(auto)]

mod auditing;
mod audits;
mod dumps;
mod flaws;
mod heads;
mod jobs;
pub mod laws;
mod marks;
mod numbers;
mod outcomes;
mod packing;
mod pieces;
mod runs;
mod tables;
mod taking;
mod tasks;
mod texts;
pub mod word_laws;

pub use audits::{Audited, audit};
pub use dumps::dump;
pub use flaws::{AuditFault, Flaw};
pub use outcomes::{BAD_LINE, DONE, FLAWED, NO_MEMORY, READ_FAILED, USAGE, WRITE_FAILED};
pub use runs::audit_run;
