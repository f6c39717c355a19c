//! Where bytes come from and where they go, with counts of the faults on the way.
//!
//! Read `specs/Bytes.antt`, `sources.rt` and `sinks.rt`, and then `whole.rt`. The objects in memory
//! are in `quiet.rt` and `memory.rt`, the adapters over a reader and a writer in `streams.rt`, and the
//! one that holds bytes back in `buffered.rt`. Stands on nothing.
#![tactic(auto)]

mod buffered;
mod calls;
mod memory;
mod quiet;
mod sinks;
mod sources;
mod streams;
mod whole;

pub use buffered::{BufferedSink, HELD_LIMIT};
pub use memory::{MemorySink, MemorySource};
pub use quiet::{QuietSink, QuietSource};
pub use sinks::{Sink, SinkFault};
pub use sources::{Failed, Source};
pub use streams::{ReadSource, WriteSink};
pub use whole::write_whole;
