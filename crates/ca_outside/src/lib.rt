//! Where bytes come from and go to: sources and sinks, in memory and over the readers and writers of std, and the
//! transfer of all their bytes; and the gate that a worker goes through before each call.
//!
//! To the layers above it promises that a source that tells its bytes gives them in order and loses no more than was
//! asked for, that a sink takes them in order, and that a fault is answered only where a count of faults rose.
//!
//! Source: this profile's own choice; the InfiniBand Architecture Specification knows no streams.
#![tactic(auto)]

mod gate;
mod memory_sink;
mod memory_source;
mod sink;
mod source;
mod std_sink;
mod std_source;
mod sure_sink;
mod sure_source;
mod transfer;

pub use gate::{FreeGate, Gate};
pub use memory_sink::MemorySink;
pub use memory_source::MemorySource;
pub use sink::Sink;
pub use source::{Failed, Source};
pub use std_sink::StdSink;
pub use std_source::StdSource;
pub use sure_sink::SureSink;
pub use sure_source::SureSource;
pub use transfer::{ReadStop, read_up_to, write_all};
