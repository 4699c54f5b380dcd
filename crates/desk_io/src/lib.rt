//! Sources and sinks of bytes, and whole reads and writes over them. A source or sink counts its calls that failed.
#![tactic(auto)]

mod device;
mod link;
mod memory;
mod stream;
#[cfg(test)]
mod tests;
mod whole;

pub use device::{Got, Put, Sink, Source};
pub use link::Link;
pub use memory::{MemorySink, MemorySource, memory_sink};
pub use stream::{StdSink, StdSource};
pub use whole::{READ_PIECE, ReadError, SinkFault, read_all, write_all};
