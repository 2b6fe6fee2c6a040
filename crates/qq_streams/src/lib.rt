// The outside of the program: sources of bytes, sinks of bytes, and their faults.
//
// It stands on `qq_base` for want of memory alone. A stream may tell its bytes to contracts (a memory
// stream does) or keep them untold (the standard streams do), and it always counts its faults. The layer
// above uses the clauses of `read_all` and `write_all`: which bytes were read or written, and that a fault
// is answered only where the stream's count of faults rose in that call.
#![tactic(auto)]

mod failing;
mod memory_sink;
mod memory_source;
mod reading;
mod sink;
mod source;
mod std_streams;
mod writing;

pub use memory_sink::MemorySink;
pub use memory_source::MemorySource;
pub use reading::{ReadAllFault, read_all};
pub use sink::{Sink, SinkFault};
pub use source::{Source, SourceFault};
pub use std_streams::{StdSink, StdSource};
pub use writing::{WriteFault, write_all};

#[cfg(test)]
mod tests;
