//! What the load balancer has of the outside: a source of bytes, a shelf of named texts, a sink for what is printed, and a gate that
//! a packet passes. Each is a trait whose clauses say what is known of the bytes, where anything is known, and that a fault has a cause.
//!
//! | part | what it is |
//! |---|---|
//! | `Source`, `Shelf`, `Sink`, `Gate` | the traits |
//! | `ReadSource`, `FileShelf`, `WriteSink`, `OpenGate` | what the program runs on: std's reader, files and writer |
//! | `MemSource`, `MemShelf`, `MemSink` | in memory, with a list of the calls that fail |
//! | `SureSource`, `SureShelf`, `SureSink` | in memory, where no call fails: the law is `read_surely` and its like |
//! | `Window` | the bytes of a source that were read and aren't used yet: a line or a record is looked at in place |
//! | `ReadFault`, `WriteFault` | a failure of a source or a sink, as an error |
#![tactic(auto)]

mod bounded_bytes;
mod calls;
mod copied;
mod file_shelf;
mod gate;
mod mem_shelf;
mod mem_sink;
mod mem_source;
mod read_fault;
mod read_source;
mod shelf;
mod sink;
mod source;
mod sure_shelf;
mod sure_sink;
mod sure_source;
mod surely;
mod window;
mod write_fault;
mod write_sink;

pub use file_shelf::FileShelf;
pub use gate::{Gate, OpenGate};
pub use mem_shelf::MemShelf;
pub use mem_sink::MemSink;
pub use mem_source::MemSource;
pub use read_fault::ReadFault;
pub use read_source::ReadSource;
pub use shelf::{FetchRefusal, Shelf};
pub use sink::{Put, Sink};
pub use source::{Got, Source};
pub use sure_shelf::SureShelf;
pub use sure_sink::SureSink;
pub use sure_source::SureSource;
pub use surely::{fetch_surely, flush_surely, read_surely, write_surely};
pub use window::Window;
pub use write_fault::WriteFault;
pub use write_sink::WriteSink;

#[cfg(test)]
mod tests;
