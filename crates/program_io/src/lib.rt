//! What a program reads and writes: files that are read whole, and a sink that text is put into.
//!
//! Each is a trait. Its meanings say what is held or written, which calls were made, how many of them failed, and whether a call can fail
//! at all. Memory implements both with known contents and calls that fail on demand. The system's files and a stream implement both, and
//! their contents are not known.
#![tactic(auto)]

mod disk_files;
mod files;
mod memory_files;
mod memory_sink;
mod sink;
mod stream_sink;
mod trail;

pub use disk_files::{DiskFiles, PIECE, read_to_limit};
pub use files::{FileFault, Files};
pub use memory_files::MemoryFiles;
pub use memory_sink::MemorySink;
pub use sink::{Sink, SinkFault};
pub use stream_sink::StreamSink;
