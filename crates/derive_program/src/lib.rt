//! The program: from the arguments of a command line to the text that its command writes.
//!
//! Arguments, files, layout, tables, writing: each step begins only where the one before it succeeded; a query of one file or of two has a step of its own
//! in place of layout and tables, and `demo` makes its input. The files and the sink are handed in.
#![tactic(auto)]

mod arguments;
mod browsing;
mod finding;
mod laws;
mod line;
mod locating;
mod merging;
mod ran;
mod showing;
mod steps;

pub use arguments::collect_words;
pub use derivation::{DeriveError, Derived, derive_tables};
pub use laws::{replies_are_one, summaries_are_one};
pub use program_io::{
    DiskFiles, FileFault, Files, MemoryFiles, MemorySink, Sink, SinkFault, StreamSink,
};
pub use program_text::Summary;
pub use ran::{FindAnswer, Ran, Tables};
pub use steps::run;
