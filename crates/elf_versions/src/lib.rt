//! Symbol versions (GNU symbol versioning; LSB, Symbol Versioning): the chains of version records, the names of
//! versions by their indexes, and a symbol's name with its version. All is over the bytes of sections and the
//! strings that these are linked to. The definitions are those of `elf_format`.
#![tactic(auto)]

mod chain;
mod defined;
mod error;
mod heads;
mod laws;
mod name;
mod name_table;
mod needed;
mod step;
mod strings;
mod symbol_text;
mod version_debug;

pub use chain::{Chain, ChainRecord, VerdauxIter, VernauxIter};
pub use defined::VersionNames;
pub use error::VersionError;
pub use heads::{ChainHead, HeadChain, VerdefIter, VerneedIter};
pub use laws::{chains_are_bounded, names_are_printed_back, version_causes_are_one};
pub use name::{RawSymbolName, raw_symbol_name};
pub use needed::VerneedTable;
pub use strings::string_at;
pub use version_debug::version_text;
