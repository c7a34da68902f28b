//! The records of ELFCLASS64 (System V gABI), each as the bytes that a file holds. A getter returns the number
//! at the offset of its field. `Class64` names the records for code that is generic over the class.
#![tactic(auto)]

mod class;
mod compression_header;
mod dynamic;
mod file_header;
mod program_header;
mod rela;
mod relr;
mod section_header;
mod sym;

pub use class::Class64;
pub use compression_header::CompressionHeader64;
pub use dynamic::Dyn64;
pub use file_header::FileHeader64;
pub use program_header::ProgramHeader64;
pub use rela::Rela64;
pub use relr::Relr64;
pub use section_header::SectionHeader64;
pub use sym::Sym64;
