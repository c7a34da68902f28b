//! The records of ELFCLASS32 (System V gABI), each as the bytes that a file holds. A getter returns the number
//! at the offset of its field. `Class32` names the records for code that is generic over the class.
#![tactic(auto)]

mod class;
mod compression_header;
mod dynamic;
mod file_header;
mod program_header;
mod rela;
mod relr;
mod section_header;
mod sym;

pub use class::Class32;
pub use compression_header::CompressionHeader32;
pub use dynamic::Dyn32;
pub use file_header::FileHeader32;
pub use program_header::ProgramHeader32;
pub use rela::Rela32;
pub use relr::Relr32;
pub use section_header::SectionHeader32;
pub use sym::Sym32;
