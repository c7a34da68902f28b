//! Relocations of a section (System V gABI, Relocation): RELA records, or CREL, their compact form with
//! section type 0x40000014, as LLVM defines it. A view decodes a RELA record at an index; a decoder and an
//! encoder handle CREL; a sequence holds the decoded relocations of either form. All is generic over the
//! class.
#![tactic(auto)]

mod crel;
mod encode;
mod fault;
mod laws;
mod list;
mod record;
mod rel;
mod rel_iter;
mod rela;
mod rela_sequence;
mod relocation;
mod sequence;
mod vector;

pub use crel::CrelIterator;
pub use elf_format::{Crel, CrelError};
pub use encode::encode_crel;
pub use fault::CrelFault;
pub use laws::list_causes_are_one;
pub use list::RelocationList;
pub use rel::Rel;
pub use rel_iter::RelIter;
pub use rela::RelaView;
pub use rela_sequence::RelaSequence;
pub use relocation::{ElfCrel, ElfRela, Relocation};
pub use sequence::RelocationSequence;
