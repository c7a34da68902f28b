//! A relocation of either form (gABI, Relocation; CREL as LLVM defines it).

ghost use Rattle.std.specs.Prelude.{◌≡◌, option_map};
ghost use Rattle.elf_format.specs.Rela.{symbol_of};

use crate::relocation::{ElfCrel, ElfRela, Relocation};
use elf_words::{ElfClass, SymbolIndex};

/// A relocation, by the form of the list that it comes from.
#[derive(Clone, Copy)]
pub enum Rel<C: ElfClass> {
    /// A RELA record.
    Rela(ElfRela<C>),
    /// A record of a list in CREL.
    Crel(ElfCrel<C>),
}

impl<C: ElfClass> Relocation for Rel<C> {
    ghost use Rattle.elf_relocs.specs.Lists.{rel_values};

    ghost relocation = { rel_values };

    fn symbol(&self) -> Option<SymbolIndex> {
        match self {
            Rel::Rela(rela) => rela.symbol(),
            Rel::Crel(crel) => crel.symbol(),
        }
    }

    fn raw_type(&self) -> u32 {
        match self {
            Rel::Rela(rela) => rela.raw_type(),
            Rel::Crel(crel) => crel.raw_type(),
        }
    }

    fn offset(&self) -> u64 {
        match self {
            Rel::Rela(rela) => rela.offset(),
            Rel::Crel(crel) => crel.offset(),
        }
    }

    fn addend(&self) -> i64 {
        match self {
            Rel::Rela(rela) => rela.addend(),
            Rel::Crel(crel) => crel.addend(),
        }
    }
}
