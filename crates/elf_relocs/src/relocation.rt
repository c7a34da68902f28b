//! A relocation of either form (gABI, Relocation: `r_offset`, `r_info`, `r_addend`; CREL as LLVM defines it). It is
//! kept as its values: offset, symbol index, relocation type and addend.

ghost use Rattle.std.specs.Prelude.{◌≡◌, option_map};
ghost use Rattle.elf_format.specs.declared.crel.Crel.{Crel};
ghost use Rattle.elf_format.specs.Crel.{IsCrel};
ghost use Rattle.elf_format.specs.Rela.{rela_values, symbol_of};

use elf_format::Crel;
use elf_words::{ElfClass, RelaFields, SymbolIndex};
use std::marker::PhantomData;

/// A relocation's values.
pub trait Relocation {
    // the values of a relocation
    ghost relocation: { Self → Crel };

    /// Returns the index of the relocation's symbol, or None for symbol 0, which is no symbol.
    fn symbol(&self) -> Option<SymbolIndex>
        ensures { option_map (λ s. s.0) result ≡ symbol_of (relocation self.now).symbol };

    /// Returns the relocation type (`r_type`), whose meaning depends on the machine.
    fn raw_type(&self) -> u32
        ensures { result ≡ (relocation self.now).kind };

    /// Returns where the relocation applies (`r_offset`): in a relocatable object, the offset in bytes from the
    /// start of the section.
    fn offset(&self) -> u64
        ensures { result ≡ (relocation self.now).offset };

    /// Returns what is added to the symbol's value (`r_addend`).
    fn addend(&self) -> i64
        ensures { result ≡ (relocation self.now).addend };
}

/// Returns a symbol's index, or None for symbol 0.
fn index_of_symbol(symbol: u32) -> Option<SymbolIndex>
    ensures { option_map (λ s. s.0) result ≡ symbol_of symbol }
{
    if symbol == 0 {
        return None;
    }
    Some(SymbolIndex(symbol as usize))
}

impl Relocation for Crel {
    ghost relocation = { λ r. r };

    fn symbol(&self) -> Option<SymbolIndex> {
        index_of_symbol(self.symbol)
    }

    fn raw_type(&self) -> u32 {
        self.kind
    }

    fn offset(&self) -> u64 {
        self.offset
    }

    fn addend(&self) -> i64 {
        self.addend
    }
}

/// A relocation of a list in CREL, decoded.
#[derive(Clone, Copy)]
pub struct ElfCrel<C: ElfClass> {
    /// Offset, symbol index (0 for none), relocation type and addend.
    pub values: Crel,
    class: PhantomData<C>,
}

impl<C: ElfClass> ElfCrel<C> {
    /// Makes a relocation with the values of a decoded record.
    pub fn new(entry: Crel) -> ElfCrel<C>
        ensures { result.values ≡ entry }
    {
        ElfCrel {
            values: entry,
            class: PhantomData,
        }
    }

    /// Returns the values, which contracts then know to fit their types.
    pub(crate) fn entry(&self) -> Crel
        ensures value { result ≡ self.now.values }
        ensures fits { IsCrel result }
    {
        let entry = self.values;
        Crel {
            offset: entry.offset,
            symbol: entry.symbol,
            kind: entry.kind,
            addend: entry.addend,
        }
    }
}

impl<C: ElfClass> Relocation for ElfCrel<C> {
    ghost relocation = { λ r. r.values };

    fn symbol(&self) -> Option<SymbolIndex> {
        self.values.symbol()
    }

    fn raw_type(&self) -> u32 {
        self.values.raw_type()
    }

    fn offset(&self) -> u64 {
        self.values.offset()
    }

    fn addend(&self) -> i64 {
        self.values.addend()
    }
}

/// A relocation of a RELA record, decoded.
#[derive(Clone, Copy)]
pub struct ElfRela<C: ElfClass> {
    /// Offset, symbol index (0 for none), relocation type and addend.
    pub values: Crel,
    class: PhantomData<C>,
}

impl<C: ElfClass> ElfRela<C> {
    /// Decodes a RELA record.
    #[tactic(auto, unfolding(elf_format::specs::Rela::rela_values))]
    pub fn new(entry: C::Rela) -> ElfRela<C>
        ensures { result.values ≡ rela_values C.class (C.Rela.contents entry) }
    {
        ElfRela {
            values: Crel {
                offset: entry.r_offset(),
                symbol: entry.r_sym(),
                kind: entry.r_type(),
                addend: entry.r_addend(),
            },
            class: PhantomData,
        }
    }
}

impl<C: ElfClass> Relocation for ElfRela<C> {
    ghost relocation = { λ r. r.values };

    fn symbol(&self) -> Option<SymbolIndex> {
        self.values.symbol()
    }

    fn raw_type(&self) -> u32 {
        self.values.raw_type()
    }

    fn offset(&self) -> u64 {
        self.values.offset()
    }

    fn addend(&self) -> i64 {
        self.values.addend()
    }
}
