//! The symbols of a file, with their names and versions (gABI, Symbol Table; GNU symbol versioning).

ghost use Rattle.std.specs.Prelude.{◌≡◌, IfErr, length, ◌<◌, ◌^◌, option_copied};
ghost use Rattle.std.specs.List.{enumerate_from};
ghost use Rattle.std.specs.Result.{result_ok};
ghost use Rattle.elf_format.specs.Bytes.{get};
ghost use Rattle.elf_format.specs.Class.{st_value};
ghost use Rattle.elf_format.specs.SectionType.{sht_gnu_verdef};
ghost use Rattle.elf_format.specs.Symbol.{symbols, symbol_strings, symbol_name};
ghost use Rattle.elf_format.specs.Version as version;
ghost use Rattle.elf_format.specs.declared.error.ElfError.TheVariants.{SymbolTable};

use crate::enumerate::{RecordEnum, SymbolEnum};
use crate::file::File;
use elf_format::ElfError;
use elf_sections::find_version_section;
use elf_tables::Versym;
use elf_versions::string_at;
use elf_words::{ElfClass, Records, SHT_GNU_VERDEF, SectionHeaderFields, SectionIndex, SymFields};

/// Iterator over a file's symbols, from index 0 on.
pub type SymbolIter<'a, C> = Records<'a, <C as ElfClass>::Sym>;

/// The version records of a file's symbols, by the indexes of the symbols.
pub type VersymView<'a> = Records<'a, Versym>;

impl<'a, C: ElfClass> File<'a, C> {
    /// Iterates over the symbols, from the null symbol at index 0 on.
    pub fn symbols_iter(&self) -> SymbolIter<'a, C>
        ensures symbols { result ≡ symbols C.class self.now.is_dynamic self.now.bytes }
        ensures bound { length result < 2 ^ 64 }
    {
        self.symbols.iter()
    }

    /// Iterates over the symbols with their indexes, from the null symbol at index 0 on.
    pub fn enumerate_symbols(&self) -> SymbolEnum<'a, C>
        ensures symbols { result ≡ enumerate_from 0 (symbols C.class self.now.is_dynamic self.now.bytes) }
        ensures bound { length (symbols C.class self.now.is_dynamic self.now.bytes) < 2 ^ 64 }
    {
        RecordEnum::new(self.symbols.iter())
    }

    /// Returns the strings that the symbol table is linked to, none without a symbol table.
    pub(crate) fn symbol_strings(&self) -> &'a [u8]
        ensures { result.now ≡ symbol_strings C.class self.now.is_dynamic self.now.bytes }
    {
        self.strings
    }

    /// Returns the name of a symbol (`st_name`), without its zero byte. The error is `SymbolTable`, exactly where the
    /// name is not in the strings that the symbol table is linked to.
    #[tactic(auto, unfolding(elf_format::specs::Symbol::symbol_name))]
    pub fn symbol_name(&self, symbol: &C::Sym) -> Result<&'a [u8], ElfError>
        ensures found { option_copied (result_ok result) ≡ symbol_name C.class self.now.is_dynamic self.now.bytes (C.Sym.contents symbol.now) }
        ensures error { IfErr result (λ e. e ≡ SymbolTable) }
    {
        string_at(self.strings, symbol.st_name() as usize).ok_or(ElfError::SymbolTable)
    }

    /// Returns the offset in bytes of a symbol in its section: `st_value`, as in a relocatable file. The section does
    /// not change it.
    pub fn symbol_offset_in_section(&self, symbol: &C::Sym, _section: SectionIndex) -> u64
        ensures { result ≡ get (st_value C.class) (C.Sym.contents symbol.now) }
    {
        symbol.st_value()
    }

    /// Returns the version records of the symbols, by the indexes of the symbols: those of the last section of type
    /// SHT_GNU_VERSYM, none without such a section.
    pub fn symbol_versions(&self) -> VersymView<'a>
        ensures versions { result ≡ version.symbol_versions C.class self.now.bytes }
        ensures bound { length result < 2 ^ 64 }
    {
        self.versions.iter()
    }

    /// Returns the number of version definitions: `sh_info` of the last section of type SHT_GNU_VERDEF, 0 without such a
    /// section.
    #[tactic(auto, unfolding(elf_format::specs::Version::version_count))]
    pub fn verdefnum(&self) -> u32
        ensures { result ≡ version.version_count C.class sht_gnu_verdef self.now.bytes }
    {
        match find_version_section::<C>(self.bytes, &self.headers, SHT_GNU_VERDEF) {
            Some(header) => header.sh_info(),
            None => 0,
        }
    }
}
