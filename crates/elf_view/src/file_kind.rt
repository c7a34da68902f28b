//! The kind of a file, by which its symbol table is chosen (gABI, Sections: SHT_SYMTAB and SHT_DYNSYM), and parsing a
//! file of a kind and for a machine that the caller expects.

ghost use Rattle.std.specs.Prelude.{◌≡◌, IfOk};
ghost use Rattle.std.specs.Result.{result_err};
ghost use Rattle.elf_view.specs.Expected.{is_dynamic_kind, fault_for};

use crate::file::File;
use elf_format::{Architecture, ElfError};
use elf_words::{ElfClass, FileHeaderFields};

/// The kind of a file.
#[derive(Clone, Copy, Debug, PartialEq, Eq)]
pub enum FileKind {
    /// A relocatable file. Its symbols are those of SHT_SYMTAB.
    ElfObject,
    /// A file for dynamic linking, as a shared object. Its symbols are those of SHT_DYNSYM.
    ElfDynamic,
}

impl FileKind {
    /// Returns whether the kind is the dynamic one.
    fn is_dynamic(self) -> bool
        ensures { result ≡ is_dynamic_kind self }
    {
        matches!(self, FileKind::ElfDynamic)
    }
}

impl<'a, C: ElfClass> File<'a, C> {
    /// Parses bytes as a file of the class `C`, of a kind and for a machine. The error is that of `parse_bytes`, else
    /// `Machine` exactly where the file is for another machine. No memory is taken.
    #[tactic(auto)]
    pub fn parse(bytes: &'a [u8], kind: FileKind, expected: Architecture) -> Result<Self, ElfError>
        ensures fault { result_err result ≡ fault_for C.class (is_dynamic_kind kind) expected bytes.now }
        ensures file { IfOk result (λ f. f ≡ record { bytes = bytes.now; is_dynamic = is_dynamic_kind kind }) }
    {
        let file = Self::parse_bytes(bytes, kind.is_dynamic())?;
        if file.header().e_machine() != expected.machine() {
            return Err(ElfError::Machine);
        }
        Ok(file)
    }
}
