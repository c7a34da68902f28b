//! A file of either class, by the class that its bytes name (gABI, ELF Identification: EI_CLASS).

ghost use Rattle.std.specs.Prelude.{◌≡◌, None, Some, IfOk, option_map, option_and_then, length};
ghost use Rattle.std.specs.Result.{result_err};
ghost use Rattle.elf_format.specs.Architecture.{architecture_of};
ghost use Rattle.elf_format.specs.Bytes.{get};
ghost use Rattle.elf_format.specs.Class.{e_type, e_machine};
ghost use Rattle.elf_format.specs.Fault.{any_fault, class_of};
ghost use Rattle.elf_format.specs.Section.{file_header, sections};
ghost use Rattle.elf_view.specs.AnyFile.{parsed, NamesItsClass};

use crate::file::File;
use elf_format::{Architecture, ElfError};
use elf_records32::Class32;
use elf_records64::Class64;
use elf_sections::read_header;
use elf_words::{ElfClass, FileHeaderFields};

/// A well-formed file of either class.
#[derive(Drop)]
pub enum AnyFile<'a> {
    /// A file of ELFCLASS64.
    Class64(File<'a, Class64>),
    /// A file of ELFCLASS32.
    Class32(File<'a, Class32>),
}

impl<'a> AnyFile<'a> {
    /// Parses bytes as a file of the class that they name. The error is `Header` where they name none, and else that
    /// of `File::parse_bytes` for the class. No memory is taken.
    pub fn parse_bytes(bytes: &'a [u8], is_dynamic: bool) -> Result<Self, ElfError>
        ensures fault { result_err result ≡ any_fault is_dynamic bytes.now }
        ensures file { IfOk result (λ f. parsed f ≡ record { bytes = bytes.now; is_dynamic = is_dynamic }) }
    {
        match bytes.get(4) {
            Some(1) => match File::parse_bytes(bytes, is_dynamic) {
                Ok(file) => Ok(AnyFile::Class32(file)),
                Err(error) => Err(error),
            },
            Some(2) => match File::parse_bytes(bytes, is_dynamic) {
                Ok(file) => Ok(AnyFile::Class64(file)),
                Err(error) => Err(error),
            },
            _ => Err(ElfError::Header),
        }
    }

    /// Returns all bytes of the file.
    pub fn bytes(&self) -> &'a [u8]
        ensures { result.now ≡ (parsed self.now).bytes }
    {
        match self {
            AnyFile::Class64(file) => file.bytes(),
            AnyFile::Class32(file) => file.bytes(),
        }
    }

    /// Returns the machine that the file is for (`e_machine`).
    pub fn arch(&self) -> Architecture
        ensures { option_and_then (λ c. architecture_of (get (e_machine c) (file_header c (parsed self.now).bytes))) (class_of (parsed self.now).bytes) ≡ Some result }
    {
        match self {
            AnyFile::Class64(file) => arch_of(file),
            AnyFile::Class32(file) => arch_of(file),
        }
    }

    /// Returns the type of the file (`e_type`): 1 is a relocatable file, 3 a shared object.
    pub fn file_type(&self) -> u16
        ensures { option_map (λ c. get (e_type c) (file_header c (parsed self.now).bytes)) (class_of (parsed self.now).bytes) ≡ Some result }
    {
        match self {
            AnyFile::Class64(file) => file_type_of(file),
            AnyFile::Class32(file) => file_type_of(file),
        }
    }

    /// Returns the number of sections, the null section at index 0 included.
    pub fn num_sections(&self) -> usize
        ensures { option_map (λ c. length (sections c (parsed self.now).bytes)) (class_of (parsed self.now).bytes) ≡ Some result }
    {
        match self {
            AnyFile::Class64(file) => num_sections_of(file),
            AnyFile::Class32(file) => num_sections_of(file),
        }
    }
}

/// Returns the machine that a file is for.
fn arch_of<C: ElfClass>(file: &File<'_, C>) -> Architecture
    ensures { option_and_then (λ c. architecture_of (get (e_machine c) (file_header c file.now.bytes))) (class_of file.now.bytes) ≡ Some result }
{
    file.well_formed();
    file.arch()
}

/// Returns the type of a file.
#[tactic(auto, using(crate::proofs::ClassNames::has_whole_header))]
fn file_type_of<C: ElfClass>(file: &File<'_, C>) -> u16
    ensures { option_map (λ c. get (e_type c) (file_header c file.now.bytes)) (class_of file.now.bytes) ≡ Some result }
{
    file.well_formed();
    let header = read_header::<C>(file.bytes()).unwrap();
    header.e_type()
}

/// Returns the number of sections of a file.
fn num_sections_of<C: ElfClass>(file: &File<'_, C>) -> usize
    ensures { option_map (λ c. length (sections c file.now.bytes)) (class_of file.now.bytes) ≡ Some result }
{
    file.well_formed();
    file.num_sections()
}

/// A file without a fault of a class names that class.
pub fn class_is_named()
    ensures { NamesItsClass }
{}
