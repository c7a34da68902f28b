//! Numbers as wide as an address (gABI, Data Representation): 32 bits in ELFCLASS32, 64 bits in ELFCLASS64.
//! And the error for a number that does not fit a field.

ghost use Rattle.std.specs.Prelude.{◌≡◌, ℕ, ◌*◌, ◌^◌, ◌<◌, ◌≤◌, length, MatchResult};
ghost use Rattle.elf_format.specs.Bytes.{le};
ghost use Rattle.elf_words.specs.declared.word.FieldError.TheVariants.{DoesNotFit};
ghost use Rattle.elf_words.specs.declared.word.Field.TheVariants.{Word};

use crate::little_endian::{read_u32, read_u64};

/// The field that a number does not fit, by its name in gABI.
#[derive(Clone, Copy, Debug, PartialEq, Eq)]
pub enum Field {
    /// A number as wide as an address, in no record.
    Word,
    /// `e_entry`, the address at which the program starts.
    EEntry,
    /// `e_phoff`, the offset of the program header table.
    EPhoff,
    /// `e_shoff`, the offset of the section header table.
    EShoff,
    /// `p_offset`, the offset of the segment in the file.
    POffset,
    /// `p_vaddr`, the address of the segment.
    PVaddr,
    /// `p_paddr`, the physical address of the segment.
    PPaddr,
    /// `p_filesz`, the size of the segment in the file.
    PFilesz,
    /// `p_memsz`, the size of the segment in memory.
    PMemsz,
    /// `p_align`, the alignment of the segment.
    PAlign,
    /// `sh_flags`, the flags of the section.
    ShFlags,
    /// `sh_addr`, the address of the section.
    ShAddr,
    /// `sh_offset`, the offset of the section in the file.
    ShOffset,
    /// `sh_size`, the size of the section.
    ShSize,
    /// `sh_addralign`, the alignment of the section.
    ShAddralign,
    /// `sh_entsize`, the size of an entry of the section.
    ShEntsize,
    /// `ch_size`, the size of the uncompressed bytes.
    ChSize,
    /// `ch_addralign`, the alignment of the uncompressed bytes.
    ChAddralign,
    /// `st_value`, the value of the symbol.
    StValue,
    /// `st_size`, the size of the symbol.
    StSize,
    /// `d_tag`, the tag of an entry of the dynamic section.
    DTag,
    /// `d_val` or `d_ptr`, the number or address of an entry of the dynamic section.
    DVal,
    /// `r_offset`, the offset to which a relocation applies.
    ROffset,
    /// The symbol index of `r_info`.
    RInfoSymbol,
    /// The relocation type of `r_info`.
    RInfoType,
    /// `r_addend`, the addend of a relocation.
    RAddend,
    /// An entry of a table of relative relocations.
    Relr,
}

/// Why a field is not set. The record is unchanged.
#[derive(Clone, Copy, Debug, PartialEq, Eq)]
pub enum FieldError {
    /// The number is above the range of the field.
    DoesNotFit { field: Field, value: u64 },
    /// The number is below the range of the field.
    Negative { field: Field, value: i64 },
}

/// A number as wide as an address of a class.
pub trait ElfWord: Copy {
    ghost BYTES: { ℕ };

    // the number that a word is
    ghost number: { Self → ℕ };

    /// The size of the number in bytes.
    const BYTES: usize;

    /// Returns the word of a number, or `DoesNotFit` exactly where the number is 2^(8 * BYTES) or more.
    fn from_u64(value: u64) -> Result<Self, FieldError>
        ensures { MatchResult result (λ word. (value < 2 ^ (8 * BYTES)) × (number word ≡ value)) (λ e. (2 ^ (8 * BYTES) ≤ value) × (e ≡ DoesNotFit Word value)) };

    /// Returns the word of little-endian bytes. Requires exactly `BYTES` of them.
    fn from_le_bytes(bytes: &[u8]) -> Self
        requires { length bytes.now ≡ BYTES }
        ensures { number result ≡ le bytes.now 0 BYTES };

    /// Returns the number of a word.
    fn to_u64(self) -> u64
        ensures { result ≡ number self };
}

impl ElfWord for u32 {
    ghost BYTES = { 4 };

    ghost number = { λ word. word };

    const BYTES: usize = 4;

    fn from_u64(value: u64) -> Result<Self, FieldError> {
        u32::try_from(value).map_err(|_| FieldError::DoesNotFit {
            field: Field::Word,
            value,
        })
    }

    fn from_le_bytes(bytes: &[u8]) -> Self {
        read_u32(bytes, 0)
    }

    fn to_u64(self) -> u64 {
        u64::from(self)
    }
}

impl ElfWord for u64 {
    ghost BYTES = { 8 };

    ghost number = { λ word. word };

    const BYTES: usize = 8;

    fn from_u64(value: u64) -> Result<Self, FieldError> {
        Ok(value)
    }

    fn from_le_bytes(bytes: &[u8]) -> Self {
        read_u64(bytes, 0)
    }

    fn to_u64(self) -> u64 {
        self
    }
}
