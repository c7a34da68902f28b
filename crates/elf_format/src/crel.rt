//! Lists of relocations in CREL, the compact form of RELA: the relocation, and the errors of a list.

use crate::cursor::CursorError;

/// Why a CREL list is malformed.
#[derive(Clone, Copy, Debug, PartialEq, Eq)]
pub enum CrelError {
    /// The bytes end inside the header or a record.
    Truncated,
    /// A LEB128 number has more than ten bytes, or does not fit 64 bits.
    TooLong,
}

impl From<CursorError> for CrelError {
    ghost use Rattle.std.specs.Prelude.{◌≡◌};
    ghost use Rattle.elf_format.specs.Crel.{crel_error};

    ghost from_gives = { λ cursor_error e. e ≡ crel_error cursor_error };

    fn from(error: CursorError) -> Self {
        match error {
            CursorError::Short | CursorError::NotUtf8 => CrelError::Truncated,
            CursorError::TooLong => CrelError::TooLong,
        }
    }
}

/// A relocation with an addend (gABI, Relocation).
#[derive(Clone, Copy, Debug, PartialEq, Eq)]
pub struct Crel {
    /// The offset in the section to which the relocation applies.
    pub offset: u64,
    /// The symbol index, 0 for none.
    pub symbol: u32,
    /// The relocation type. Its meaning depends on the machine.
    pub kind: u32,
    /// The addend.
    pub addend: i64,
}
