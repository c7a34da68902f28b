//! Writing a little-endian number at an offset of a record (gABI, Data Representation), and the errors for
//! numbers that do not fit 32 bits. An error comes before anything is written.

ghost use Rattle.std.specs.Prelude.{◌≡◌, ◌+◌, ◌≤◌, length};
ghost use Rattle.elf_format.specs.Bytes.{field_at};
ghost use Rattle.elf_format.specs.Class.{class32};
ghost use Rattle.elf_words.specs.declared.word.FieldError.TheVariants.{DoesNotFit};
ghost use Rattle.std.specs.Int.{w32};
ghost use Rattle.std.specs.Int.RustNames.{FitsSigned};
ghost use Rattle.elf_setters.specs.Put.{with_field, IsPut, IsSignedPut, IsOutside};

use elf_words::{Field, FieldError};

/// Writes a byte at an offset.
#[tactic(auto, unfolding(crate::specs::Put::with_field))]
pub(crate) fn put_u8(bytes: &mut [u8], at: usize, value: u8)
    requires { at + 1 ≤ length bytes.old }
    ensures { bytes.new ≡ with_field (field_at at 1) value bytes.old }
{
    bytes[at..at + 1].copy_from_slice(&value.to_le_bytes());
}

/// Writes a number into the two bytes at an offset.
#[tactic(auto, unfolding(crate::specs::Put::with_field))]
pub(crate) fn put_u16(bytes: &mut [u8], at: usize, value: u16)
    requires { at + 2 ≤ length bytes.old }
    ensures { bytes.new ≡ with_field (field_at at 2) value bytes.old }
{
    bytes[at..at + 2].copy_from_slice(&value.to_le_bytes());
}

/// Writes a number into the four bytes at an offset.
#[tactic(auto, unfolding(crate::specs::Put::with_field))]
pub(crate) fn put_u32(bytes: &mut [u8], at: usize, value: u32)
    requires { at + 4 ≤ length bytes.old }
    ensures { bytes.new ≡ with_field (field_at at 4) value bytes.old }
{
    bytes[at..at + 4].copy_from_slice(&value.to_le_bytes());
}

/// Writes a number into the eight bytes at an offset.
#[tactic(auto, unfolding(crate::specs::Put::with_field))]
pub(crate) fn put_u64(bytes: &mut [u8], at: usize, value: u64)
    requires { at + 8 ≤ length bytes.old }
    ensures { bytes.new ≡ with_field (field_at at 8) value bytes.old }
{
    bytes[at..at + 8].copy_from_slice(&value.to_le_bytes());
}

/// Writes a number into the four bytes at an offset. Where it does not fit, nothing is written.
pub(crate) fn put_word(
    bytes: &mut [u8],
    at: usize,
    field: Field,
    value: u64,
) -> Result<(), FieldError>
    requires { at + 4 ≤ length bytes.old }
    ensures { IsPut (field_at at 4) field value bytes.old bytes.new result }
{
    let Ok(word) = u32::try_from(value) else {
        return Err(FieldError::DoesNotFit { field, value });
    };
    put_u32(bytes, at, word);
    Ok(())
}

/// Writes a signed number into the four bytes at an offset. Where it does not fit, nothing is written.
pub(crate) fn put_signed_word(
    bytes: &mut [u8],
    at: usize,
    field: Field,
    value: i64,
) -> Result<(), FieldError>
    requires { at + 4 ≤ length bytes.old }
    ensures { IsSignedPut class32 (field_at at 4) field value bytes.old bytes.new result }
{
    let Ok(word) = i32::try_from(value) else {
        return Err(outside(field, value));
    };
    put_u32(bytes, at, word.cast_unsigned());
    Ok(())
}

/// Returns the error for a part of `r_info` that is above its range.
pub(crate) fn does_not_fit(field: Field, half: u32) -> FieldError
    ensures { result ≡ DoesNotFit field half }
{
    FieldError::DoesNotFit {
        field,
        value: u64::from(half),
    }
}

/// Returns the error for a signed number that does not fit 32 bits.
fn outside(field: Field, value: i64) -> FieldError
    requires { ¬ FitsSigned w32 value }
    ensures { IsOutside (field_at 0 4) field value result }
{
    match u64::try_from(value) {
        Ok(value) => FieldError::DoesNotFit { field, value },
        Err(_) => FieldError::Negative { field, value },
    }
}
