//! A cursor over a byte slice, which reads numbers of four bytes, numbers in LEB128 (DWARF 5, 7.6) and strings.
//! Contracts see it as the bytes after it. After an error the cursor is unchanged.

ghost use Rattle.std.specs.Prelude.{◌≡◌, length, nat_lt, option_map, Some, None, if◌then◌else◌};
ghost use Rattle.std.specs.Str.{is_utf8};
ghost use Rattle.elf_format.specs.Leb128.{uleb128, sleb128};
ghost use Rattle.elf_format.specs.Cursor.{Takes, before_zero, u32_front, string_front};

use crate::leb128::{signed_from, split_number, sum_of_groups};
use crate::little_endian::read_u32;
use elf_format::CursorError;
use std::marker::Model;

/// A cursor over a byte slice. After an error it is unchanged.
#[derive(Clone, Debug, Drop)]
pub struct ByteCursor<'a> {
    bytes: &'a [u8],
}

impl<'a> Model for ByteCursor<'a> {
    ghost use Rattle.std.specs.Prelude.{ℕ, List};

    ghost Value = { List ℕ };

    ghost view = { λ c. c.bytes.now };
}

impl<'a> ByteCursor<'a> {
    /// Returns a cursor at the first byte.
    pub fn new(bytes: &'a [u8]) -> ByteCursor<'a>
        ensures { result ≡ bytes.now }
    {
        ByteCursor { bytes }
    }

    /// Returns the bytes after the cursor.
    pub fn rest(&self) -> &'a [u8]
        ensures { result.now ≡ self.now }
    {
        self.bytes
    }

    /// Reads a little-endian number of four bytes. `Short` exactly where fewer follow.
    #[tactic(auto, unfolding(elf_format::specs::Cursor::u32_front))]
    pub fn read_u32(&mut self) -> Result<u32, CursorError>
        ensures { Takes (λ n. n) result self.old self.new (u32_front self.old) }
    {
        if self.bytes.len() < 4 {
            return Err(CursorError::Short);
        }
        let number = read_u32(self.bytes, 0);
        self.bytes = &self.bytes[4..];
        Ok(number)
    }

    /// Reads the string before the first zero byte, and that byte. `Short` exactly where no byte is zero, else
    /// `NotUtf8` exactly where the string is not UTF-8.
    #[tactic(auto, unfolding(elf_format::specs::Cursor::string_front))]
    pub fn read_string(&mut self) -> Result<&'a str, CursorError>
        ensures { Takes (λ text. text.now) result self.old self.new (string_front self.old) }
    {
        let Some(end) = zero_at(self.bytes) else {
            return Err(CursorError::Short);
        };
        let Some(text) = text_of(&self.bytes[..end]) else {
            return Err(CursorError::NotUtf8);
        };
        self.bytes = &self.bytes[end + 1..];
        Ok(text)
    }

    /// Reads a number in LEB128. `TooLong` where the tenth byte says that another follows, or where the number
    /// does not fit 64 bits; else `Short` where the bytes end first.
    #[tactic(auto, unfolding(elf_format::specs::Leb128::uleb128))]
    pub fn read_uleb128(&mut self) -> Result<u64, CursorError>
        ensures { Takes (λ n. n) result self.old self.new (uleb128 self.old) }
    {
        let (number, rest) = split_number(self.bytes)?;
        let (sum, _) = sum_of_groups(number);
        let Ok(value) = u64::try_from(sum) else {
            return Err(CursorError::TooLong);
        };
        self.bytes = rest;
        Ok(value)
    }

    /// Reads a signed number in LEB128. The errors are those of `read_uleb128`.
    #[tactic(auto, unfolding(elf_format::specs::Leb128::sleb128))]
    pub fn read_sleb128(&mut self) -> Result<i64, CursorError>
        ensures { Takes (λ n. n) result self.old self.new (sleb128 self.old) }
    {
        let (number, rest) = split_number(self.bytes)?;
        let (sum, scale) = sum_of_groups(number);
        let Some(value) = signed_from(sum, scale) else {
            return Err(CursorError::TooLong);
        };
        self.bytes = rest;
        Ok(value)
    }
}

/// Returns the offset of the first zero byte, if any.
fn zero_at(bytes: &[u8]) -> Option<usize>
    ensures { result ≡ (if nat_lt (before_zero bytes.now) (length bytes.now) then Some (before_zero bytes.now) else None) }
{
    for (i, byte) in bytes.iter().enumerate() {
        if *byte == 0 {
            return Some(i);
        }
    }
    None
}

/// Returns the bytes as text, or None where they are not UTF-8.
fn text_of(bytes: &[u8]) -> Option<&str>
    ensures { option_map (λ text. text.now) result ≡ (if is_utf8 bytes.now then Some bytes.now else None) }
{
    match str::from_utf8(bytes) {
        Ok(text) => Some(text),
        Err(_) => None,
    }
}
