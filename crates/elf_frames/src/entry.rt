//! The entries of `.eh_frame`, one after another (Linux Standard Base, The .eh_frame Section).

ghost use Rattle.std.specs.Prelude.{◌≡◌, ◌≤◌, length, IfOk, IfErr, MatchOption};
ghost use Rattle.elf_frames.specs.Entries.{IsEnd, is_terminator, rest_at};
ghost use Rattle.elf_frames.specs.steps.EntryAt.{IsFound, IsCutError};

use crate::error::FrameError;
use elf_tables::EhFrameEntryPrefix;
use elf_words::Record;

/// A CIE or an FDE.
#[derive(Clone, Copy)]
pub(crate) struct Entry {
    /// The offset of its first byte, in bytes from the start of the section.
    pub(crate) offset: usize,
    /// Its size in bytes, the length field included.
    pub(crate) size: usize,
    /// Whether it is a CIE.
    pub(crate) is_cie: bool,
}

/// Returns the entry at an offset, or None where no entry begins: fewer than eight bytes are left, or the length there is 0.
/// The error is `BadEntry` with the offset, exactly where an entry begins and ends after the data.
pub(crate) fn entry_at(bytes: &[u8], offset: usize) -> Result<Option<Entry>, FrameError>
    requires { offset ≤ length bytes.now }
    ensures found { IfOk result (λ entry. MatchOption entry (IsEnd bytes.now offset) (IsFound bytes.now offset)) }
    ensures cause { IfErr result (IsCutError bytes.now offset) }
{
    let Some(prefix) = EhFrameEntryPrefix::read(&bytes[offset..]) else {
        return Ok(None);
    };
    let length = prefix.length() as usize;
    if length == 0 {
        return Ok(None);
    }
    let size = 4 + length;
    if size > bytes.len() - offset {
        return Err(FrameError::BadEntry { offset });
    }
    Ok(Some(Entry {
        offset,
        size,
        is_cie: prefix.cie_id() == 0,
    }))
}

/// Returns whether some bytes are the four zero bytes that end the entries of `.eh_frame`.
pub fn is_eh_frame_terminator(bytes: &[u8]) -> bool
    ensures { result ≡ is_terminator bytes.now }
{
    bytes == [0, 0, 0, 0].as_slice()
}

/// Returns how many bytes from an offset on are no entry, where none begins there. A length of 0 leaves none, and so does a
/// terminator.
pub(crate) fn rest_of(bytes: &[u8], offset: usize) -> u64
    requires { offset ≤ length bytes.now }
    ensures { result ≡ rest_at bytes.now offset }
{
    let rest = &bytes[offset..];
    if rest.len() >= 8 || is_eh_frame_terminator(rest) {
        return 0;
    }
    rest.len() as u64
}
