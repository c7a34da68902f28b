//! Strings of a string table (gABI, String Table).

ghost use Rattle.std.specs.Prelude.{◌≡◌, option_copied};
ghost use Rattle.elf_format.specs.Bytes;

use elf_words::first_zero;

/// Returns the string at an offset, without its zero byte, or None where no zero byte follows.
#[tactic(auto, unfolding(elf_format::specs::Bytes::string_at))]
pub fn string_at(strings: &[u8], offset: usize) -> Option<&[u8]>
    ensures { option_copied result ≡ Bytes.string_at strings.now offset }
{
    let tail = strings.get(offset..)?;
    let length = first_zero(tail)?;
    Some(&tail[..length])
}
