//! The signed numbers of FDEs (SFrame 2, SFrame FDE).

ghost use Rattle.std.specs.Prelude.{◌≡◌, ◌+◌, ◌≤◌, length};
ghost use Rattle.sframe_format.specs.Fields.{i32_at};

use elf_words::read_u32;

/// Returns the signed little-endian number in the four bytes at an offset. Requires that they are there.
pub fn read_i32(bytes: &[u8], at: usize) -> i32
    requires { at + 4 ≤ length bytes.now }
    ensures { result ≡ i32_at bytes.now at }
{
    read_u32(bytes, at).cast_signed()
}
