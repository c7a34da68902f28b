//! Little-endian numbers at an offset (gABI, Data Representation). Offsets are in bytes from 0. Each function
//! requires that the bytes of the number are there.

ghost use Rattle.std.specs.Prelude.{◌≡◌, ◌+◌, ◌≤◌, length};
ghost use Rattle.elf_format.specs.Bytes.{le};

/// Returns the byte at an offset.
#[tactic(auto, unfolding(elf_format::specs::Bytes::le))]
pub fn read_u8(bytes: &[u8], at: usize) -> u8
    requires { at + 1 ≤ length bytes.now }
    ensures { result ≡ le bytes.now at 1 }
{
    bytes[at]
}

/// Returns the number in the two bytes at an offset.
#[tactic(auto, unfolding(elf_format::specs::Bytes::le))]
pub fn read_u16(bytes: &[u8], at: usize) -> u16
    requires { at + 2 ≤ length bytes.now }
    ensures { result ≡ le bytes.now at 2 }
{
    u16::from_le_bytes([bytes[at], bytes[at + 1]])
}

/// Returns the number in the four bytes at an offset.
#[tactic(auto, unfolding(elf_format::specs::Bytes::le))]
pub fn read_u32(bytes: &[u8], at: usize) -> u32
    requires { at + 4 ≤ length bytes.now }
    ensures { result ≡ le bytes.now at 4 }
{
    u32::from_le_bytes([bytes[at], bytes[at + 1], bytes[at + 2], bytes[at + 3]])
}

/// Returns the number in the eight bytes at an offset.
#[tactic(auto, unfolding(elf_format::specs::Bytes::le))]
pub fn read_u64(bytes: &[u8], at: usize) -> u64
    requires { at + 8 ≤ length bytes.now }
    ensures { result ≡ le bytes.now at 8 }
{
    u64::from_le_bytes([
        bytes[at],
        bytes[at + 1],
        bytes[at + 2],
        bytes[at + 3],
        bytes[at + 4],
        bytes[at + 5],
        bytes[at + 6],
        bytes[at + 7],
    ])
}

/// Returns the number in the first four bytes. Requires at least four.
pub fn u32_from_slice(bytes: &[u8]) -> u32
    requires { 4 ≤ length bytes.now }
    ensures { result ≡ le bytes.now 0 4 }
{
    read_u32(bytes, 0)
}

/// Returns the number in the first eight bytes. Requires at least eight.
pub fn u64_from_slice(bytes: &[u8]) -> u64
    requires { 8 ≤ length bytes.now }
    ensures { result ≡ le bytes.now 0 8 }
{
    read_u64(bytes, 0)
}
