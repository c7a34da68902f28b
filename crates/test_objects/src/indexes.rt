//! Small indexes (GDB manual, "Index Section Format"), and changes of them.

use std::alloc::{AllocError, Global};

/// An index of one unit of twelve bytes that publishes `main`: its header; the CU list, at 28; two slots, at 44; the
/// shortcut table, at 60; the constant pool, at 68.
pub const MAIN: [u8; 81] = *b"\
    \x09\0\0\0\x1c\0\0\0\x2c\0\0\0\x2c\0\0\0\x2c\0\0\0\x3c\0\0\0\x44\0\0\0\
    \0\0\0\0\0\0\0\0\x0c\0\0\0\0\0\0\0\
    \0\0\0\0\0\0\0\0\x08\0\0\0\0\0\0\0\
    \0\0\0\0\0\0\0\0\
    \x01\0\0\0\0\0\0\x30main\0";

/// The same index in version 8: its header; the CU list, at 24; two slots, at 40; the constant pool, at 56.
pub const MAIN_8: [u8; 69] = *b"\
    \x08\0\0\0\x18\0\0\0\x28\0\0\0\x28\0\0\0\x28\0\0\0\x38\0\0\0\
    \0\0\0\0\0\0\0\0\x0c\0\0\0\0\0\0\0\
    \0\0\0\0\0\0\0\0\x08\0\0\0\0\0\0\0\
    \x01\0\0\0\0\0\0\x30main\0";

/// The index of that unit and of one of twelve bytes after it, which both publish `main`: its header; the CU list, at 28;
/// two slots, at 60; the shortcut table, at 76; the constant pool, at 84.
pub const MAIN_TWICE: [u8; 101] = *b"\
    \x09\0\0\0\x1c\0\0\0\x3c\0\0\0\x3c\0\0\0\x3c\0\0\0\x4c\0\0\0\x54\0\0\0\
    \0\0\0\0\0\0\0\0\x0c\0\0\0\0\0\0\0\
    \x0c\0\0\0\0\0\0\0\x0c\0\0\0\0\0\0\0\
    \0\0\0\0\0\0\0\0\x0c\0\0\0\0\0\0\0\
    \0\0\0\0\0\0\0\0\
    \x02\0\0\0\0\0\0\x30\x01\0\0\x30main\0";

/// An index of one unit of twelve bytes with one address entry, of the addresses 4096 to 4112, and no name: its header; the
/// CU list, at 28; the address area, at 44; no slot; the shortcut table, at 64.
pub const PLACED: [u8; 72] = *b"\
    \x09\0\0\0\x1c\0\0\0\x2c\0\0\0\x2c\0\0\0\x40\0\0\0\x40\0\0\0\x48\0\0\0\
    \0\0\0\0\0\0\0\0\x0c\0\0\0\0\0\0\0\
    \0\x10\0\0\0\0\0\0\x10\x10\0\0\0\0\0\0\0\0\0\0\
    \0\0\0\0\0\0\0\0";

/// Returns an index with other bytes at an offset.
pub fn with_bytes(
    alloc: Global,
    index: &[u8],
    offset: usize,
    bytes: &[u8],
) -> Result<Vec<u8>, AllocError> {
    let mut changed = index.to_vec(alloc)?;
    for (slot, byte) in changed.iter_mut().skip(offset).zip(bytes) {
        *slot = *byte;
    }
    Ok(changed)
}
