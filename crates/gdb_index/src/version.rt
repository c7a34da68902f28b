//! What depends on the version of an index (GDB manual, "Index Section Format").

ghost use Rattle.std.specs.Prelude.{◌≡◌, ◌+◌, ◌≤◌};
ghost use Rattle.gdb_index_format.specs.Version as format;

use gdb_index_format::IndexVersion;

/// The size in bytes of the shortest header: that of version 8.
pub(crate) const MIN_HEADER_LEN: usize = 24;

/// Returns the number of a version, as the header has it.
pub(crate) fn number_of(version: IndexVersion) -> u32
    ensures { result ≡ format.version_number version }
{
    match version {
        IndexVersion::V8 => 8,
        IndexVersion::V9 => 9,
    }
}

/// Reports whether indexes of a version are read.
pub(crate) fn is_known(version: u32) -> bool
    ensures { result ≡ format.is_known version }
{
    version == 8 || version == 9
}

/// Returns the size of the header in bytes: 24 in version 8, and 28 in any other.
#[tactic(auto, unfolding(gdb_index_format::specs::Version::header_len))]
pub fn header_len(version: u32) -> u32
    ensures is { result ≡ format.header_len version }
    ensures least { MIN_HEADER_LEN ≤ result }
{
    if version == 8 { 24 } else { 28 }
}

/// Returns the offset of the header's field for the offset of the constant pool.
#[tactic(auto, unfolding(gdb_index_format::specs::Version::pool_field, gdb_index_format::specs::Version::header_len))]
pub(crate) fn pool_field(version: u32) -> usize
    ensures is { result ≡ format.pool_field version }
    ensures within { result + 4 ≤ format.header_len version }
{
    if version == 8 { 20 } else { 24 }
}

/// Returns the size of the shortcut table in bytes.
#[tactic(auto, unfolding(gdb_index_format::specs::Version::shortcut_len))]
pub(crate) fn shortcut_len(version: u32) -> u32
    ensures { result ≡ format.shortcut_len version }
{
    if version == 8 { 0 } else { 8 }
}
