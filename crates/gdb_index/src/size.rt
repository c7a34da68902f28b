//! The size of an index in bytes (GDB manual, "Index Section Format"), before it is written.

ghost use Rattle.std.specs.Prelude.{◌≡◌, ◌<◌, ◌≤◌, ◌^◌, MatchResult};
ghost use Rattle.gdb_index_format.specs.Slots.{IsSlotCount};
ghost use Rattle.gdb_index_format.specs.Version.{version_number};
ghost use Rattle.gdb_index.specs.Size.{IsIndexSize, IsCountable, IsTooLarge, AreSmall};

use crate::version::{header_len, number_of, shortcut_len};
use gdb_index_format::IndexVersion;
use thiserror::Error;

/// The counts that the size of an index depends on.
#[derive(Clone, Copy, Debug, PartialEq, Eq)]
pub struct IndexCounts {
    /// The number of units.
    pub units: u128,
    /// The number of placed sections, for each of which the address area has room.
    pub placed: u128,
    /// The number of different names.
    pub names: u128,
    /// The number of elements of all CU vectors.
    pub words: u128,
    /// The size of all names in bytes, each with its zero byte.
    pub name_bytes: u128,
}

/// The size of an index in bytes, above 4,294,967,295: offsets of four bytes cannot hold it.
#[derive(Clone, Copy, Debug, PartialEq, Eq, Error)]
#[error("an index of {0} bytes is larger than its offsets can count")]
pub struct IndexTooLarge(pub u128);

/// Returns the slot count of the symbol hash table of so many names.
fn slots_for(names: u128) -> u128
    requires { names < 2 ^ 120 }
    ensures counted { IsSlotCount names result }
    ensures small { result < 2 ^ 123 }
{
    if names == 0 {
        return 0;
    }
    (names * 4 / 3 + 1).next_power_of_two()
}

/// Returns the size in bytes of an index of these counts in a version, 0 where there is no unit. Requires each count
/// below 2^120.
pub fn index_size(counts: &IndexCounts, version: IndexVersion) -> u128
    requires { AreSmall counts.now }
    ensures { IsIndexSize (version_number version) counts.now result }
{
    let slots = slots_for(counts.names);
    if counts.units == 0 {
        return 0;
    }
    let version = number_of(version);
    u128::from(header_len(version))
        + 16 * counts.units
        + 20 * counts.placed
        + 8 * slots
        + u128::from(shortcut_len(version))
        + 4 * (counts.names + counts.words)
        + counts.name_bytes
}

/// Returns the size in bytes of an index of these counts in a version, or `IndexTooLarge` with that size exactly where it
/// is above 4,294,967,295. Requires each count below 2^120.
pub fn checked_index_size(counts: &IndexCounts, version: IndexVersion) -> Result<u32, IndexTooLarge>
    requires { AreSmall counts.now }
    ensures { MatchResult result (IsCountable (version_number version) counts.now) (IsTooLarge (version_number version) counts.now) }
{
    let size = index_size(counts, version);
    if size > 0xffff_ffff {
        return Err(IndexTooLarge(size));
    }
    Ok(size as u32)
}
