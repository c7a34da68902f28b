//! Writes `.gdb_index` (GDB manual, "Index Section Format") into a buffer of the computed size.

ghost use Rattle.std.specs.Prelude.{◌≡◌, ℕ, ◌+◌, ◌*◌, ◌<◌, ◌≤◌, ◌^◌, List, length};
ghost use Rattle.gdb_index_format.specs.Slots.{IsSlotCount};
ghost use Rattle.gdb_index_format.specs.Named.{all_named, AreNamesOf, AnswersAll};
ghost use Rattle.gdb_index_format.specs.Published.{Pair};
ghost use Rattle.gdb_index_format.specs.Units.{index_units};
ghost use Rattle.gdb_index_format.specs.Version as format;
ghost use Rattle.gdb_index.specs.steps.Writes.{Extends};
ghost use Rattle.gdb_index.specs.steps.FilledBytes.{ExtendsByTable};
ghost use Rattle.gdb_index.specs.Hashed.{hashes_of};
ghost use Rattle.gdb_index.specs.Pool.{vectors_len, names_len};
ghost use Rattle.gdb_index.specs.Layout.{u32s_bytes, header_numbers, pool_offset, IsLayoutOf};
ghost use Rattle.gdb_index.specs.Size.{IsIndexSize, scan_counts};
ghost use Rattle.gdb_index.specs.Answers.{AnswersFor};

use crate::fill::fill_table;
use crate::hash::compute_hash_table_slots;
use crate::passed::PASSED_LEN;
use crate::pool::vectors_len_of_all;
use crate::scan_result::GdbIndexScanResult;
use crate::version::{header_len, number_of, shortcut_len};
use crate::writing::{
    append_addresses, append_names, append_u32s, append_units, append_vectors, append_zeros,
};
use gdb_index_format::{AddressEntry, IndexVersion, NameWords};

/// Writes the header's field for the offset of the shortcut table, which version 8 does not have.
#[tactic(auto, unfolding(gdb_index_format::specs::Version::shortcut_fields))]
fn append_shortcut_field(buf: &mut [u8], at: usize, version: u32, offset: u32) -> usize
    requires room { at + 4 * length (format.shortcut_fields version offset) ≤ length buf.old }
    ensures extends { Extends buf.old buf.new at (u32s_bytes (format.shortcut_fields version offset)) }
    ensures end { result ≡ at + 4 * length (format.shortcut_fields version offset) }
{
    if version == 8 {
        append_u32s(buf, at, &[])
    } else {
        append_u32s(buf, at, &[offset])
    }
}

/// Writes the version and the offsets of the parts. The types CU list is empty.
fn append_header(
    buf: &mut [u8],
    version: u32,
    units: usize,
    addresses: usize,
    slots: usize,
) -> usize
    requires room { pool_offset version units addresses slots ≤ length buf.old }
    requires small { length buf.old < 2 ^ 32 }
    ensures extends { Extends buf.old buf.new 0 (u32s_bytes (header_numbers version units addresses slots)) }
    ensures end { result ≡ format.header_len version }
{
    let header = header_len(version);
    let addresses_at = header + 16 * units as u32;
    let table_at = addresses_at + 20 * addresses as u32;
    let shortcuts_at = table_at + 8 * slots as u32;
    let pool_at = shortcuts_at + shortcut_len(version);
    let first = [version, header, addresses_at, addresses_at, table_at];
    let at = append_u32s(buf, 0, &first);
    let at = append_shortcut_field(buf, at, version, shortcuts_at);
    append_u32s(buf, at, &[pool_at])
}

/// Writes the symbol hash table, in which each name stands in the first slot of its probe that no earlier name holds.
/// Writes over bytes after it, where the constant pool will stand.
fn append_table(
    buf: &mut [u8],
    at: usize,
    slots: usize,
    names: &[NameWords<'_>],
    hashes: &[u32],
) -> usize
    requires room { at + 8 * slots ≤ length buf.old }
    requires counted { IsSlotCount (length names.now) slots }
    requires hashed { hashes.now ≡ hashes_of (all_named names.now) }
    requires small { slots < 2 ^ 32 }
    requires fits { vectors_len (all_named names.now) + names_len (all_named names.now) < 2 ^ 32 }
    ensures extends { ExtendsByTable buf.old buf.new at slots (all_named names.now) }
    ensures end { result ≡ at + 8 * slots }
{
    let end = append_zeros(buf, at, 8 * slots);
    let vectors = vectors_len_of_all(names);
    if slots > 0 {
        let (front, after) = buf.split_at_mut(end);
        let room = after.len().min(PASSED_LEN * slots);
        fill_table(
            &mut front[at..],
            &mut after[..room],
            slots,
            names,
            hashes,
            vectors,
        );
    }
    end
}

/// Writes the index of a scan result with these address entries in a version into all of `buf`. Requires the length of `buf` to be
/// the size of the index, at least 1 and below 2^32, and at most as many address entries as placed sections; where there
/// are fewer, the bytes saved are zeros at the end. Allocates nothing and cannot fail.
pub fn write_gdb_index(
    buf: &mut [u8],
    scan: &GdbIndexScanResult<'_>,
    addresses: &[AddressEntry],
    version: IndexVersion,
)
    requires size { IsIndexSize (format.version_number version) (scan_counts scan.now) (length buf.old) }
    requires some { 1 ≤ length buf.old }
    requires small { length buf.old < 2 ^ 32 }
    requires addresses { length addresses.now ≤ scan.now.placed }

    // what stands where
    ensures layout { IsLayoutOf (format.version_number version) scan.now addresses.now buf.new }

    // what a reader finds
    ensures units { index_units buf.new ≡ scan.now.units }
    ensures answers { AnswersFor buf.new scan.now.names }
    ensures published { (ps : List Pair) → AreNamesOf ps scan.now.names → AnswersAll buf.new ps }
{
    let version = number_of(version);
    let units = scan.units();
    let names = scan.names();
    let slots = compute_hash_table_slots(names.len());
    let at = append_header(buf, version, units.len(), addresses.len(), slots);
    let at = append_units(buf, at, units);
    let at = append_addresses(buf, at, addresses);
    let at = append_table(buf, at, slots, names, scan.hashes());
    let at = append_zeros(buf, at, shortcut_len(version) as usize);
    let at = append_vectors(buf, at, names);
    let at = append_names(buf, at, names);
    let saved = buf.len() - at;
    append_zeros(buf, at, saved);
}
