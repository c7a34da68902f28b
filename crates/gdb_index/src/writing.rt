//! Writes numbers, units, address entries, CU vectors and names into a buffer, one after another. Each function takes
//! the offset at which it begins and returns the offset after what it wrote.

ghost use Rattle.std.specs.Prelude.{◌≡◌, ℕ, ◌+◌, ◌*◌, ◌<◌, ◌≤◌, ◌^◌, [], ◌∷◌, ◌++◌, length, replicate};
ghost use Rattle.std.specs.List.{flat_map};
ghost use Rattle.std.specs.Int.{w32, w64, to_le_bytes};
ghost use Rattle.gdb_index_format.specs.Named.{named as named_of, all_named};
ghost use Rattle.gdb_index.specs.steps.Writes.{Extends};
ghost use Rattle.gdb_index.specs.Pool.{vector_len, vectors_len, names_len};
ghost use Rattle.gdb_index.specs.Layout.{unit_bytes, address_bytes, vector_bytes, name_bytes, u32s_bytes, AreUnits};

use gdb_index_format::{AddressEntry, CuBoundary, NameWords};

fn append(buf: &mut [u8], at: usize, bytes: &[u8]) -> usize
    requires { at + length bytes.now ≤ length buf.old }
    ensures extends { Extends buf.old buf.new at bytes.now }
    ensures end { result ≡ at + length bytes.now }
{
    let end = at + bytes.len();
    buf[at..end].copy_from_slice(bytes);
    end
}

pub(crate) fn append_zeros(buf: &mut [u8], at: usize, count: usize) -> usize
    requires { at + count ≤ length buf.old }
    ensures extends { Extends buf.old buf.new at (replicate count 0) }
    ensures end { result ≡ at + count }
{
    let end = at + count;
    buf[at..end].fill(0);
    end
}

fn append_u32(buf: &mut [u8], at: usize, value: u32) -> usize
    requires { at + 4 ≤ length buf.old }
    ensures extends { Extends buf.old buf.new at (to_le_bytes w32 value) }
    ensures end { result ≡ at + 4 }
{
    append(buf, at, &value.to_le_bytes())
}

fn append_u64(buf: &mut [u8], at: usize, value: u64) -> usize
    requires { at + 8 ≤ length buf.old }
    ensures extends { Extends buf.old buf.new at (to_le_bytes w64 value) }
    ensures end { result ≡ at + 8 }
{
    append(buf, at, &value.to_le_bytes())
}

fn append_unit(buf: &mut [u8], at: usize, unit: CuBoundary) -> usize
    requires { at + 16 ≤ length buf.old }
    ensures extends { Extends buf.old buf.new at (unit_bytes unit) }
    ensures end { result ≡ at + 16 }
    ensures fits { (unit.offset < 2 ^ 64) × (unit.length < 2 ^ 64) }
{
    let middle = append_u64(buf, at, unit.offset);
    append_u64(buf, middle, unit.length)
}

pub(crate) fn append_units(buf: &mut [u8], at: usize, units: &[CuBoundary]) -> usize
    requires { at + 16 * length units.now ≤ length buf.old }
    ensures extends { Extends buf.old buf.new at (flat_map unit_bytes units.now) }
    ensures end { result ≡ at + 16 * length units.now }
    ensures fit { AreUnits units.now }
{
    let mut offset = at;
    for unit in units {
        offset = append_unit(buf, offset, *unit);
    }
    offset
}

fn append_address(buf: &mut [u8], at: usize, entry: AddressEntry) -> usize
    requires { at + 20 ≤ length buf.old }
    ensures extends { Extends buf.old buf.new at (address_bytes entry) }
    ensures end { result ≡ at + 20 }
{
    let middle = append_u64(buf, at, entry.low);
    let last = append_u64(buf, middle, entry.high);
    append_u32(buf, last, entry.unit)
}

pub(crate) fn append_addresses(buf: &mut [u8], at: usize, addresses: &[AddressEntry]) -> usize
    requires { at + 20 * length addresses.now ≤ length buf.old }
    ensures extends { Extends buf.old buf.new at (flat_map address_bytes addresses.now) }
    ensures end { result ≡ at + 20 * length addresses.now }
{
    let mut offset = at;
    for entry in addresses {
        offset = append_address(buf, offset, *entry);
    }
    offset
}

pub(crate) fn append_u32s(buf: &mut [u8], at: usize, numbers: &[u32]) -> usize
    requires { at + 4 * length numbers.now ≤ length buf.old }
    ensures extends { Extends buf.old buf.new at (u32s_bytes numbers.now) }
    ensures end { result ≡ at + 4 * length numbers.now }
{
    let mut offset = at;
    for number in numbers {
        offset = append_u32(buf, offset, *number);
    }
    offset
}

fn append_vector(buf: &mut [u8], at: usize, named: &NameWords<'_>) -> usize
    requires room { at + vector_len (named_of named.now) ≤ length buf.old }
    requires small { length buf.old < 2 ^ 32 }
    ensures extends { Extends buf.old buf.new at (vector_bytes (named_of named.now)) }
    ensures end { result ≡ at + vector_len (named_of named.now) }
{
    let words = append_u32(buf, at, named.words.len() as u32);
    append_u32s(buf, words, &named.words)
}

pub(crate) fn append_vectors(buf: &mut [u8], at: usize, names: &[NameWords<'_>]) -> usize
    requires room { at + vectors_len (all_named names.now) ≤ length buf.old }
    requires small { length buf.old < 2 ^ 32 }
    ensures extends { Extends buf.old buf.new at (flat_map vector_bytes (all_named names.now)) }
    ensures end { result ≡ at + vectors_len (all_named names.now) }
{
    let mut offset = at;
    for named in names {
        offset = append_vector(buf, offset, named);
    }
    offset
}

fn append_name(buf: &mut [u8], at: usize, name: &[u8]) -> usize
    requires { at + length name.now + 1 ≤ length buf.old }
    ensures extends { Extends buf.old buf.new at (name.now ++ 0 ∷ []) }
    ensures end { result ≡ at + length name.now + 1 }
{
    let end = append(buf, at, name);
    append_zeros(buf, end, 1)
}

pub(crate) fn append_names(buf: &mut [u8], at: usize, names: &[NameWords<'_>]) -> usize
    requires { at + names_len (all_named names.now) ≤ length buf.old }
    ensures extends { Extends buf.old buf.new at (flat_map name_bytes (all_named names.now)) }
    ensures end { result ≡ at + names_len (all_named names.now) }
{
    let mut offset = at;
    for named in names {
        offset = append_name(buf, offset, named.name);
    }
    offset
}
