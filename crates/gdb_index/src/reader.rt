//! Finds a name in the bytes of an index, by the probe of the format (GDB manual, "Index Section
//! Format").

ghost use Rattle.std.specs.Prelude.{◌≡◌, ℕ, ◌+◌, ◌*◌, ◌<◌, ◌≤◌, ◌^◌, ◌==◌, nat_lt, length, Some, Err, MatchResult};
ghost use Rattle.std.specs.List.{position};
ghost use Rattle.std.specs.Option.{option_copied};
ghost use Rattle.elf_format.specs.Bytes.{u32_at, string_at};
ghost use Rattle.gdb_index_format.specs.Probe.{index_fault, slot_count, vector_at, step_in, probe};
ghost use Rattle.gdb_index_format.specs.Version as format;
ghost use Rattle.gdb_index.specs.Parts.{ArePartsOf};
ghost use Rattle.gdb_index.specs.steps.Lookup.{seen_step};

use crate::hash::gdb_hash;
use crate::table::slot_at;
use crate::vector::CuVector;
use crate::version::{MIN_HEADER_LEN, header_len, is_known, pool_field};
use elf_words::{first_zero, read_u32};
use gdb_index_format::BadIndex;
use search_steps::Steps;
use std::sync::ledger::Ledger;

/// The parts of an index that a probe reads.
#[derive(Clone, Copy, Debug)]
pub struct Parts {
    /// The offset of the symbol hash table, in bytes.
    pub table: usize,
    /// The number of slots of the symbol hash table: 0, or a power of two.
    pub slots: usize,
    /// The offset of the constant pool, in bytes.
    pub pool: usize,
}

/// What one probe step reads.
#[derive(Drop)]
enum ProbeStep<'a> {
    /// The end of the probe.
    Ends(Result<Option<CuVector<'a>>, BadIndex>),
    /// A collision with another name.
    Passes,
}

/// Reports whether bytes are too short for the header that their version has: 24 bytes in version 8, and 28 in any other.
pub fn is_short(index: &[u8]) -> bool
    ensures { result ≡ nat_lt (length index.now) (format.header_len (u32_at index.now 0)) }
{
    index.len() < MIN_HEADER_LEN || index.len() < header_len(read_u32(index, 0)) as usize
}

/// Returns the parts of an index that a probe reads. The error is `Version`, `Offsets` or `Slots`, the first that applies to
/// the index as a whole.
///
/// Requires bytes that are not too short for their header, by `is_short`.
#[tactic(auto, unfolding(gdb_index_format::specs::Probe::index_fault, gdb_index_format::specs::Probe::are_in_order, gdb_index_format::specs::Probe::is_table, gdb_index_format::specs::Probe::slot_count, gdb_index_format::specs::Probe::pool_at, gdb_index_format::specs::Probe::table_at))]
pub fn parts_of(index: &[u8]) -> Result<Parts, BadIndex>
    requires { format.header_len (u32_at index.now 0) ≤ length index.now }
    ensures { MatchResult result (ArePartsOf index.now) (λ fault. index_fault index.now ≡ Some fault) }
{
    let version = read_u32(index, 0);
    if !is_known(version) {
        return Err(BadIndex::Version);
    }
    let units = read_u32(index, 4) as usize;
    let types = read_u32(index, 8) as usize;
    let addresses = read_u32(index, 12) as usize;
    let table = read_u32(index, 16) as usize;
    let shortcuts = read_u32(index, 20) as usize;
    let pool = read_u32(index, pool_field(version)) as usize;
    let in_order = header_len(version) as usize <= units
        && units <= types
        && types <= addresses
        && addresses <= table
        && table <= shortcuts
        && shortcuts <= pool
        && pool <= index.len();
    if !in_order {
        return Err(BadIndex::Offsets);
    }
    let slots = (shortcuts - table) / 8;
    if (shortcuts - table) % 8 != 0 || !(slots == 0 || slots.is_power_of_two()) {
        return Err(BadIndex::Slots);
    }
    Ok(Parts { table, slots, pool })
}

/// Returns the bytes from an offset up to the first zero byte; None where there is none.
#[tactic(auto, using(std::proofs::lemmas::List::take_rest), unfolding(elf_format::specs::Bytes::string_at))]
pub fn name_from(index: &[u8], at: usize) -> Option<&[u8]>
    ensures { option_copied result ≡ string_at index.now at }
{
    if index.len() < at {
        return None;
    }
    let tail = &index[at..];
    let len = first_zero(tail)?;
    Some(&tail[..len])
}

/// Returns the CU vector at an offset: a count, and so many elements. The error is `VectorOutside`, exactly where one of
/// them is out of range.
///
/// Requires an offset below 2^33.
#[tactic(auto, unfolding(gdb_index_format::specs::Probe::vector_at))]
pub fn vector_from(index: &[u8], at: usize) -> Result<CuVector<'_>, BadIndex>
    requires { at < 2 ^ 33 }
    ensures { MatchResult result
        (λ words. vector_at index.now at ≡ Ok (Some words))
        (λ fault. vector_at index.now at ≡ Err fault) }
{
    if index.len() < at + 4 {
        return Err(BadIndex::VectorOutside);
    }
    let count = read_u32(index, at) as usize;
    if index.len() < at + 4 + 4 * count {
        return Err(BadIndex::VectorOutside);
    }
    Ok(CuVector::new(&index[at + 4..at + 4 + 4 * count]))
}

/// Reads a slot for a name.
#[tactic(auto, unfolding(gdb_index_format::specs::Probe::step_in))]
fn probe_slot<'a>(index: &'a [u8], name: &[u8], parts: Parts, slot: usize) -> ProbeStep<'a>
    requires parts { ArePartsOf index.now parts }
    requires within { slot < parts.slots }
    ensures { seen_step result ≡ step_in index.now name.now slot }
{
    let at = parts.table + 8 * slot;
    let name_offset = read_u32(index, at) as usize;
    let vector_offset = read_u32(index, at + 4) as usize;
    if name_offset == 0 && vector_offset == 0 {
        return ProbeStep::Ends(Ok(None));
    }
    match name_from(index, parts.pool + name_offset) {
        None => ProbeStep::Ends(Err(BadIndex::NameOutside)),
        Some(stored) if stored == name => ProbeStep::Ends(vector_from(
            index,
            parts.pool + vector_offset,
        ).map(Some)),
        Some(_) => ProbeStep::Passes,
    }
}

/// Returns the CU vector of a name, or None where the index does not hold the name. Names are compared byte by byte.
/// Bytes that are shorter than the header, 24 bytes in version 8 and 28 in any other, hold no name. Each slot that the probe reads is one step; there are at most as many steps as
/// slots. The lookup allocates nothing.
///
/// The error is the first of these that applies: `Version`, `Offsets` and `Slots` for the index as a whole;
/// `NameOutside` where a slot that the probe reads has a name with no zero byte before the end of the index;
/// `VectorOutside` where the CU vector of the name is truncated.
#[tactic(auto, unfolding(gdb_index_format::specs::Probe::probe, gdb_index_format::specs::Probe::probe_from))]
pub fn lookup<'a, L: Ledger>(
    index: &'a [u8],
    name: &[u8],
    steps: &mut Steps<L>,
) -> Result<Option<CuVector<'a>>, BadIndex>
    ensures answer { result ≡ (probe index.now name.now).answer }
    ensures counted { steps.new ≡ steps.old + (probe index.now name.now).steps }
    ensures few { (probe index.now name.now).steps ≤ slot_count index.now }
{
    if is_short(index) {
        return Ok(None);
    }
    let parts = parts_of(index)?;
    let hash = gdb_hash(name);
    for step in 0..parts.slots {
        steps.tick();
        if let ProbeStep::Ends(answer) = probe_slot(
            index,
            name,
            parts,
            slot_at(parts.slots, hash, step),
        ) {
            return answer;
        }
    }
    Ok(None)
}
