//! The symbol hash table of an index (GDB manual, "Index Section Format": the symbol table) while it is filled.

ghost use Rattle.std.specs.Prelude.{◌≡◌, ◌↔◌, ℕ, ◌+◌, ◌*◌, ◌<◌, ◌≤◌, ◌^◌, IsTrue, length};
ghost use Rattle.std.specs.Int.{IsPowerOfTwo};
ghost use Rattle.gdb_index_format.specs.Slots.{slot_of};
ghost use Rattle.gdb_index.specs.steps.FreeSlots.{IsFree, IsFirstFree, HasFreeSlot, with_slot};

use elf_words::read_u32;

fn is_free(table: &[u8], slot: usize) -> bool
    requires { 8 * slot + 8 ≤ length table.now }
    ensures { IsTrue result ↔ IsFree table.now slot }
{
    read_u32(table, 8 * slot) == 0 && read_u32(table, 8 * slot + 4) == 0
}

fn put_slot(table: &mut [u8], slot: usize, name: u32, vector: u32)
    requires { 8 * slot + 8 ≤ length table.old }
    ensures { table.new ≡ with_slot table.old slot (record { name = name; vector = vector }) }
{
    let at = 8 * slot;
    table[at..at + 4].copy_from_slice(&name.to_le_bytes());
    table[at + 4..at + 8].copy_from_slice(&vector.to_le_bytes());
}

/// Returns the slot that step `step` of a probe reads, from step 0 on, by the hash of the name.
///
/// Requires a step below the number of slots, of which there are fewer than 2^32.
pub fn slot_at(slots: usize, hash: u32, step: usize) -> usize
    requires some { 0 < slots }
    requires table { slots < 2 ^ 32 }
    requires within { step < slots }
    ensures is { result ≡ slot_of slots hash step }
    ensures below { result < slots }
{
    let step_size = u64::from(hash.wrapping_mul(17)) % slots as u64 | 1;
    ((u64::from(hash) + step as u64 * step_size) % slots as u64) as usize
}

/// Puts a name and its CU vector, by their offsets in the constant pool, into the first free slot of the name's probe,
/// whose first `passed` steps are known to meet taken slots. Returns the number of steps that met taken slots.
pub(crate) fn insert_name(
    table: &mut [u8],
    slots: usize,
    hash: u32,
    passed: usize,
    name: u32,
    vector: u32,
) -> usize
    requires room { HasFreeSlot table.old slots }
    requires table { slots < 2 ^ 32 }
    requires passed { (step : ℕ) → step < passed → IsFree table.old (slot_of slots hash step) → ⊥ }
    ensures first { IsFirstFree table.old slots hash result }
    ensures puts { table.new ≡ with_slot table.old (slot_of slots hash result) (record { name = name; vector = vector }) }
{
    let mut step = passed;
    while !is_free(table, slot_at(slots, hash, step)) {
        step += 1;
    }
    put_slot(table, slot_at(slots, hash, step), name, vector);
    step
}
