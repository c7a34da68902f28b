//! The hash of a name, the elements of its CU vector, and the slot count of the symbol hash table (GDB manual, "Index
//! Section Format").

ghost use Rattle.std.specs.Prelude.{◌≡◌, ◌+◌, ◌*◌, ◌<◌, ◌^◌};
ghost use Rattle.gdb_index_format.specs.Hash.{name_hash, element_of};
ghost use Rattle.gdb_index_format.specs.Slots.{IsSlotCount};

/// Returns the hash of a name. A to Z count as a to z; every other byte counts as itself.
pub fn gdb_hash(name: &[u8]) -> u32
    ensures { result ≡ name_hash name.now }
{
    let mut hash: u32 = 0;
    for byte in name {
        hash = hash
            .wrapping_mul(67)
            .wrapping_add(u32::from(byte.to_ascii_lowercase()))
            .wrapping_sub(113);
    }
    hash
}

/// Returns the element of a CU vector for a compilation unit (CU) and the flag byte of a published name. `unit` is the
/// CU index, from 0 and below 16,777,216, and stands in bits 0 to 23. Bits 4 to 6 of the flag byte, the symbol kind,
/// stand in bits 28 to 30, and its bit 7, the static bit, in bit 31.
pub fn encode_cu_vector_entry(unit: u32, attrs: u8) -> u32
    requires { unit < 2 ^ 24 }
    ensures { result ≡ element_of unit attrs }
{
    let attrs = u32::from(attrs);
    unit | ((attrs >> 4) & 7) << 28 | (attrs >> 7) << 31
}

/// Returns the slot count of the symbol hash table of `count` names: 0 for 0, else the least power of two above
/// `count * 4 / 3`.
pub fn compute_hash_table_slots(count: usize) -> usize
    requires { 4 * count < 2 ^ 64 }
    ensures { IsSlotCount count result }
{
    if count == 0 {
        return 0;
    }
    (count * 4 / 3 + 1).next_power_of_two()
}
