//! Fills the symbol hash table of an index with the names, in the order of the constant pool.

ghost use Rattle.std.specs.Prelude.{◌≡◌, ℕ, ◌+◌, ◌*◌, ◌<◌, ◌≤◌, ◌^◌, length};
ghost use Rattle.std.specs.Int.{IsPowerOfTwo};
ghost use Rattle.gdb_index_format.specs.Named.{all_named};
ghost use Rattle.gdb_index.specs.steps.FreeSlots.{zero_table};
ghost use Rattle.gdb_index.specs.Hashed.{hashes_of};
ghost use Rattle.gdb_index.specs.Pool.{vectors_len, names_len};
ghost use Rattle.gdb_index.specs.steps.FilledBytes.{IsFilledTable};

use crate::passed::{pass_steps, steps_passed};
use crate::pool::{name_len, vector_len};
use crate::table::{insert_name, slot_at};
use gdb_index_format::NameWords;

/// Puts each name, whose hash stands in `hashes`, into the first slot of its probe that no earlier name holds, in a table of zeros. The
/// CU vectors of all names have `vectors` bytes, and the names follow them. `passed` is written over: it counts the
/// probe steps that are known to meet taken slots.
pub(crate) fn fill_table(
    table: &mut [u8],
    passed: &mut [u8],
    slots: usize,
    names: &[NameWords<'_>],
    hashes: &[u32],
    vectors: u32,
)
    requires power { IsPowerOfTwo slots }
    requires small { slots < 2 ^ 32 }
    requires room { length names.now < slots }
    requires empty { table.old ≡ zero_table slots }
    requires hashed { hashes.now ≡ hashes_of (all_named names.now) }
    requires vectors { vectors ≡ vectors_len (all_named names.now) }
    requires fits { vectors_len (all_named names.now) + names_len (all_named names.now) < 2 ^ 32 }
    ensures { IsFilledTable table.new slots (all_named names.now) }
{
    passed.fill(0);
    let mut vector = 0;
    let mut name = vectors;
    for (index, named) in names.iter().enumerate() {
        let hash = hashes[index];
        let start = slot_at(slots, hash, 0);
        let known = steps_passed(passed, start);
        let step = insert_name(table, slots, hash, known, name, vector);
        pass_steps(passed, start, step + 1);
        vector += vector_len(named);
        name += name_len(named);
    }
}
