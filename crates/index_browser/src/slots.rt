//! Reads the symbol hash table of an index slot by slot (GDB manual, "Index Section Format": the symbol table).

ghost use Rattle.std.specs.Prelude.{◌≡◌, ◌==◌, ◌<◌, ◌^◌, IfSome, false};
ghost use Rattle.gdb_index_format.specs.Probe.{step_in};
ghost use Rattle.gdb_index.specs.Parts.{ArePartsOf};
ghost use Rattle.index_browser.specs.Stored.{last_slot};
ghost use Rattle.index_browser.specs.steps.Offsets.{HasFormat};
ghost use Rattle.index_browser.specs.steps.Taken.{taken_in, does_pass};

use elf_words::read_u32;
use gdb_index::{Parts, gdb_hash, name_from, slot_at};

/// The offsets of the name and of the CU vector of a taken slot.
#[derive(Clone, Copy, Debug)]
pub(crate) struct Taken {
    pub name: usize,
    pub vector: usize,
}

/// Returns what a slot holds, or None where it is free.
#[tactic(auto, unfolding(crate::specs::steps::Taken::taken_in, gdb_index_format::specs::Probe::table_at))]
pub(crate) fn taken_at(index: &[u8], parts: &Parts, slot: usize) -> Option<Taken>
    requires parts { ArePartsOf index.now parts.now }
    requires within { slot < parts.now.slots }
    ensures taken { result ≡ taken_in index.now slot }
    ensures small { IfSome result (λ t. (t.name < 2 ^ 33) × (t.vector < 2 ^ 33)) }
{
    let at = parts.table + 8 * slot;
    let name = read_u32(index, at) as usize;
    let vector = read_u32(index, at + 4) as usize;
    if name == 0 && vector == 0 {
        return None;
    }
    Some(Taken {
        name: parts.pool + name,
        vector: parts.pool + vector,
    })
}

/// Reports whether a probe for a name goes on after it read a slot: another name stands there.
fn passes(index: &[u8], parts: &Parts, name: &[u8], slot: usize) -> bool
    requires parts { ArePartsOf index.now parts.now }
    requires within { slot < parts.now.slots }
    ensures { result ≡ does_pass (step_in index.now name.now slot) }
{
    let Some(taken) = taken_at(index, parts, slot) else {
        return false;
    };
    let Some(stored) = name_from(index, taken.name) else {
        return false;
    };
    stored != name
}

/// Reports whether the probe for the name that stands in a slot ends at that slot.
pub(crate) fn ends_at(index: &[u8], parts: &Parts, name: &[u8], slot: usize) -> bool
    requires format { HasFormat index.now }
    requires parts { ArePartsOf index.now parts.now }
    requires within { slot < parts.now.slots }
    requires here { does_pass (step_in index.now name.now slot) ≡ false }
    ensures { result ≡ (last_slot index.now name.now == slot) }
{
    let hash = gdb_hash(name);
    let last = parts.slots - 1;
    for step in 0..last {
        let at = slot_at(parts.slots, hash, step);
        if at == slot {
            return true;
        }
        if !passes(index, parts, name, at) {
            return false;
        }
    }
    slot_at(parts.slots, hash, last) == slot
}
