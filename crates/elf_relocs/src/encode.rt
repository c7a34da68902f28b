//! Encoder of relocation lists in CREL (LLVM): with addends, with shift 0, each number in its shortest form,
//! and only what changes from one record to the next.

ghost use Rattle.std.specs.Prelude.{◌≡◌, ◌++◌, ◌<◌, ◌^◌, ◌+◌, not, length, map, Ok, IfOk, OnOk};
ghost use Rattle.elf_format.specs.Crel.{flag, same_z, from_to_32, from_to_64, offset_form, change_form, record_form, list_form, crel_list};

use crate::relocation::ElfCrel;
use elf_format::Crel;
use elf_words::{ElfClass, push_sleb128, push_uleb128};
use std::alloc::{AllocError, Global};

/// Returns what is added to `old` to get `new`, wrapping at 32 bits.
fn from_to(old: u32, new: u32) -> i64
    ensures { result ≡ from_to_32 old new }
{
    i64::from(new.wrapping_sub(old).cast_signed())
}

/// Returns whether two addends differ.
fn differ(new: i64, old: i64) -> bool
    ensures { result ≡ not (same_z new old) }
{
    new != old
}

/// Returns the low three bits of a record's first byte: bit 0 for the symbol, bit 1 for the relocation type,
/// bit 2 for the addend.
fn flags_of(has_symbol: bool, has_type: bool, has_addend: bool) -> u8
    ensures value { result ≡ flag has_symbol 1 + flag has_type 2 + flag has_addend 4 }
    ensures small { result < 8 }
{
    u8::from(has_symbol) + 2 * u8::from(has_type) + 4 * u8::from(has_addend)
}

/// Appends a record's first byte, and the higher part of its offset's change where that is not 0.
#[tactic(auto, unfolding(elf_format::specs::Crel::offset_form))]
fn push_offset(out: &mut Vec<u8>, change: u64, flags: u8) -> Result<(), AllocError>
    requires { flags < 8 }
    ensures { OnOk result (out.new.items ≡ out.old.items ++ offset_form change flags) }
{
    if change < 16 {
        out.push(change as u8 * 8 + flags)?;
        return Ok(());
    }
    out.push(128 + (change % 16) as u8 * 8 + flags)?;
    push_uleb128(out, change / 16)
}

/// Appends a change where the flag for it is set.
#[tactic(auto, unfolding(elf_format::specs::Crel::change_form))]
fn push_change(out: &mut Vec<u8>, is_there: bool, change: i64) -> Result<(), AllocError>
    ensures { OnOk result (out.new.items ≡ out.old.items ++ change_form is_there change) }
{
    if is_there {
        return push_sleb128(out, change);
    }
    Ok(())
}

/// Appends the record that follows `last`.
#[tactic(auto, unfolding(elf_format::specs::Crel::record_form))]
fn push_record(out: &mut Vec<u8>, last: Crel, relocation: Crel) -> Result<(), AllocError>
    ensures { OnOk result (out.new.items ≡ out.old.items ++ record_form last relocation) }
{
    let has_symbol = relocation.symbol != last.symbol;
    let has_type = relocation.kind != last.kind;
    let has_addend = differ(relocation.addend, last.addend);
    let flags = flags_of(has_symbol, has_type, has_addend);
    push_offset(out, relocation.offset.wrapping_sub(last.offset), flags)?;
    push_change(out, has_symbol, from_to(last.symbol, relocation.symbol))?;
    push_change(out, has_type, from_to(last.kind, relocation.kind))?;
    push_change(out, has_addend, relocation.addend.wrapping_sub(last.addend))?;
    Ok(())
}

/// Returns the bytes of a list in CREL; they decode to the list. `AllocError` comes only where an allocation
/// fails.
#[tactic(auto, unfolding(elf_format::specs::Crel::list_form))]
pub fn encode_crel<C: ElfClass>(alloc: Global, list: &[ElfCrel<C>]) -> Result<Vec<u8>, AllocError>
    ensures written { IfOk result (λ v. v.items ≡ list_form (map (λ x. x.values) list.now)) }
    ensures decoded { IfOk result (λ v. crel_list v.items ≡ Ok (map (λ x. x.values) list.now)) }
{
    let mut out = Vec::new(alloc);
    push_uleb128(&mut out, 8 * list.len() as u64 + 4)?;
    // the first record states its changes from zeros
    let mut last = Crel {
        offset: 0,
        symbol: 0,
        kind: 0,
        addend: 0,
    };
    for relocation in list {
        let entry = relocation.entry();
        push_record(&mut out, last, entry)?;
        last = entry;
    }
    Ok(out)
}
