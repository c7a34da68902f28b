//! Records of a list in CREL (LLVM), each stated by what changes from the record before it: a first byte with the
//! low part of the offset's change above its flags, then only those changes whose flags are set. Offset and
//! addend wrap at 64 bits, symbol and relocation type at 32.

ghost use Rattle.std.specs.Prelude.{◌≡◌, ◌≤◌, ◌<◌, length, ◌&&◌};
ghost use Rattle.elf_format.specs.Cursor.{Returns};
ghost use Rattle.elf_format.specs.Crel.{has_bit, change, offset_rest, add_32, add_64, add_offset, record_front, shifted, flags_end};

use elf_format::{Crel, CrelError};
use elf_words::ByteCursor;

/// Reads a change in SLEB128 where its flag is set, else 0. Returns it with the bytes after it.
#[tactic(auto, unfolding(elf_format::specs::Crel::change))]
fn read_change(is_there: bool, bytes: &[u8]) -> Result<(i64, &[u8]), CrelError>
    ensures { Returns (λ x. (x.0, x.1.now)) result (change is_there bytes.now) }
{
    if !is_there {
        return Ok((0, bytes));
    }
    let mut cursor = ByteCursor::new(bytes);
    let change = cursor.read_sleb128()?;
    Ok((change, cursor.rest()))
}

/// Reads the higher part of an offset's change in ULEB128 where the first byte is 128 or more, else 0. Returns
/// it with the bytes after it.
#[tactic(auto, unfolding(elf_format::specs::Crel::offset_rest))]
fn read_offset_rest(byte: u8, bytes: &[u8]) -> Result<(u64, &[u8]), CrelError>
    ensures { Returns (λ x. (x.0, x.1.now)) result (offset_rest byte bytes.now) }
{
    if byte < 128 {
        return Ok((0, bytes));
    }
    let mut cursor = ByteCursor::new(bytes);
    let rest = cursor.read_uleb128()?;
    Ok((rest, cursor.rest()))
}

/// Adds a change to a symbol index or a relocation type, wrapping at 32 bits.
fn sum_32(number: u32, change: i64) -> u32
    ensures { result ≡ add_32 number change }
{
    let low = change.cast_unsigned() % (1 << 32);
    number.wrapping_add(low as u32)
}

/// Adds a change to an addend, wrapping at 64 bits.
fn sum_64(number: i64, change: i64) -> i64
    ensures { result ≡ add_64 number change }
{
    number.wrapping_add(change)
}

/// Adds to an offset the low part of its change and `unit` times the higher part, wrapping at 64 bits.
fn sum_of_offset(sum: u64, low: u64, rest: u64, unit: u64) -> u64
    ensures { result ≡ add_offset sum low rest unit }
{
    sum.wrapping_add(low).wrapping_add(rest.wrapping_mul(unit))
}

/// Returns the weight of the lowest bit above the flags: 8 with addends, else 4.
fn end_of_flags(has_addends: bool) -> u8
    ensures { result ≡ flags_end has_addends }
{
    if has_addends { 8 } else { 4 }
}

/// Returns whether the bit of a weight is set.
fn has_flag(byte: u8, value: u8) -> bool
    requires { 0 < value }
    ensures { result ≡ has_bit byte value }
{
    byte / value % 2 == 1
}

/// Returns whether a record states a change of the addend.
fn may_change(has_addends: bool, byte: u8) -> bool
    ensures { result ≡ (has_addends && has_bit byte 4) }
{
    has_addends && has_flag(byte, 4)
}

/// Decodes the record that follows `last`, with its offset not yet shifted. Returns it with the bytes after it.
#[tactic(auto, unfolding(elf_format::specs::Crel::record_front))]
pub(crate) fn read_record(
    has_addends: bool,
    last: Crel,
    bytes: &[u8],
) -> Result<(Crel, &[u8]), CrelError>
    ensures { Returns (λ x. (x.0, x.1.now)) result (record_front has_addends last bytes.now) }
{
    let [byte, rest @ ..] = bytes else {
        return Err(CrelError::Truncated);
    };
    let byte = *byte;
    let unit = end_of_flags(has_addends);
    let (high, rest) = read_offset_rest(byte, rest)?;
    let (symbol, rest) = read_change(has_flag(byte, 1), rest)?;
    let (relocation_type, rest) = read_change(has_flag(byte, 2), rest)?;
    let (addend, rest) = read_change(may_change(has_addends, byte), rest)?;
    let record = Crel {
        offset: sum_of_offset(
            last.offset,
            u64::from(byte % 128 / unit),
            high,
            u64::from(128 / unit),
        ),
        symbol: sum_32(last.symbol, symbol),
        kind: sum_32(last.kind, relocation_type),
        addend: sum_64(last.addend, addend),
    };
    Ok((record, rest))
}

/// Shifts a record's offset left by the header's shift, wrapping at 64 bits.
pub(crate) fn shift_offset(relocation: Crel, shift: u32) -> Crel
    requires { shift < 4 }
    ensures { result ≡ shifted shift relocation }
{
    Crel {
        offset: relocation.offset.wrapping_shl(shift),
        ..relocation
    }
}
