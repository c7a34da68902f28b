//! Numbers in LEB128 (DWARF 5, 7.6): seven bits a byte, the lowest first. A byte of 128 or more means that
//! another byte follows. A number has at most 64 bits, and so at most ten bytes.

ghost use Rattle.std.specs.Prelude.{◌≡◌, ◌+◌, ◌*◌, ◌^◌, ◌<◌, ◌≤◌, ◌++◌, length, Some, None, IfOk, is_ok, if◌then◌else◌};
ghost use Rattle.elf_format.specs.Leb128.{group_sum, signed_below, is_i64, number_bytes, leb128_groups, groups_before, uleb128_form, sleb128_form, magnitude};
ghost use Rattle.elf_format.specs.Cursor.{Returns};

use elf_format::CursorError;
use std::alloc::AllocError;

/// Returns the bytes of the first number, and the bytes after it.
pub(crate) fn split_number(bytes: &[u8]) -> Result<(&[u8], &[u8]), CursorError>
    ensures value { Returns (λ x. (x.0.now, x.1.now)) result (number_bytes bytes.now) }
    ensures short { IfOk result (λ x. length x.0.now ≤ 10) }
{
    for (i, byte) in bytes.iter().enumerate() {
        if *byte < 128 {
            return Ok(bytes.split_at(i + 1));
        }
        if i == 9 {
            return Err(CursorError::TooLong);
        }
    }
    Err(CursorError::Short)
}

/// Returns the sum of the groups of seven bits, and the power of 128 that bounds it.
pub(crate) fn sum_of_groups(bytes: &[u8]) -> (u128, u128)
    requires { length bytes.now ≤ 10 }
    ensures sum { result.0 ≡ group_sum bytes.now }
    ensures scale { result.1 ≡ 128 ^ length bytes.now }
    ensures below { result.0 < result.1 }
    ensures small { result.1 < 2 ^ 71 }
{
    let mut sum = 0;
    let mut scale = 1;
    for byte in bytes {
        sum += u128::from(*byte % 128) * scale;
        scale *= 128;
    }
    (sum, scale)
}

/// Returns the number of a sum in two's complement, or None where it does not fit 64 bits.
pub(crate) fn signed_from(sum: u128, scale: u128) -> Option<i64>
    requires below { sum < scale }
    requires small { scale < 2 ^ 71 }
    ensures { result ≡ (if is_i64 (signed_below sum scale) then Some (signed_below sum scale) else None) }
{
    if 2 * sum < scale {
        i64::try_from(sum).ok()
    } else {
        let below = i64::try_from(scale - 1 - sum).ok()?;
        Some(-1 - below)
    }
}

/// Returns how many bytes of a number precede its last one, at most nine.
fn count_groups_before(number: u128) -> usize
    ensures value { result ≡ groups_before 9 number }
    ensures small { result ≤ 9 }
{
    let mut count = 0;
    let mut rest = number;
    while count < 9 && rest >= 128 {
        rest /= 128;
        count += 1;
    }
    count
}

/// Appends the groups of a number, `count` of them before the last one.
fn push_groups(out: &mut Vec<u8>, number: u128, count: usize) -> Result<(), AllocError>
    requires { count ≤ 9 }
    ensures { out.new.items ≡ (if is_ok result then out.old.items ++ leb128_groups count number else out.old.items) }
{
    let mut bytes = [0u8; 10];
    let mut rest = number;
    for i in 0..count {
        bytes[i] = 128 + (rest % 128) as u8;
        rest /= 128;
    }
    bytes[count] = (rest % 128) as u8;
    out.extend_from_slice(&bytes[..count + 1])
}

/// Returns the size of the shortest form of a number: 1 to 10 bytes.
#[tactic(auto, unfolding(elf_format::specs::Leb128::uleb128_size))]
pub fn uleb128_size(value: u64) -> usize
    ensures { result ≡ Rattle.elf_format.specs.Leb128.uleb128_size value }
{
    count_groups_before(u128::from(value)) + 1
}

/// Appends the shortest form of a number. Where memory runs out, `out` is unchanged.
#[tactic(auto, unfolding(elf_format::specs::Leb128::uleb128_form))]
pub fn push_uleb128(out: &mut Vec<u8>, value: u64) -> Result<(), AllocError>
    ensures { out.new.items ≡ (if is_ok result then out.old.items ++ uleb128_form value else out.old.items) }
{
    let number = u128::from(value);
    push_groups(out, number, count_groups_before(number))
}

/// Appends the shortest form of a signed number. Where memory runs out, `out` is unchanged.
#[tactic(auto, unfolding(elf_format::specs::Leb128::sleb128_form))]
pub fn push_sleb128(out: &mut Vec<u8>, value: i64) -> Result<(), AllocError>
    ensures { out.new.items ≡ (if is_ok result then out.old.items ++ sleb128_form value else out.old.items) }
{
    let size = magnitude_of(value);
    let count = count_groups_before(2 * size);
    let number = if value < 0 {
        128u128.pow(count as u32 + 1) - 1 - size
    } else {
        size
    };
    push_groups(out, number, count)
}

/// Returns the magnitude of a number: 0 for -1, 1 for -2.
fn magnitude_of(value: i64) -> u128
    ensures value { result ≡ magnitude value }
    ensures small { result < 2 ^ 63 }
{
    if value < 0 {
        (-1 - value) as u128
    } else {
        value as u128
    }
}
