//! Bit ranges of a number.

ghost use Rattle.std.specs.Prelude.{◌≡◌, ◌-◌, ◌/◌, ◌%◌, ◌^◌, ◌≤◌};

/// Returns the bits `from` to `to - 1` as a number. Bit 0 is the lowest. Requires `from <= to <= 64`.
pub fn extract_bit_range(value: u64, from: u32, to: u32) -> u64
    requires order { from ≤ to }
    requires width { to ≤ 64 }
    ensures { result ≡ value / 2 ^ from % 2 ^ (to - from) }
{
    if from == to {
        return 0;
    }
    let above = value >> from;
    if to - from == 64 {
        return above;
    }
    above % (1 << (to - from))
}
