//! Alignments: powers of two, as of a section or a segment (gABI, `sh_addralign`, `p_align`).

ghost use Rattle.std.specs.Prelude.{◌≡◌, ◌<◌, ◌≤◌, ◌%◌, ◌^◌, ◌==◌, ◌||◌, ℕ, IsTrue, IfOk, is_ok, max};
ghost use Rattle.std.specs.Int.{is_power_of_two};
ghost use Rattle.elf_words.specs.Align.{next_like};

use std::marker::Model;

/// The number is no alignment: it is neither 0 nor a power of two.
#[derive(Clone, Copy, Debug, PartialEq, Eq)]
pub struct BadAlignment;

/// A power of two, in bytes.
#[derive(Clone, Copy, Debug, PartialEq, Eq)]
pub struct Alignment {
    value: u64,
}

impl Model for Alignment {
    ghost use Rattle.std.specs.Prelude.{ℕ, ◌<◌, IsTrue};
    ghost use Rattle.std.specs.Int.{is_power_of_two};

    ghost Value = { ℕ };

    ghost view = { λ a. a.value };

    ghost invariant = { λ a. (0 < a.value) × IsTrue (is_power_of_two a.value) };

    ghost inverse = { λ n. record { value = n } };
}

impl Alignment {
    /// Returns the alignment of a number of bytes; 0 means 1. `BadAlignment` exactly where the number is
    /// neither 0 nor a power of two.
    pub fn new(value: u64) -> Result<Alignment, BadAlignment>
        ensures taken { is_ok result ≡ (value == 0 || is_power_of_two value) }
        ensures value { IfOk result (λ a. a ≡ max 1 value) }
    {
        if value == 0 {
            return Ok(Alignment { value: 1 });
        }
        if !value.is_power_of_two() {
            return Err(BadAlignment);
        }
        Ok(Alignment { value })
    }

    /// Returns the alignment in bytes: 1, 2, 4 and so on.
    pub fn value(self) -> u64
        ensures value { result ≡ self }
        ensures power { IsTrue (is_power_of_two result) }
        ensures above { 0 < result }
    {
        self.value
    }

    /// Returns the least multiple of the alignment that is not below `value`. Requires that it fits 64 bits.
    pub fn align_up(self, value: u64) -> u64
        requires { next_like self 0 value < 2 ^ 64 }
        ensures value { result ≡ next_like self 0 value }
        ensures above { value ≤ result }
        ensures multiple { result % self ≡ 0 }
        ensures least { (m : ℕ) → value ≤ m → m % self ≡ 0 → result ≤ m }
    {
        self.align_modulo(0, value)
    }

    /// Returns the least number not below `value` that is congruent to `like` modulo the alignment. Requires
    /// that it fits 64 bits.
    pub fn align_modulo(self, like: u64, value: u64) -> u64
        requires { next_like self like value < 2 ^ 64 }
        ensures value { result ≡ next_like self like value }
        ensures above { value ≤ result }
        ensures congruent { result % self ≡ like % self }
        ensures least { (m : ℕ) → value ≤ m → m % self ≡ like % self → result ≤ m }
    {
        let wanted = like % self.value;
        let rest = value % self.value;
        if rest <= wanted {
            value + (wanted - rest)
        } else {
            value + (self.value - rest + wanted)
        }
    }
}
