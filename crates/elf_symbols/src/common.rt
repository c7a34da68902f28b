//! Common symbols (gABI, Special Section Indexes): the linker allocates them.

ghost use Rattle.std.specs.Prelude.{◌≡◌, ◌≤◌, ◌<◌, ◌^◌, MatchOption};
ghost use Rattle.elf_words.specs.Align.{next_like};

use elf_words::Alignment;

/// What the linker allocates for a common symbol.
#[derive(Clone, Copy, Debug, PartialEq, Eq)]
pub struct CommonSymbol {
    /// The size in bytes, rounded up to the alignment.
    pub size: u64,
    /// The alignment.
    pub alignment: Alignment,
    /// Whether each thread has its own copy.
    pub is_tls: bool,
}

/// Returns the least multiple of an alignment that is not below a size, or None exactly if it does not fit 64 bits.
pub(crate) fn common_size(alignment: Alignment, size: u64) -> Option<u64>
    ensures { MatchOption result (2 ^ 64 ≤ next_like alignment 0 size) (λ rounded. (next_like alignment 0 size < 2 ^ 64) × (rounded ≡ next_like alignment 0 size)) }
{
    let rest = size % alignment.value();
    if rest == 0 {
        return Some(size);
    }
    size.checked_add(alignment.value() - rest)
}
