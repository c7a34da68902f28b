//! Why a list's relocations are not returned: the list is malformed CREL, or an allocation failed.

use elf_format::CrelError;
use std::alloc::{AllocError, AllocFailed};

/// Why a list's relocations are not returned.
#[derive(Clone, Copy, Debug, PartialEq, Eq)]
pub enum CrelFault {
    /// The list is in CREL and malformed: `Truncated` or `TooLong`.
    Crel(CrelError),
    /// An allocation failed.
    NoMemory,
}

impl From<CrelError> for CrelFault {
    ghost use Rattle.std.specs.Prelude.{◌≡◌};
    ghost use Rattle.elf_relocs.specs.declared.fault.CrelFault.TheVariants as fault;

    ghost from_gives = { λ e f. f ≡ fault.Crel e };

    fn from(error: CrelError) -> Self {
        CrelFault::Crel(error)
    }
}

impl From<AllocError> for CrelFault {
    ghost use Rattle.std.specs.Prelude.{◌≡◌};
    ghost use Rattle.elf_relocs.specs.declared.fault.CrelFault.TheVariants as fault;

    ghost from_gives = { λ _ f. f ≡ fault.NoMemory };

    fn from(_: AllocError) -> Self {
        CrelFault::NoMemory
    }
}

impl<T: Drop> From<AllocFailed<T>> for CrelFault {
    ghost use Rattle.std.specs.Prelude.{◌≡◌};
    ghost use Rattle.elf_relocs.specs.declared.fault.CrelFault.TheVariants as fault;

    ghost from_gives = { λ _ f. f ≡ fault.NoMemory };

    fn from(_: AllocFailed<T>) -> Self {
        CrelFault::NoMemory
    }
}
