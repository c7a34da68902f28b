//! The compilation units (CUs) of `.debug_info`, which follow one another from its first byte on (DWARF 5, 7.5.1).
//! Each begins with its initial length (7.4), and nothing else of it is read.

ghost use Rattle.std.specs.Prelude.{◌≡◌, ℕ, List, ◌+◌, ◌<◌, ◌≤◌, ◌^◌, length, IfOk, IfErr};
ghost use Rattle.gdb_index_format.specs.declared.unit.CuBoundary.{CuBoundary as CuBoundary_spec};
ghost use Rattle.gdb_index_format.specs.Units.{unit_length, IsUnitList};
ghost use Rattle.dwarf_sections.specs.UnitCause.{IsUnitListCause, IsUnitMemory};
ghost use Rattle.dwarf_sections.specs.steps.CauseAt.{HasCauseAt};

use elf_words::{read_u32, read_u64};
use gdb_index_format::CuBoundary;
use std::alloc::{AllocFailed, Global};
use thiserror::Error;

/// Why the units of `.debug_info` are not read. Each offset is in bytes from the start of the section.
#[derive(Clone, Copy, Debug, PartialEq, Eq, Error)]
pub enum UnitError {
    /// The initial length of the unit at this offset begins with 0xffffffff, and the eight bytes after that are truncated.
    #[error("the initial length of the unit at {offset} is truncated")]
    Truncated { offset: u64 },
    /// The end of the unit at this offset is out of range: it lies after the end of the bytes.
    #[error("the unit at {offset} ends after its section")]
    InvalidLength { offset: u64 },
    /// Out of memory.
    #[error("out of memory")]
    NoMemory,
}

impl<T: Drop> From<AllocFailed<T>> for UnitError {
    ghost use Rattle.std.specs.Prelude.{◌≡◌};
    ghost use Rattle.dwarf_sections.specs.declared.units.UnitError.TheVariants.{NoMemory};

    ghost from_gives = { λ _ e. e ≡ NoMemory };

    fn from(_: AllocFailed<T>) -> Self {
        UnitError::NoMemory
    }
}

/// Returns the length in bytes of the unit at an offset, its initial length included, where the bytes hold all of it.
#[tactic(auto, unfolding(gdb_index_format::specs::Units::unit_length))]
fn unit_length_at(bytes: &[u8], at: usize) -> Result<usize, UnitError>
    requires { at + 4 ≤ length bytes.now }
    ensures ok { IfOk result (λ n. n ≡ unit_length bytes.now at) }
    ensures within { IfOk result (λ n. at + n ≤ length bytes.now) }
    ensures cause { IfErr result (HasCauseAt bytes.now at) }
{
    let left = bytes.len() - at;
    let first = read_u32(bytes, at);
    let length = if first == 0xffff_ffff {
        if left < 12 {
            return Err(UnitError::Truncated { offset: at as u64 });
        }
        u128::from(read_u64(bytes, at + 4)) + 12
    } else {
        u128::from(first) + 4
    };
    if length > left as u128 {
        return Err(UnitError::InvalidLength { offset: at as u64 });
    }
    Ok(length as usize)
}

/// Returns the units of `.debug_info`, in order, each with its offset and its length in bytes (DWARF 5, 7.4 and
/// 7.5.1). They tile the bytes up to a rest of at most three bytes, which is ignored.
///
/// `Truncated` and `InvalidLength` have the first offset at which no unit begins, and come exactly where there is one.
/// `NoMemory` may come at any bytes.
pub fn parse_cu_boundaries(alloc: Global, bytes: &[u8]) -> Result<Vec<CuBoundary>, UnitError>
    ensures ok { IfOk result (λ units. IsUnitList bytes.now units.items) }
    ensures cause { IfErr result (IsUnitListCause bytes.now) }
    ensures complete { (units : List CuBoundary_spec) → IsUnitList bytes.now units → IfErr result IsUnitMemory }
{
    let mut units = Vec::new(alloc);
    let mut at = 0;
    while bytes.len() - at >= 4 {
        let length = unit_length_at(bytes, at)?;
        units.push(CuBoundary {
            offset: at as u64,
            length: length as u64,
        })?;
        at += length;
    }
    Ok(units)
}
