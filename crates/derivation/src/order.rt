//! The SFrame section with its functions in the order of their addresses (SFrame 2, The SFrame Function Descriptor
//! Entries).

ghost use Rattle.std.specs.Prelude.{◌≡◌, ◌⊎◌, OnOk, IfOk, IfErr};
ghost use Rattle.sframe_format.specs.Sorted.{SortOf};
ghost use Rattle.sframe_format.specs.Valid as frames;
ghost use Rattle.derivation.specs.declared.error.DeriveError.TheVariants.{NoMemory};
ghost use Rattle.derivation.specs.Cause.{IsUnordered};

use crate::DeriveError;
use elf_format::Span;
use sframe_format::SframeOutcome;
use sframe_order::sort_sframe_section;
use std::alloc::Global;

/// Returns the bytes of the section after ordering, and the outcome. The given bytes stay as they are.
pub(crate) fn order_sframe(
    alloc: Global,
    sframe: &[u8],
    ranges: &[Span],
    base: u64,
) -> Result<(Vec<u8>, SframeOutcome), DeriveError>
    ensures sorted { IfOk result (λ ordered. SortOf sframe.now ranges.now ordered.0.items ordered.1) }
    ensures valid { OnOk result (frames.IsSortable sframe.now ranges.now) }
    ensures cause { IfErr result (λ e. (e ≡ NoMemory) ⊎ IsUnordered sframe.now ranges.now e) }
{
    let mut bytes = Vec::with_capacity(alloc, sframe.len())?;
    bytes.extend_from_slice(sframe)?;
    let outcome = sort_sframe_section(alloc, &mut bytes, base, ranges)?;
    Ok((bytes, outcome))
}
