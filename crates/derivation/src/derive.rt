//! Derives both tables from objects, in phases: an error of a phase comes only where the earlier phases succeed.

ghost use Rattle.std.specs.Prelude.{◌≡◌, ◌⊎◌, MatchResult, ◌<◌, ◌^◌, length, OnOk, IfOk, IfErr};
ghost use Rattle.sframe_format.specs.Sorted.{SortOf};
ghost use Rattle.gdb_index_format.specs.Version.{version_number};
ghost use Rattle.gdb_tables.specs.Index.{IsIndexOf};
ghost use Rattle.index_browser.specs.Checked.{IsChecked};
ghost use Rattle.derivation.specs.Cause.{HasCause};
ghost use Rattle.derivation.specs.Input.{input_of, input_given};
ghost use Rattle.derivation.specs.Objects.{parsed_of};
ghost use Rattle.derivation.specs.Valid.{IsValid};
ghost use Rattle.derivation.specs.declared.error.DeriveError.{DeriveError as DeriveError_spec};
ghost use Rattle.derivation.specs.declared.error.DeriveError.TheVariants.{NoMemory};
ghost use Rattle.derivation.specs.steps.Derived.{HasTablesOf, IsRefusedBy};

use crate::DeriveError;
use crate::input::Input;
use crate::laws::{indexes_are_checked, refused_for_one_cause, valid_has_no_cause};
use crate::object::parse_objects;
use crate::order::order_sframe;
use elf_format::{Architecture, Span};
use elf_words::first_outside;
use gdb_index_format::{CuBoundary, IndexVersion, NameWords, Placement};
use gdb_tables::{build_index, first_misplaced};
use sframe_format::SframeOutcome;
use std::alloc::Global;

/// The derived tables.
#[derive(Debug, Drop)]
pub struct Derived<'a> {
    /// The compilation units (CUs) of all objects in input order. Each offset, in bytes, is the sum of the lengths before it.
    pub units: Vec<CuBoundary>,
    /// The published names in ascending byte order, each with its CU vector.
    pub names: Vec<NameWords<'a>>,
    /// The bytes of `.gdb_index`: none without a CU.
    pub index: Vec<u8>,
    /// The bytes of the SFrame section, its functions ordered by address.
    pub sframe: Vec<u8>,
    /// The outcome of ordering the SFrame section.
    pub outcome: SframeOutcome,
}

/// Derives the tables, and returns the first error.
fn derive_phases<'a>(alloc: Global, input: &Input<'a, '_>) -> Result<Derived<'a>, DeriveError>
    requires buffer { length input.now.buffer.now < 2 ^ 39 }
    requires objects { length input.now.objects.now < 2 ^ 24 }
    ensures { MatchResult result (HasTablesOf (input_given input.now)) (IsRefusedBy (input_given input.now)) }
{
    if let Some(index) = first_outside(input.buffer.len(), input.objects) {
        return Err(DeriveError::BadSpan(index));
    }
    let files = match parse_objects(alloc, input.machine, input.buffer, input.objects) {
        Ok(files) => files,
        Err(error) => return Err(error),
    };
    if let Some(index) = first_misplaced(&files, input.placements) {
        return Err(DeriveError::BadPlacement(index));
    }
    let tables = build_index(alloc, &files, input.placements, input.version)?;
    match order_sframe(alloc, input.sframe, input.ranges, input.base) {
        Ok((sframe, outcome)) => Ok(Derived {
            units: tables.units,
            names: tables.names,
            index: tables.index,
            sframe,
            outcome,
        }),
        Err(error) => Err(error),
    }
}

/// Derives the tables of objects, which are spans of `buffer`, for a machine: their index for debuggers (GDB manual,
/// "Index Section Format"), and the given SFrame section ordered by address (SFrame 2), whose first byte is loaded
/// at `base`. The placements are the addresses of sections of the objects, the ranges the contributions of the SFrame
/// section, and the version is that of the index. The objects may be of both classes. There is no assumption on the bytes.
///
/// Input has tables exactly where each span lies in the buffer; each object is a well-formed relocatable file of the
/// machine; the placements ascend by object and section, name sections that exist, and have ends that fit 64 bits; the
/// sections that the index is made from are not compressed and hold compilation units (CUs) and sets of names; there are
/// at most 2^24 CUs; the index has fewer than 2^32 bytes; the relocations of an object with two CUs or more are read; and
/// the ranges and contributions of the SFrame section are well formed, have room and fit their fields. Each error but
/// `NoMemory` comes exactly where its cause is the first, in this order; no table is returned then. `NoMemory` may come
/// for any input.
///
/// Requires a buffer of fewer than 2^39 bytes and fewer than 2^24 objects. Spans may overlap.
pub fn derive_tables<'a>(
    alloc: Global,
    expected: Architecture,
    buffer: &'a [u8],
    objects: &[Span],
    placements: &[Placement],
    sframe: &[u8],
    ranges: &[Span],
    base: u64,
    version: IndexVersion,
) -> Result<Derived<'a>, DeriveError>
    requires buffer { length buffer.now < 2 ^ 39 }
    requires objects { length objects.now < 2 ^ 24 }

    // Ok exactly on valid input, and each error exactly by its cause
    ensures valid { OnOk result (IsValid (input_of expected buffer.now objects.now placements.now sframe.now ranges.now version)) }
    ensures cause { IfErr result (λ e. (e ≡ NoMemory) ⊎ HasCause (input_of expected buffer.now objects.now placements.now sframe.now ranges.now version) e) }
    ensures exact { (e : DeriveError_spec) → HasCause (input_of expected buffer.now objects.now placements.now sframe.now ranges.now version) e → MatchResult result (λ _. ⊥) (λ f. (f ≡ e) ⊎ (f ≡ NoMemory)) }
    ensures complete { IsValid (input_of expected buffer.now objects.now placements.now sframe.now ranges.now version) → IfErr result (λ e. e ≡ NoMemory) }

    // the tables
    ensures index { IfOk result (λ d. IsIndexOf (version_number version) (parsed_of buffer.now objects.now) placements.now d.units.items d.names.items d.index.items) }
    ensures checked { IfOk result (λ d. IsChecked d.index.items) }
    ensures sframe { IfOk result (λ d. SortOf sframe.now ranges.now d.sframe.items d.outcome) }
{
    refused_for_one_cause();
    valid_has_no_cause();
    indexes_are_checked();
    let input = Input {
        machine: expected,
        buffer,
        objects,
        placements,
        sframe,
        ranges,
        base,
        version,
    };
    match derive_phases(alloc, &input) {
        Ok(derived) => Ok(derived),
        Err(error) => Err(error),
    }
}
