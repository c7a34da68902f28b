//! Parses the objects of the input, each a relocatable file of the machine (gABI, ELF Header).

ghost use Rattle.std.specs.Prelude.{◌≡◌, ◌⊎◌, ℕ, false, List, length, IfOk, IfErr, OnOk};
ghost use Rattle.std.specs.Result.{result_err};
ghost use Rattle.elf_format.specs.declared.error.ElfError.{ElfError as ElfError_spec};
ghost use Rattle.elf_format.specs.Span.{AreInside, IsInside, span_bytes};
ghost use Rattle.elf_view.specs.AnyFile.{parsed};
ghost use Rattle.gdb_index_format.specs.Objects.{class_in};
ghost use Rattle.gdb_tables.specs.Files.{all_parsed};
ghost use Rattle.derivation.specs.declared.error.DeriveError.TheVariants.{BadElf, NoMemory};
ghost use Rattle.derivation.specs.Objects.{objects_of, parsed_at, parsed_of, kind_fault, object_fault, AreObjects, IsFirstFaulty};

use crate::DeriveError;
use elf_format::{Architecture, ElfError, Span};
use elf_view::AnyFile;
use elf_words::ET_REL;
use std::alloc::Global;

/// Returns why a well-formed file is no object for a machine: `Header` where it is not relocatable, then `Machine` where
/// it is for another machine.
fn fault_of_kind(file: &AnyFile<'_>, expected: Architecture) -> Option<ElfError>
    ensures { result ≡ kind_fault (class_in (parsed file.now).bytes) expected (parsed file.now).bytes }
{
    if file.file_type() != ET_REL {
        return Some(ElfError::Header);
    }
    if file.arch().machine() != expected.machine() {
        return Some(ElfError::Machine);
    }
    None
}

/// Parses the bytes of an object, of either class. The error is the first rule of files that the bytes break, then
/// `Header` where the object is not relocatable, then `Machine` where it is for another machine.
#[tactic(auto, unfolding(crate::specs::Objects::object_fault))]
fn parse_object(bytes: &[u8], expected: Architecture) -> Result<AnyFile<'_>, ElfError>
    ensures fault { result_err result ≡ object_fault expected bytes.now }
    ensures file { IfOk result (λ f. parsed f ≡ record { bytes = bytes.now; is_dynamic = false }) }
{
    let file = match AnyFile::parse_bytes(bytes, false) {
        Ok(file) => file,
        Err(error) => return Err(error),
    };
    match fault_of_kind(&file, expected) {
        Some(error) => Err(error),
        None => Ok(file),
    }
}

/// Parses the object at a span of the buffer.
fn parse_span<'a>(
    buffer: &'a [u8],
    span: Span,
    expected: Architecture,
) -> Result<AnyFile<'a>, ElfError>
    requires { IsInside (length buffer.now) span }
    ensures fault { result_err result ≡ object_fault expected (span_bytes buffer.now span) }
    ensures file { IfOk result (λ f. parsed f ≡ parsed_at buffer.now span) }
{
    match parse_object(&buffer[span.start..span.stop], expected) {
        Ok(file) => Ok(file),
        Err(kind) => Err(kind),
    }
}

/// Parses the objects at spans of the buffer, in their order. The error is that of the first object with a fault.
pub(crate) fn parse_objects<'a>(
    alloc: Global,
    expected: Architecture,
    buffer: &'a [u8],
    spans: &[Span],
) -> Result<Vec<AnyFile<'a>>, DeriveError>
    requires { AreInside (length buffer.now) spans.now }
    ensures files { IfOk result (λ files. all_parsed files.items ≡ parsed_of buffer.now spans.now) }
    ensures sound { OnOk result (AreObjects expected (objects_of buffer.now spans.now)) }
    ensures cause { IfErr result (λ e. (e ≡ NoMemory) ⊎ (index : ℕ) × (kind : ElfError_spec) × (e ≡ BadElf index kind) × IsFirstFaulty expected (objects_of buffer.now spans.now) index kind) }
{
    let mut files = Vec::new(alloc);
    for (index, span) in spans.iter().enumerate() {
        match parse_span(buffer, *span, expected) {
            Ok(file) => files.push(file)?,
            Err(kind) => return Err(DeriveError::BadElf(index, kind)),
        }
    }
    Ok(files)
}
