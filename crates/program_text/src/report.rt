//! The report: compilation units (CUs), names with their CU vectors, the outcome for the SFrame section, and the bytes of both tables, 32 a line.
//!
//! Every line ends with a line feed. Numbers are decimal, bytes and the elements of CU vectors lower-case hexadecimal. It is built in one
//! buffer, which is allocated once, in two parts: what the first is made from can be freed before the second.
ghost use Rattle.std.specs.Prelude.{◌≡◌, ◌≤◌, ◌<◌, ◌++◌, ◌∷◌, [], length, take, drop, codes, map, slice_index, IfOk, OnOk};
ghost use Rattle.std.specs.List.{flat_map};
ghost use Rattle.hex.specs.Hex.{encode_lower, lower_digits};
ghost use Rattle.program_text.specs.Lines.{text_of};
ghost use Rattle.program_text.specs.Report.{fields, unit_lines, name_digits, word_digits, named_line, name_line, outcome_line, byte_lines, section_lines, start_lines, table_lines};

use gdb_index_format::{CuBoundary, NameWords};
use itoa::Buffer;
use sframe_format::SframeOutcome;
use std::alloc::{AllocError, Global};

/// How many bytes a line shows.
const ROW: usize = 32;

/// The most digits of a number.
pub(crate) const DIGITS: usize = 20;

/// The most bytes that a line of a word or two and a number takes.
pub(crate) const LINE: usize = 20 + DIGITS;

/// Appends a line of words and numbers.
pub(crate) fn push_fields(out: &mut Vec<u8>, words: &str, numbers: &[u64]) -> Result<(), AllocError>
    ensures ok { OnOk result (out.new.items ≡ out.old.items ++ text_of (fields words.now numbers.now ∷ [])) }
{
    out.extend_from_slice(words.as_bytes())?;
    let mut buffer = Buffer::new();
    let mut rest = numbers;
    while let [number, after @ ..] = rest {
        out.extend_from_slice(b" ")?;
        out.extend_from_slice(buffer.format(*number).as_bytes())?;
        rest = after;
    }
    out.extend_from_slice(b"\n")?;
    Ok(())
}

/// Appends the line of each unit, numbered from 0.
pub(crate) fn push_units(out: &mut Vec<u8>, units: &[CuBoundary]) -> Result<(), AllocError>
    ensures ok { OnOk result (out.new.items ≡ out.old.items ++ text_of (unit_lines 0 units.now)) }
{
    for (number, unit) in units.iter().enumerate() {
        push_fields(out, "unit", &[number as u64, unit.offset, unit.length])?;
    }
    Ok(())
}

/// Returns the bytes of the first row, and those after it.
fn split_row(bytes: &[u8]) -> (&[u8], &[u8])
    ensures row { result.0.now ≡ take ROW bytes.now }
    ensures short { length result.0.now ≤ ROW }
    ensures after { result.1.now ≡ drop ROW bytes.now }
{
    if bytes.len() < ROW {
        (bytes, &[])
    } else {
        bytes.split_at(ROW)
    }
}

/// Returns the digit of a number below 16.
fn digit(number: u8) -> u8
    requires { number < 16 }
    ensures { result ≡ slice_index lower_digits number }
{
    if number < 10 {
        b'0' + number
    } else {
        b'a' + (number - 10)
    }
}

/// Appends the digits of a row of bytes. They are computed, and not looked up one by one, so that a compiler can do many at once.
fn push_row(out: &mut Vec<u8>, row: &[u8]) -> Result<(), AllocError>
    requires short { length row.now ≤ ROW }
    ensures ok { OnOk result (out.new.items ≡ out.old.items ++ encode_lower row.now) }
{
    let mut room = [0u8; 2 * ROW];
    'bytes: for i in 0..row.len() {
        let byte = row[i];
        room[2 * i] = digit(byte / 16);
        room[2 * i + 1] = digit(byte % 16);
    }
    out.extend_from_slice(&room[..2 * row.len()])?;
    Ok(())
}

/// Appends the digits of bytes.
#[tactic(auto, unfolding(hex::specs::Hex::encode_with))]
fn push_digits(out: &mut Vec<u8>, bytes: &[u8]) -> Result<(), AllocError>
    ensures ok { OnOk result (out.new.items ≡ out.old.items ++ encode_lower bytes.now) }
{
    let mut rest = bytes;
    'rows: while !rest.is_empty() {
        let (row, after) = split_row(rest);
        push_row(out, row)?;
        rest = after;
    }
    Ok(())
}

/// Appends the eight digits of an element of a CU vector.
#[tactic(auto, unfolding(hex::specs::Hex::encode_with))]
pub(crate) fn push_element(out: &mut Vec<u8>, element: u32) -> Result<(), AllocError>
    ensures ok { OnOk result (out.new.items ≡ out.old.items ++ word_digits element) }
{
    let [first, second, third, fourth] = element.to_be_bytes();
    let digits = [
        digit(first / 16),
        digit(first % 16),
        digit(second / 16),
        digit(second % 16),
        digit(third / 16),
        digit(third % 16),
        digit(fourth / 16),
        digit(fourth % 16),
    ];
    out.extend_from_slice(&digits)?;
    Ok(())
}

/// Appends the eight digits of each element of a CU vector, each after a space.
fn push_words(out: &mut Vec<u8>, words: &[u32]) -> Result<(), AllocError>
    ensures ok { OnOk result (out.new.items ≡ out.old.items ++ flat_map (λ word. codes " " ++ word_digits word) words.now) }
{
    let mut rest = words;
    while let [word, after @ ..] = rest {
        out.extend_from_slice(b" ")?;
        push_element(out, *word)?;
        rest = after;
    }
    Ok(())
}

/// Appends the line of a name with the elements of its CU vector: `name HEX` and eight digits each, by spaces, where HEX is `-` for the empty
/// name.
pub fn push_name(out: &mut Vec<u8>, name: &[u8], words: &[u32]) -> Result<(), AllocError>
    ensures ok { OnOk result (out.new.items ≡ out.old.items ++ text_of (named_line (record { name = name.now; words = words.now }) ∷ [])) }
{
    out.extend_from_slice(b"name ")?;
    if name.is_empty() {
        out.extend_from_slice(b"-")?;
    } else {
        push_digits(out, name)?;
    }
    push_words(out, words)?;
    out.extend_from_slice(b"\n")?;
    Ok(())
}

/// Appends the line of each name.
fn push_names(out: &mut Vec<u8>, names: &[NameWords<'_>]) -> Result<(), AllocError>
    ensures ok { OnOk result (out.new.items ≡ out.old.items ++ text_of (map name_line names.now)) }
{
    let mut rest = names;
    while let [named, after @ ..] = rest {
        push_name(out, named.name, &named.words)?;
        rest = after;
    }
    Ok(())
}

/// Appends the line of the outcome.
pub(crate) fn push_outcome(out: &mut Vec<u8>, outcome: SframeOutcome) -> Result<(), AllocError>
    ensures ok { OnOk result (out.new.items ≡ out.old.items ++ text_of (outcome_line outcome ∷ [])) }
{
    match outcome {
        SframeOutcome::Sorted { used } => push_fields(out, "outcome sorted", &[used as u64]),
        SframeOutcome::NoDescriptors => push_fields(out, "outcome none", &[]),
        SframeOutcome::OtherVersion(version) => {
            push_fields(out, "outcome version", &[u64::from(version)])
        }
    }
}

/// Appends bytes, 32 a line.
fn push_rows(out: &mut Vec<u8>, bytes: &[u8]) -> Result<(), AllocError>
    ensures ok { OnOk result (out.new.items ≡ out.old.items ++ text_of (byte_lines bytes.now)) }
{
    let mut rest = bytes;
    'rows: while !rest.is_empty() {
        let (row, after) = split_row(rest);
        push_row(out, row)?;
        out.extend_from_slice(b"\n")?;
        rest = after;
    }
    Ok(())
}

/// Appends the lines of a section: its name and length, then its bytes.
pub(crate) fn push_section(out: &mut Vec<u8>, name: &str, bytes: &[u8]) -> Result<(), AllocError>
    ensures ok { OnOk result (out.new.items ≡ out.old.items ++ text_of (section_lines name.now bytes.now)) }
{
    push_fields(out, name, &[bytes.len() as u64])?;
    push_rows(out, bytes)?;
    Ok(())
}

/// Returns how many bytes the line of a name of so many bytes with so many elements takes at most.
pub fn room_of_name(bytes: usize, words: usize) -> usize {
    bytes
        .saturating_mul(2)
        .saturating_add(words.saturating_mul(9))
        .saturating_add(7)
}

/// Returns how many bytes the lines of the names take at most.
fn room_of_names(names: &[NameWords<'_>]) -> usize {
    let mut room = 0usize;
    for named in names {
        room = room.saturating_add(room_of_name(named.name.len(), named.words.len()));
    }
    room
}

/// Returns how many bytes the lines of a section's bytes take.
pub(crate) fn room_of_rows(bytes: &[u8]) -> usize {
    bytes
        .len()
        .saturating_mul(2)
        .saturating_add(bytes.len() / ROW + 1)
}

/// Returns the start of the report of tables, as a text of lines, in a buffer that has room for all of it:
///
/// `units N`; for each unit `unit K OFFSET LENGTH`, with K from 0; `names N`; for each name `name HEX` and its CU vector in eight digits each, by
/// spaces, where HEX is `-` for the empty name; `outcome sorted USED`, `outcome none` or `outcome version V`. `push_tables` adds what is left.
pub fn report_start(
    alloc: Global,
    units: &[CuBoundary],
    names: &[NameWords<'_>],
    outcome: SframeOutcome,
    index: &[u8],
    sframe: &[u8],
) -> Result<Vec<u8>, AllocError>
    ensures { IfOk result (λ text. text.items ≡ text_of (start_lines units.now names.now outcome)) }
{
    let lines = units
        .len()
        .saturating_mul(LINE + 2 * DIGITS)
        .saturating_add(5 * LINE);
    let rows = room_of_rows(index).saturating_add(room_of_rows(sframe));
    let room = lines
        .saturating_add(room_of_names(names))
        .saturating_add(rows);
    let mut out = Vec::with_capacity(alloc, room)?;
    push_fields(&mut out, "units", &[units.len() as u64])?;
    push_units(&mut out, units)?;
    push_fields(&mut out, "names", &[names.len() as u64])?;
    push_names(&mut out, names)?;
    push_outcome(&mut out, outcome)?;
    Ok(out)
}

/// Appends the lines of both tables to the start of their report: `index LENGTH` and the bytes of the index, 32 a line; `sframe LENGTH` and the
/// bytes of the SFrame section, 32 a line.
pub fn push_tables(out: &mut Vec<u8>, index: &[u8], sframe: &[u8]) -> Result<(), AllocError>
    ensures ok { OnOk result (out.new.items ≡ out.old.items ++ text_of (table_lines index.now sframe.now)) }
{
    push_section(out, "index", index)?;
    push_section(out, "sframe", sframe)?;
    Ok(())
}
