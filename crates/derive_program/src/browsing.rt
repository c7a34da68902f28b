//! Listing what an index holds, and writing it.
ghost use Rattle.std.specs.Prelude.{[], ◌∷◌, ◌++◌, ◌≡◌, ◌≤◌, map, IfOk, OnOk, IfSome};
ghost use Rattle.gdb_index_format.specs.Units.{index_units};
ghost use Rattle.index_browser.specs.Areas.{index_addresses};
ghost use Rattle.index_browser.specs.NameList.{all_listed};
ghost use Rattle.program_text.specs.Browse.{browse_of, prefix_in};
ghost use Rattle.program_text.specs.Lines.{text_of};
ghost use Rattle.program_text.specs.Query.{for_browse};
ghost use Rattle.program_text.specs.Report.{named_line};
ghost use Rattle.derive_program.specs.Calls.{write_faults_after};
ghost use Rattle.derive_program.specs.Reply.{names_listed};
ghost use Rattle.derive_program.specs.steps.Answer.{IsListed, IsQueryAnswer, IsReplyWriting};

use crate::Ran;
use crate::finding::read_elements;
use gdb_index_format::{AddressEntry, CuBoundary};
use index_browser::{CheckedIndex, NameEntry, check_index};
use program_io::{Sink, SinkFault};
use program_text::{BrowseCommand, listing_start, push_name, room_of_name};
use std::alloc::{AllocError, Global};

/// What an index lists, as a text.
#[derive(Debug, Drop)]
struct Listing {
    /// The text.
    text: Vec<u8>,
    /// The number of names in it.
    count: usize,
}

/// Returns the units of an index.
fn units_of(alloc: Global, index: &CheckedIndex<'_>) -> Result<Vec<CuBoundary>, AllocError>
    ensures { IfOk result (λ units. units.items ≡ index_units index.now) }
{
    let mut units = Vec::with_capacity(alloc, index.unit_count())?;
    'units: while let Some(unit) = index.unit(units.len()) {
        units.push(unit)?;
    }
    Ok(units)
}

/// Returns the address entries of an index.
fn addresses_of(alloc: Global, index: &CheckedIndex<'_>) -> Result<Vec<AddressEntry>, AllocError>
    ensures { IfOk result (λ addresses. addresses.items ≡ index_addresses index.now) }
{
    let mut addresses = Vec::with_capacity(alloc, index.address_count())?;
    'addresses: while let Some(entry) = index.address(addresses.len()) {
        addresses.push(entry)?;
    }
    Ok(addresses)
}

/// Returns how many bytes the lines of entries take at most.
fn room_of_entries(entries: &[NameEntry<'_>]) -> usize {
    let mut room = 0usize;
    for entry in entries {
        room = room.saturating_add(room_of_name(entry.name.len(), entry.vector.len()));
    }
    room
}

/// Appends the line of each entry. The elements of each CU vector are read into one buffer.
fn push_entries(
    alloc: Global,
    out: &mut Vec<u8>,
    entries: &[NameEntry<'_>],
) -> Result<(), AllocError>
    ensures { OnOk result (out.new.items ≡ out.old.items ++ text_of (map named_line (all_listed entries.now))) }
{
    let mut elements = Vec::new(alloc);
    let mut rest = entries;
    while let [entry, after @ ..] = rest {
        read_elements(&mut elements, &entry.vector)?;
        push_name(out, entry.name, &elements)?;
        rest = after;
    }
    Ok(())
}

/// Returns what an index lists, with its names that begin with a prefix.
fn list_index(alloc: Global, index: &CheckedIndex<'_>, prefix: &[u8]) -> Result<Listing, AllocError>
    ensures { IfOk result (λ l. IsListed index.now prefix.now l.text.items l.count) }
{
    let units = units_of(alloc, index)?;
    let addresses = addresses_of(alloc, index)?;
    let entries = index.names_with_prefix(alloc, prefix)?;
    let count = entries.len();
    let mut text = listing_start(alloc, &units, &addresses, count, room_of_entries(&entries))?;
    push_entries(alloc, &mut text, &entries)?;
    Ok(Listing { text, count })
}

/// Returns the bytes of the digits of a prefix, or None where memory ran out.
fn prefix_bytes(alloc: Global, digits: Option<&str>) -> Option<Vec<u8>>
    ensures { IfSome result (λ bytes. bytes.items ≡ prefix_in digits.entry) }
{
    let Some(digits) = digits else {
        return Some(Vec::new(alloc));
    };
    match hex::decode(alloc, digits) {
        Ok(bytes) => Some(bytes),
        Err(_) => None,
    }
}

/// Writes what an index lists, in one call.
fn put_listing<S: Sink>(text: &[u8], count: usize, out: &mut S) -> Ran
    ensures steady { S.steady out.new ≡ S.steady out.old }
    ensures faults { S.faults out.old ≤ S.faults out.new }
    ensures counted { S.faults out.new ≡ write_faults_after result (S.faults out.old) }
    ensures answer { IsReplyWriting (names_listed count) text.now (record { steady = S.steady out.old; faults = S.faults out.old; faults_now = S.faults out.new; written = S.written out.old; now = S.written out.new; puts = S.puts out.old; puts_now = S.puts out.new }) result }
{
    match out.put(text) {
        Ok(()) => Ran::Listed(count),
        Err(SinkFault::Failed) => Ran::WriteFault,
        Err(SinkFault::NoMemory) => Ran::NoMemory,
    }
}

/// Checks the bytes of the index of a command, and writes what it lists.
pub(crate) fn browse_read<S: Sink>(
    alloc: Global,
    command: &BrowseCommand<'_>,
    bytes: &[u8],
    out: &mut S,
) -> Ran
    ensures steady { S.steady out.new ≡ S.steady out.old }
    ensures faults { S.faults out.old ≤ S.faults out.new }
    ensures counted { S.faults out.new ≡ write_faults_after result (S.faults out.old) }
    ensures answer { IsQueryAnswer (for_browse (browse_of command.now)) (bytes.now ∷ []) (record { steady = S.steady out.old; faults = S.faults out.old; faults_now = S.faults out.new; written = S.written out.old; now = S.written out.new; puts = S.puts out.old; puts_now = S.puts out.new }) result }
{
    let index = match check_index(bytes) {
        Ok(index) => index,
        Err(fault) => return Ran::RefusedBrowse(fault),
    };
    let Some(prefix) = prefix_bytes(alloc, command.prefix) else {
        return Ran::NoMemory;
    };
    let Ok(listing) = list_index(alloc, &index, &prefix) else {
        return Ran::NoMemory;
    };
    put_listing(&listing.text, listing.count, out)
}
