//! The command `browse INDEX [PREFIXHEX]`: its arguments, and the text of what an index lists.
ghost use Rattle.std.specs.Prelude.{◌≡◌, ◌++◌, map, IfOk, OnOk, MatchResult};
ghost use Rattle.program_text.specs.Arguments.{arguments_of};
ghost use Rattle.program_text.specs.Browse.{after_browse, browse_of, address_line, listing_start_lines};
ghost use Rattle.program_text.specs.Lines.{text_of};

use crate::hexadecimal::is_hexadecimal;
use crate::report::{DIGITS, LINE, push_fields, push_units};
use gdb_index_format::{AddressEntry, CuBoundary};
use std::alloc::{AllocError, Global};

/// The command `browse`.
#[derive(Clone, Copy, Debug)]
pub struct BrowseCommand<'w> {
    /// The file of the index, the argument at index 1.
    pub index: &'w str,
    /// The hexadecimal digits of the prefix of the names, two for each byte: the argument at index 2, where it is there.
    pub prefix: Option<&'w str>,
}

/// Reads the arguments after `browse`.
pub(crate) fn read_browse(words: &[String]) -> Result<BrowseCommand<'_>, usize>
    ensures { MatchResult result
        (λ c. after_browse (arguments_of words.now) ≡ Ok (browse_of c))
        (λ index. after_browse (arguments_of words.now) ≡ Err index) }
{
    let [index, rest @ ..] = words else {
        return Err(1);
    };
    let [prefix, rest @ ..] = rest else {
        return Ok(BrowseCommand {
            index: index.as_str(),
            prefix: None,
        });
    };
    if !is_hexadecimal(prefix.as_str()) {
        return Err(2);
    }
    if !rest.is_empty() {
        return Err(3);
    }
    Ok(BrowseCommand {
        index: index.as_str(),
        prefix: Some(prefix.as_str()),
    })
}

/// Appends the line of each address entry.
fn push_addresses(out: &mut Vec<u8>, addresses: &[AddressEntry]) -> Result<(), AllocError>
    ensures ok { OnOk result (out.new.items ≡ out.old.items ++ text_of (map address_line addresses.now)) }
{
    let mut rest = addresses;
    while let [entry, after @ ..] = rest {
        push_fields(
            out,
            "address",
            &[entry.low, entry.high, u64::from(entry.unit)],
        )?;
        rest = after;
    }
    Ok(())
}

/// Returns how many bytes the lines of units, of address entries, and of the three counts take at most.
fn room_of_lines(units: usize, addresses: usize) -> usize {
    let lines = units.saturating_add(addresses).saturating_add(3);
    lines.saturating_mul(LINE + 2 * DIGITS)
}

/// Returns the start of the text of what an index lists: `units N`; for each unit `unit K OFFSET LENGTH`, with K from 0; `addresses N`; for each
/// address entry `address LOW HIGH UNIT`; `names N`. The line of each name follows, by `push_name`; the text has room for them, which take at most
/// `room` bytes.
pub fn listing_start(
    alloc: Global,
    units: &[CuBoundary],
    addresses: &[AddressEntry],
    names: usize,
    room: usize,
) -> Result<Vec<u8>, AllocError>
    ensures { IfOk result (λ text. text.items ≡ text_of (listing_start_lines units.now addresses.now names)) }
{
    let lines = room_of_lines(units.len(), addresses.len());
    let mut out = Vec::with_capacity(alloc, lines.saturating_add(room))?;
    push_fields(&mut out, "units", &[units.len() as u64])?;
    push_units(&mut out, units)?;
    push_fields(&mut out, "addresses", &[addresses.len() as u64])?;
    push_addresses(&mut out, addresses)?;
    push_fields(&mut out, "names", &[names as u64])?;
    Ok(out)
}
