//! The layout: a text of lines, numbered from 1, in which a linker states where sections have been placed.
//!
//! An empty line and a line that begins with `#` are skipped. The others are `place OBJECT SECTION ADDRESS SIZE`, `range START STOP` or
//! `base ADDRESS`, the last at most once. The last line may lack its line feed.
ghost use Rattle.std.specs.Prelude.{◌≡◌, ◌++◌, false, is_some, IfErr, OnOk, MatchResult};
ghost use Rattle.std.specs.Option.{option_or};
ghost use Rattle.program_text.specs.declared.layout.LayoutError.TheVariants.{NoMemory};
ghost use Rattle.program_text.specs.Layout.{placements_in, ranges_in, base_in, is_wrong, IsWrongAt, layout_of, IsErrorOf};

use crate::line::{Line, read_line};
use crate::pieces::split_line;
use elf_format::Span;
use gdb_index_format::Placement;
use std::alloc::{AllocError, AllocFailed, Global};
use thiserror::Error;

/// The entries of a layout.
#[derive(Debug, Drop)]
pub struct Layout {
    /// The placements of sections of objects, in the order of the lines.
    pub placements: Vec<Placement>,
    /// The ranges of the SFrame bytes that are contributions, in the order of the lines.
    pub ranges: Vec<Span>,
    /// The address of the first of the SFrame bytes; 0 where no line states it.
    pub base: u64,
}

/// Why a layout was not read.
#[derive(Clone, Copy, Debug, PartialEq, Eq, Error)]
pub enum LayoutError {
    /// The line of this number, from 1, is malformed or a second base, and no line before it is.
    #[error("layout line {0} is malformed")]
    BadLine(u64),
    /// The allocation of memory for the placements or the ranges failed.
    #[error("out of memory")]
    NoMemory,
}

impl From<AllocError> for LayoutError {
    ghost from_gives = { λ _ e. e ≡ NoMemory };

    fn from(_: AllocError) -> Self {
        LayoutError::NoMemory
    }
}

impl<T: Drop> From<AllocFailed<T>> for LayoutError {
    ghost from_gives = { λ _ e. e ≡ NoMemory };

    fn from(_: AllocFailed<T>) -> Self {
        LayoutError::NoMemory
    }
}

/// The entries of the lines so far.
#[derive(Drop)]
struct Entries {
    placements: Vec<Placement>,
    ranges: Vec<Span>,
    base: Option<u64>,
}

/// Adds the entry of the line of this number.
fn add_line(said: &mut Entries, number: u64, line: Line) -> Result<(), LayoutError>
    ensures right { OnOk result (is_wrong (is_some said.old.base) line ≡ false) }
    ensures placements { OnOk result (said.new.placements.items ≡ said.old.placements.items ++ placements_in line) }
    ensures ranges { OnOk result (said.new.ranges.items ≡ said.old.ranges.items ++ ranges_in line) }
    ensures base { OnOk result (said.new.base ≡ option_or said.old.base (base_in line)) }
    ensures wrong { IfErr result (λ e. IsWrongAt number (is_wrong (is_some said.old.base) line) e) }
{
    match line {
        Line::Skipped => Ok(()),
        Line::Place(placement) => {
            said.placements.push(placement)?;
            Ok(())
        }
        Line::Range(range) => {
            said.ranges.push(range)?;
            Ok(())
        }
        Line::Base(address) => {
            if said.base.is_some() {
                return Err(LayoutError::BadLine(number));
            }
            said.base = Some(address);
            Ok(())
        }
        Line::Wrong => Err(LayoutError::BadLine(number)),
    }
}

/// Reads a layout.
///
/// `BadLine`: the first wrong line. `NoMemory`: memory ran out at any line before it.
pub fn read_layout(alloc: Global, text: &[u8]) -> Result<Layout, LayoutError>
    ensures { MatchResult result
        (λ l. layout_of text.now ≡ Ok (record { placements = l.placements.items; ranges = l.ranges.items; base = l.base }))
        (λ e. IsErrorOf text.now e) }
{
    let mut said = Entries {
        placements: Vec::new(alloc),
        ranges: Vec::new(alloc),
        base: None,
    };
    let mut rest = text;
    let mut number = 0u64;
    while !rest.is_empty() {
        number += 1;
        let (line, after) = split_line(rest);
        add_line(&mut said, number, read_line(line))?;
        rest = after;
    }
    Ok(Layout {
        placements: said.placements,
        ranges: said.ranges,
        base: said.base.unwrap_or(0),
    })
}
