//! The line that the program prints for an answer on standard error: `derive: `, the name of the variant, and its numbers in order.

use crate::Ran;
use derivation::DeriveError;
use index_browser::BrowseError;
use index_merge::MergeError;
use sframe_find::FindFault;
use sframe_format::SframeError;
use std::fmt;

/// Writes an error of the tables, as `BadUnit 0 12 Truncated`.
fn write_error<W: fmt::Write>(f: &mut fmt::Formatter<W>, error: &DeriveError) -> fmt::Result {
    match error {
        DeriveError::BadSpan(index) => write!(f, "BadSpan {index}"),
        DeriveError::BadElf(object, kind) => write!(f, "BadElf {object} {kind:?}"),
        DeriveError::BadPlacement(index) => write!(f, "BadPlacement {index}"),
        DeriveError::CompressedSection(object, section) => {
            write!(f, "CompressedSection {object} {}", section.0)
        }
        DeriveError::BadUnit {
            object,
            offset,
            fault,
        } => write!(f, "BadUnit {object} {offset} {fault:?}"),
        DeriveError::BadPubnames(object, section) => {
            write!(f, "BadPubnames {object} {}", section.0)
        }
        DeriveError::TooManyUnits(count) => write!(f, "TooManyUnits {count}"),
        DeriveError::IndexTooLarge(size) => write!(f, "IndexTooLarge {size}"),
        DeriveError::BadRange(index) => write!(f, "BadRange {index}"),
        DeriveError::BadMagicBytes { value, offset } => {
            write!(f, "BadMagicBytes {value} {offset}")
        }
        DeriveError::SframeTruncated { kind, offset } => {
            write!(f, "SframeTruncated {kind:?} {offset}")
        }
        DeriveError::SframeTooLarge {
            kind,
            needed,
            limit,
        } => write!(f, "SframeTooLarge {kind:?} {needed} {limit}"),
        DeriveError::SframeAddressRange { function, value } => {
            write!(f, "SframeAddressRange {function} {value}")
        }
        DeriveError::NoMemory => write!(f, "NoMemory"),
    }
}

/// Writes why an SFrame section cannot be searched, as `NotAscending 1`.
fn write_find_fault<W: fmt::Write>(f: &mut fmt::Formatter<W>, fault: &FindFault) -> fmt::Result {
    match fault {
        FindFault::Short => write!(f, "Short"),
        FindFault::Header(SframeError::BadMagicBytes(value)) => {
            write!(f, "Header BadMagicBytes {value}")
        }
        FindFault::Header(SframeError::UnsupportedVersion(version)) => {
            write!(f, "Header UnsupportedVersion {version}")
        }
        FindFault::NotSorted => write!(f, "NotSorted"),
        FindFault::Truncated { kind, offset } => write!(f, "Truncated {kind:?} {offset}"),
        FindFault::NotAscending(index) => write!(f, "NotAscending {index}"),
    }
}

/// Writes why an index cannot be browsed, as `Misplaced 0`.
fn write_browse_error<W: fmt::Write>(
    f: &mut fmt::Formatter<W>,
    error: &BrowseError,
) -> fmt::Result {
    match error {
        BrowseError::Short => write!(f, "Short"),
        BrowseError::Format(fault) => write!(f, "Format {fault:?}"),
        BrowseError::TypeUnits => write!(f, "TypeUnits"),
        BrowseError::UnitArea => write!(f, "UnitArea"),
        BrowseError::AddressArea(index) => write!(f, "AddressArea {index}"),
        BrowseError::NameOutside(slot) => write!(f, "NameOutside {slot}"),
        BrowseError::VectorOutside(slot) => write!(f, "VectorOutside {slot}"),
        BrowseError::BadVector(slot) => write!(f, "BadVector {slot}"),
        BrowseError::Misplaced(slot) => write!(f, "Misplaced {slot}"),
    }
}

/// Writes why two indexes are not merged, as `OffsetTooLarge 1`.
fn write_merge_error<W: fmt::Write>(f: &mut fmt::Formatter<W>, error: &MergeError) -> fmt::Result {
    match error {
        MergeError::OffsetTooLarge(unit) => write!(f, "OffsetTooLarge {unit}"),
        MergeError::TooManyUnits(count) => write!(f, "TooManyUnits {count}"),
        MergeError::IndexTooLarge(size) => write!(f, "IndexTooLarge {size}"),
        MergeError::NoMemory => write!(f, "NoMemory"),
    }
}

impl fmt::Display for Ran {
    fn fmt<W: fmt::Write>(&self, f: &mut fmt::Formatter<W>) -> fmt::Result {
        write!(f, "derive: ")?;
        match self {
            Ran::Done(_) => write!(f, "Done"),
            Ran::Found(_) => write!(f, "Found"),
            Ran::Located(index) => write!(f, "Located {index}"),
            Ran::Listed(count) => write!(f, "Listed {count}"),
            Ran::Merged(len) => write!(f, "Merged {len}"),
            Ran::Absent => write!(f, "Absent"),
            Ran::Shown(_, _) => write!(f, "Shown"),
            Ran::Refused(error) => write_error(f, error),
            Ran::RefusedIndex(fault) => write!(f, "RefusedIndex {fault:?}"),
            Ran::RefusedFrames(fault) => {
                write!(f, "RefusedFrames ")?;
                write_find_fault(f, fault)
            }
            Ran::RefusedMerge(error) => {
                write!(f, "RefusedMerge ")?;
                write_merge_error(f, error)
            }
            Ran::RefusedBrowse(fault) => {
                write!(f, "RefusedBrowse ")?;
                write_browse_error(f, fault)
            }
            Ran::BadWords(index) => write!(f, "BadWords {index}"),
            Ran::BadLayout(line) => write!(f, "BadLayout {line}"),
            Ran::ReadFault(index) => write!(f, "ReadFault {index}"),
            Ran::FileTooLong(index) => write!(f, "FileTooLong {index}"),
            Ran::WriteFault => write!(f, "WriteFault"),
            Ran::NoMemory => write!(f, "NoMemory"),
        }
    }
}
