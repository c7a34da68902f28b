//! Laws of the relations that the contracts of this crate cite, each the contract of a function that does nothing: an
//! object has one scan, and what is refused is refused for one cause.

ghost use Rattle.gdb_scan.specs.Laws.{HasOneScan, HasOneScanCause, HasOneMapCause};

/// An object has one scan.
pub fn scans_are_one()
    ensures { HasOneScan }
{}

/// An object is not scanned for one cause, out of memory aside.
pub fn scan_causes_are_one()
    ensures { HasOneScanCause }
{}

/// The units of sections are not found for one cause, out of memory aside.
pub fn map_causes_are_one()
    ensures { HasOneMapCause }
{}
