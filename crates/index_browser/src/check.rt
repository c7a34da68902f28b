//! Checks untrusted bytes before they are browsed.

ghost use Rattle.std.specs.Prelude.{◌≡◌, ◌<◌, ◌^◌, ◌↔◌, [], IsOk, IfOk, MatchOption, slice_get, length};
ghost use Rattle.std.specs.Result.{result_err};
ghost use Rattle.gdb_index_format.specs.Units.{index_units};
ghost use Rattle.gdb_index.specs.Parts.{ArePartsOf};
ghost use Rattle.index_browser.specs.Areas.{index_addresses};
ghost use Rattle.index_browser.specs.Fault.{browse_fault};
ghost use Rattle.index_browser.specs.Checked.{PassesTests, IsChecked};
ghost use Rattle.index_browser.specs.steps.Offsets.{HasFormat, AreAreasOf};

use crate::areas::{Areas, address_of, areas_of, count_addresses, count_units, unit_of};
use crate::error::BrowseError;
use crate::fault::first_fault;
use gdb_index::{Parts, parts_of};
use gdb_index_format::{AddressEntry, CuBoundary};
use std::marker::Model;

/// An index that passed all tests, or has no bytes. Contracts see it as its bytes.
#[derive(Debug, Drop)]
pub struct CheckedIndex<'a> {
    bytes: &'a [u8],
}

impl<'a> Model for CheckedIndex<'a> {
    ghost use Rattle.std.specs.Prelude.{◌≡◌, List, ℕ, None};
    ghost use Rattle.index_browser.specs.Fault.{browse_fault as fault_of_bytes};

    ghost Value = { List ℕ };

    ghost view = { λ c. c.bytes.now };

    ghost invariant = { λ c. fault_of_bytes c.bytes.now ≡ None };
}

/// Checks an index. An index without a unit may have no bytes, and passes. Allocates nothing.
///
/// The error is the first test that fails, as `BrowseError` lists them: the header is truncated; no probe can be made; the
/// types CU list is not empty; the CU list or the address area is no whole number of entries, or an address entry is of no
/// unit; for the first taken slot that is malformed, its name has no end, its CU vector is truncated, or is empty, has a
/// reserved bit or names no unit; last, the first taken slot at which the probe for its own name does not end.
pub fn check_index(index: &[u8]) -> Result<CheckedIndex<'_>, BrowseError>
    ensures bytes { IfOk result (λ c. c ≡ index.now) }
    ensures fault { result_err result ≡ browse_fault index.now }
    ensures checked { IsOk result ↔ IsChecked index.now }
{
    match first_fault(index) {
        Some(fault) => Err(fault),
        None => Ok(CheckedIndex { bytes: index }),
    }
}

impl<'a> CheckedIndex<'a> {
    /// Returns the bytes of the index.
    pub fn bytes(&self) -> &'a [u8]
        ensures bytes { result.now ≡ self.now }
        ensures checked { IsChecked self.now }
        ensures small { length self.now < 2 ^ 64 }
    {
        self.bytes
    }

    /// Reads the offsets of the areas, or returns None where there are no bytes.
    fn areas(&self) -> Option<Areas>
        ensures { MatchOption result (self.now ≡ []) (λ a. HasFormat self.now × AreAreasOf self.now a) }
    {
        if self.bytes.is_empty() {
            return None;
        }
        Some(areas_of(self.bytes))
    }

    /// Reads the parts that a probe reads, or returns None where there are no bytes.
    pub(crate) fn parts(&self) -> Option<Parts>
        ensures { MatchOption result (self.now ≡ []) (λ p. ArePartsOf self.now p × PassesTests self.now) }
    {
        if self.bytes.is_empty() {
            return None;
        }
        match parts_of(self.bytes) {
            Ok(parts) => Some(parts),
            Err(_) => unreachable!(),
        }
    }

    /// Returns the number of units.
    pub fn unit_count(&self) -> usize
        ensures { result ≡ length (index_units self.now) }
    {
        match self.areas() {
            None => 0,
            Some(areas) => count_units(self.bytes, &areas),
        }
    }

    /// Returns the unit of a number from 0, or None from the number of units on.
    pub fn unit(&self, number: usize) -> Option<CuBoundary>
        ensures { result ≡ slice_get (index_units self.now) number }
    {
        match self.areas() {
            None => None,
            Some(areas) => unit_of(self.bytes, &areas, number),
        }
    }

    /// Returns the number of address entries.
    pub fn address_count(&self) -> usize
        ensures { result ≡ length (index_addresses self.now) }
    {
        match self.areas() {
            None => 0,
            Some(areas) => count_addresses(self.bytes, &areas),
        }
    }

    /// Returns the address entry of a number from 0, or None from the number of entries on.
    pub fn address(&self, number: usize) -> Option<AddressEntry>
        ensures { result ≡ slice_get (index_addresses self.now) number }
    {
        match self.areas() {
            None => None,
            Some(areas) => address_of(self.bytes, &areas, number),
        }
    }
}
