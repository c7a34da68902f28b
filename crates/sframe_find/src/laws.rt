//! Laws of the search, each as the contract of a function that does nothing.

ghost use Rattle.sframe_find.specs.Laws.{FindCausesAreOne, OrderedHasNoCause, ScansAreOne, SortedIsOrdered};

use sframe_order::sorted_is_read_in_order;

/// A section has one cause why it cannot be searched.
pub fn find_causes_are_one()
    ensures { FindCausesAreOne }
{}

/// A section that can be searched has no cause.
pub fn ordered_has_no_cause()
    ensures { OrderedHasNoCause }
{}

/// An address has one result of the scan.
pub fn scans_are_one()
    ensures { ScansAreOne }
{}

/// The used bytes of a sorted section can be searched, for each base, and their functions are those of the section in
/// order. The conditions are clauses of `sort_sframe_section` (`valid`, `sorted`) and of `derive_tables` (`valid`,
/// `sframe`).
pub fn sorted_is_ordered()
    ensures { SortedIsOrdered }
{
    sorted_is_read_in_order()
}
