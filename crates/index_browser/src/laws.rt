//! Laws over the definitions. Each law is the contract of a function that does nothing.

ghost use Rattle.index_browser.specs.Laws.{CheckedHasNoFault, CheckedIsWellFormed, NameListsAreOne, LayoutIsChecked, LayoutListsAddresses};

/// An index can be browsed exactly where none of its tests fails; where one does, the first that fails is its one fault.
pub fn checked_has_no_fault()
    ensures { CheckedHasNoFault }
{}

/// An index has one list of names.
pub fn name_lists_are_one()
    ensures { NameListsAreOne }
{}

/// The bytes of a laid-out index of either version can be browsed, where its address entries name units of the scan.
pub fn layout_is_checked()
    ensures { LayoutIsChecked }
{}

/// In an index that can be browsed, the CU list and the address area are within the bytes, and address entries name its units. A name that a probe finds has no zero
/// byte, and its CU vector has elements, each with zero reserved bits and the index of a unit.
pub fn checked_is_well_formed()
    ensures { CheckedIsWellFormed }
{}

/// The bytes of a laid-out index have its version and list its address entries, where their numbers fit their fields.
pub fn layout_lists_addresses()
    ensures { LayoutListsAddresses }
{}
