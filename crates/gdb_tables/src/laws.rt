//! Laws over the definitions: each relation has one value, and what is refused is refused for one cause. Each law is the
//! contract of a function that does nothing.

ghost use Rattle.gdb_tables.specs.Laws.{HasOneScanEach, HasOneMerge, HasOneSize, HasOneIndex, IndexHasFewSteps, HasOneFilesCause, HasOneSizeCause, IndexableHasNoCause, HasOneMergeCause, HasOneAddressCause, HasOneBuildCause, RelocatedHasNoCause};

/// Files and placements have one list of scans.
pub fn object_scans_are_one()
    ensures { HasOneScanEach }
{}

/// Scans have one merge.
pub fn merges_are_one()
    ensures { HasOneMerge }
{}

/// Objects and placements have one size of an index, and one scan.
pub fn sized_indexes_are_one()
    ensures { HasOneSize }
{}

/// Objects and placements have one index, byte for byte, one list of units, and one list of names with their CU vectors.
pub fn built_indexes_are_one()
    ensures { HasOneIndex }
{}

/// In the index of objects the i-th name in pool order, from 1, is found within i probe steps. An absent name ends within
/// one step more than there are names, or without a step where there are none.
pub fn index_has_few_steps()
    ensures { IndexHasFewSteps }
{}

/// Objects are not scanned for one cause, `NoMemory` aside.
pub fn files_causes_are_one()
    ensures { HasOneFilesCause }
{}

/// An index has no size for one cause, `NoMemory` aside.
pub fn size_causes_are_one()
    ensures { HasOneSizeCause }
{}

/// An index with a size that offsets of four bytes can hold is refused only by `NoMemory`.
pub fn indexable_has_no_cause()
    ensures { IndexableHasNoCause }
{}

/// Scans are not merged for one cause, `NoMemory` aside.
pub fn merging_causes_are_one()
    ensures { HasOneMergeCause }
{}

/// Address entries are not made for one cause, `NoMemory` aside.
pub fn address_causes_are_one()
    ensures { HasOneAddressCause }
{}

/// An index is not built for one cause, `NoMemory` aside.
pub fn build_causes_are_one()
    ensures { HasOneBuildCause }
{}

/// An index with a size that offsets of four bytes can hold, of objects whose relocations are read, is refused only by
/// `NoMemory`.
pub fn relocated_has_no_cause()
    ensures { RelocatedHasNoCause }
{}
