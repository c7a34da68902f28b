//! Laws over the definitions. Each law is the contract of a function that does nothing but call the laws that it follows from.

ghost use Rattle.index_merge.specs.Laws.{JoinedVectorsAreOne, MergedSizesAreOne, MergeCausesAreOne, MergeableHasNoCause};

use gdb_index_format::{sizes_are_one, words_are_one};
use index_browser::name_lists_are_one;

/// A name has one joined CU vector.
pub fn joined_vectors_are_one()
    ensures { JoinedVectorsAreOne }
{
    words_are_one();
}

/// Two indexes have one merged size in a version.
pub fn merged_sizes_are_one()
    ensures { MergedSizesAreOne }
{
    name_lists_are_one();
    sizes_are_one();
}

/// Two indexes have one cause, beside `NoMemory`, for which they are not merged.
pub fn merge_causes_are_one()
    ensures { MergeCausesAreOne }
{
    merged_sizes_are_one();
}

/// Two indexes that can be merged are refused only by `NoMemory`.
pub fn mergeable_has_no_cause()
    ensures { MergeableHasNoCause }
{
    merged_sizes_are_one();
}
