//! Laws of the answers, each as the contract of a function that does nothing.

ghost use Rattle.derive_program.specs.Laws.{RepliesAreOne, KnownRepliesAreOne, SummariesAreOne, SummariesHaveNumber};

use demo_input::demo_holds_numbered_objects;
use derivation::built_indexes_are_one;
use gdb_index_format::objects_are_one;
use index_browser::{checked_has_no_fault, name_lists_are_one};
use index_merge::{merge_causes_are_one, mergeable_has_no_cause, merged_sizes_are_one};
use sframe_find::{find_causes_are_one, ordered_has_no_cause, scans_are_one};
use sframe_order::sorted_in_one_way;

/// A query has one reply for the bytes of its files. Where the files are known, the arguments of the command line have one reply, and but for
/// a merged index one text.
pub fn replies_are_one()
    ensures of_bytes { RepliesAreOne }
    ensures of_arguments { KnownRepliesAreOne }
{
    find_causes_are_one();
    ordered_has_no_cause();
    scans_are_one();
    checked_has_no_fault();
    name_lists_are_one();
    merged_sizes_are_one();
    merge_causes_are_one();
    mergeable_has_no_cause()
}

/// The input of a number has one summary, with one text, and one index and SFrame section. The number is in it three times: so many are the
/// objects, their units, and the elements of `common`.
pub fn summaries_are_one()
    ensures one { SummariesAreOne }
    ensures number { SummariesHaveNumber }
{
    built_indexes_are_one();
    sorted_in_one_way();
    objects_are_one();
    demo_holds_numbered_objects()
}
