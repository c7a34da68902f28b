//! Laws over the definitions: an index has one layout, and what callers rely on follows from it. Each law is the
//! contract of a function that does nothing.

ghost use Rattle.gdb_index.specs.Laws.{HashIgnoresCase, SlotsExceedNames, IndexesAreOne, LayoutAnswers};

/// The hash of a name is the same for all names that differ in the case of ASCII letters alone.
pub fn hash_ignores_case()
    ensures { HashIgnoresCase }
{}

/// A symbol hash table with a name has more slots than names, and a power of two of them.
pub fn slots_exceed_names()
    ensures { SlotsExceedNames }
{}

/// A scan result and its address entries have one index of a size.
pub fn indexes_are_one()
    ensures { IndexesAreOne }
{}

/// The bytes of an index of either version return the CU vector of each name, and Absent for every other byte string. The name of
/// pool index i, from 1, is found within i probe steps, and an absent one ends within one step more than there are
/// names, or without a step where there are none.
pub fn layout_answers()
    ensures { LayoutAnswers }
{}
