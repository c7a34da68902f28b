//! Laws over the definitions: each definition has one value. Each law is the contract of a function that does nothing.

ghost use Rattle.gdb_index_format.specs.Slots.{EachSlotOnce};
ghost use Rattle.gdb_index_format.specs.Units.{UnitsAreOne};
ghost use Rattle.gdb_index_format.specs.Names.{SetsAreOne};
ghost use Rattle.gdb_index_format.specs.Named.{PublishedNamesAreOne};
ghost use Rattle.gdb_index_format.specs.Published.{NamesHaveBuckets, PoolHasEachName, UnitsOfAllRun, VectorsAreOne};
ghost use Rattle.gdb_index_format.specs.Objects.{ClassIsTheNamed, ObjectsAreOne};
ghost use Rattle.gdb_index_format.specs.Size.{SizesAreOne};

/// A probe steps at each slot, and at each only once.
pub fn each_slot_once()
    ensures { EachSlotOnce }
{}

/// Bytes have one list of units, or fail at one offset by one cause.
pub fn units_are_one()
    ensures { UnitsAreOne }
{}

/// Bytes are at most one list of sets of names.
pub fn sets_are_one()
    ensures { SetsAreOne }
{}

/// A name has one CU vector.
pub fn words_are_one()
    ensures { VectorsAreOne }
{}

/// Bytes that name a class are of that class.
pub fn class_is_the_named()
    ensures { ClassIsTheNamed }
{}

/// Objects hold one list of units and one list of sets each.
pub fn objects_are_one()
    ensures { ObjectsAreOne }
{}

/// Published pairs have one list of names with their CU vectors.
pub fn published_names_are_one()
    ensures { PublishedNamesAreOne }
{}

/// Every name has one of 32 buckets.
pub fn names_have_buckets()
    ensures { NamesHaveBuckets }
{}

/// The constant pool has each published name once.
pub fn pool_has_each_name()
    ensures { PoolHasEachName }
{}

/// The units of all objects begin at running sums of their lengths.
pub fn units_of_all_run()
    ensures { UnitsOfAllRun }
{}

/// An index of given counts has one size.
pub fn sizes_are_one()
    ensures { SizesAreOne }
{}
