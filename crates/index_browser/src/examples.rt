//! The definitions on a small index and on damaged ones. The expected values were worked out by hand.

ghost use Rattle.std.specs.Prelude.{◌≡◌, Some, None, Ok, Err, codes, take, [], ◌∷◌, ◌++◌};
ghost use Rattle.gdb_index_format.specs.declared.bad_index.BadIndex.TheVariants as bad;
ghost use Rattle.elf_format.specs.Example.{bytes_of_number};
ghost use Rattle.gdb_index_format.specs.Example.{index_of_main, index_of_main_8};
ghost use Rattle.index_browser.specs.declared.error.BrowseError.TheVariants.{Short, Format, TypeUnits, UnitArea, AddressArea, NameOutside, VectorOutside, BadVector, Misplaced};
ghost use Rattle.index_browser.specs.Areas.{index_addresses};
ghost use Rattle.index_browser.specs.Stored.{stored, last_slot};
ghost use Rattle.index_browser.specs.Fault.{browse_fault};
ghost use Rattle.index_browser.specs.Example.{main_with, main_with_number};

/// An index of one name, in the second of two slots.
pub fn small_indexes_pass()
    ensures empty { browse_fault [] ≡ None }
    ensures version_9 { browse_fault index_of_main ≡ None }
    ensures version_8 { browse_fault index_of_main_8 ≡ None }
    ensures stored { stored index_of_main ≡ record { slot = 1; name = Some (codes "main"); vector = Ok (Some (0x30000000 ∷ [])) } ∷ [] }
    ensures found_there { last_slot index_of_main (codes "main") ≡ 1 }
    ensures addresses { index_addresses index_of_main ≡ [] }
{}

/// The tests of a whole index, each failed by an index that passes those before it.
pub fn damaged_areas()
    ensures short { browse_fault (take 20 index_of_main) ≡ Some Short }
    ensures version { browse_fault (main_with_number 0 7) ≡ Some (Format bad.Version) }
    ensures types { browse_fault (main_with_number 8 28) ≡ Some TypeUnits }
    ensures units { browse_fault (main_with 8 (bytes_of_number 4 36 ++ bytes_of_number 4 36)) ≡ Some UnitArea }
    ensures addresses { browse_fault (main_with 8 (bytes_of_number 4 28 ++ bytes_of_number 4 28)) ≡ Some (AddressArea 0) }
{}

/// The tests of a slot, likewise: its name has no end, its CU vector is truncated, empty, or has a reserved bit or a unit
/// that is not listed, and its name is not found there.
pub fn damaged_slots()
    ensures name { browse_fault (main_with_number 52 0x7fffffff) ≡ Some (NameOutside 1) }
    ensures truncated { browse_fault (main_with_number 68 0xffffffff) ≡ Some (VectorOutside 1) }
    ensures empty { browse_fault (main_with_number 68 0) ≡ Some (BadVector 1) }
    ensures reserved { browse_fault (main_with_number 72 0x31000000) ≡ Some (BadVector 1) }
    ensures unit { browse_fault (main_with_number 72 0x30000001) ≡ Some (BadVector 1) }
    ensures misplaced { browse_fault (main_with 44 (bytes_of_number 4 8 ++ bytes_of_number 4 0 ++ bytes_of_number 4 0 ++ bytes_of_number 4 0)) ≡ Some (Misplaced 0) }
{}
