//! The definitions on small inputs. The expected values were worked out by hand.

ghost use Rattle.std.specs.Prelude.{◌≡◌, length, Some, None, Ok, Err, codes, replicate, take, [], ◌∷◌, ◌++◌};
ghost use Rattle.elf_format.specs.Class.{class64};
ghost use Rattle.elf_format.specs.Example.{bytes_of_number, unit, set_of_main, small_object};
ghost use Rattle.gdb_index_format.specs.declared.bad_index.BadIndex.TheVariants.{Version, Offsets, Slots};
ghost use Rattle.gdb_index_format.specs.declared.unit.UnitFault.TheVariants.{Truncated, InvalidLength};
ghost use Rattle.gdb_index_format.specs.Hash.{name_hash, element_of};
ghost use Rattle.gdb_index_format.specs.Units.{IsUnitList, FailsAt, index_units, unit_length};
ghost use Rattle.gdb_index_format.specs.Names.{IsSetList};
ghost use Rattle.gdb_index_format.specs.Objects.{info_section, info_bytes, pubnames_sections, first_compressed, IsObjectOf};
ghost use Rattle.gdb_index_format.specs.Published.{units_of_all, published, bucket, pool_names};
ghost use Rattle.gdb_index_format.specs.Probe.{probe};
ghost use Rattle.gdb_index_format.specs.Example.{index_of_main, index_of_main_8, index_of_two, index_header};

/// An index of one name.
pub fn one_name_is_found()
    ensures size { length index_of_main ≡ 81 }
    ensures units { index_units index_of_main ≡ record { offset = 0; length = 12 } ∷ [] }
    ensures hash { name_hash (codes "main") ≡ 4293691881 }
    ensures found { probe index_of_main (codes "main") ≡ record { answer = Ok (Some (0x30000000 ∷ [])); steps = 1 } }
    ensures absent { probe index_of_main (codes "m") ≡ record { answer = Ok None; steps = 1 } }
{}

/// The same index in version 8.
pub fn one_name_is_found_in_version_8()
    ensures size { length index_of_main_8 ≡ 69 }
    ensures units { index_units index_of_main_8 ≡ record { offset = 0; length = 12 } ∷ [] }
    ensures found { probe index_of_main_8 (codes "main") ≡ record { answer = Ok (Some (0x30000000 ∷ [])); steps = 1 } }
    ensures absent { probe index_of_main_8 (codes "m") ≡ record { answer = Ok None; steps = 1 } }
{}

/// `r` has a bucket before that of `a`; `main` and `MAIN` have one bucket.
pub fn names_in_buckets()
    ensures last { bucket (codes "a") ≡ 31 }
    ensures first { bucket (codes "r") ≡ 0 }
    ensures order { pool_names (record { name = codes "a"; word = 0x30000000 } ∷ record { name = codes "r"; word = 0xb0000000 } ∷ []) ≡ codes "r" ∷ codes "a" ∷ [] }
    ensures same { pool_names (record { name = codes "main"; word = 0x30000000 } ∷ record { name = codes "MAIN"; word = 0x30000000 } ∷ []) ≡ codes "main" ∷ codes "MAIN" ∷ [] }
{}

/// Two names that collide have slots of their own.
pub fn two_names_are_found()
    ensures size { length index_of_two ≡ 110 }
    ensures first { probe index_of_two (codes "main") ≡ record { answer = Ok (Some (0x30000000 ∷ [])); steps = 1 } }
    ensures second { probe index_of_two (codes "MAIN") ≡ record { answer = Ok (Some (0x30000000 ∷ [])); steps = 2 } }
    ensures absent { probe index_of_two (codes "Main") ≡ record { answer = Ok None; steps = 3 } }
{}

/// Faults of an index as a whole.
pub fn faulty_indexes()
    ensures short { probe (take 27 index_of_main) (codes "main") ≡ record { answer = Ok None; steps = 0 } }
    ensures version { probe (index_header 7 28 28 28 28 28 28) [] ≡ record { answer = Err Version; steps = 0 } }
    ensures offsets { probe (9 ∷ replicate 27 0) (codes "main") ≡ record { answer = Err Offsets; steps = 0 } }
    ensures slots { probe (index_header 9 28 28 28 28 52 52 ++ replicate 24 0) [] ≡ record { answer = Err Slots; steps = 0 } }
    ensures no_units { index_units (9 ∷ replicate 26 0) ≡ [] }
{}

/// Bytes too short for a header hold no name; 24 of version 8 have its whole header.
pub fn faulty_versions()
    ensures short { probe (7 ∷ replicate 23 0) (codes "main") ≡ record { answer = Ok None; steps = 0 } }
    ensures unknown { probe (7 ∷ replicate 27 0) (codes "main") ≡ record { answer = Err Version; steps = 0 } }
    ensures short_8 { probe (8 ∷ replicate 22 0) (codes "main") ≡ record { answer = Ok None; steps = 0 } }
    ensures offsets_8 { probe (8 ∷ replicate 23 0) (codes "main") ≡ record { answer = Err Offsets; steps = 0 } }
{}

/// Units of twelve bytes, of four, and bytes where none begins.
pub fn small_units()
    ensures none { IsUnitList [] [] }
    ensures one { IsUnitList unit (record { offset = 0; length = 12 } ∷ []) }
    ensures ignored { IsUnitList (unit ++ 1 ∷ 2 ∷ 3 ∷ []) (record { offset = 0; length = 12 } ∷ []) }
    ensures two { IsUnitList (unit ++ unit) (record { offset = 0; length = 12 } ∷ record { offset = 12; length = 12 } ∷ []) }
    ensures zeros { IsUnitList (replicate 4 0) (record { offset = 0; length = 4 } ∷ []) }
    ensures truncated { FailsAt (replicate 8 255) 0 Truncated }
    ensures beyond { FailsAt (9 ∷ replicate 11 0) 0 InvalidLength }
    ensures long { unit_length (replicate 12 255) 0 ≡ 18446744073709551627 }
{}

/// The set of one name.
pub fn small_sets()
    ensures none { IsSetList [] [] }
    ensures one { IsSetList set_of_main (record { unit = 0; entries = record { name = codes "main"; flag = 0x30 } ∷ [] } ∷ []) }
    ensures word { element_of 1 0xb0 ≡ 0xb0000001 }
{}

/// The object of one unit and one name.
pub fn small_object_publishes_main()
    ensures section { info_section class64 small_object ≡ Some 1 }
    ensures info { info_bytes class64 small_object ≡ Some unit }
    ensures plain { first_compressed class64 small_object ≡ None }
    ensures object { IsObjectOf class64 small_object (record { units = record { offset = 0; length = 12 } ∷ []; sets = record { unit = 0; entries = record { name = codes "main"; flag = 0x30 } ∷ [] } ∷ [] }) }
    ensures names { published (record { units = record { offset = 0; length = 12 } ∷ []; sets = record { unit = 0; entries = record { name = codes "main"; flag = 0x30 } ∷ [] } ∷ [] } ∷ []) ≡ record { name = codes "main"; word = 0x30000000 } ∷ [] }
{}
