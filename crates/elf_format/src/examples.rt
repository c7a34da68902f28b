//! The definitions on a small object. The expected values were worked out by hand.

ghost use Rattle.std.specs.Prelude.{◌≡◌, length, Some, None, codes, false, true, set, drop, take, ◌++◌, [], ◌∷◌, slice_set};
ghost use Rattle.elf_format.specs.Class.{class32, class64};
ghost use Rattle.elf_format.specs.Section.{section_count, section_of_name};
ghost use Rattle.elf_format.specs.declared.error.ElfError.TheVariants.{Header, Machine, SectionTable, SymbolTable, VersionTable};
ghost use Rattle.elf_format.specs.Fault.{fault, any_fault};
ghost use Rattle.elf_format.specs.Symbol.{symbols, section_of_symbol, in_section, missing, no_section};
ghost use Rattle.elf_format.specs.Example.{small_object, small_object32, object_with_symbols, symbol_in};

/// An object of ELFCLASS64 with `.debug_info`, `.debug_gnu_pubnames`, code and section names.
pub fn small_object_is_well_formed()
    ensures size { length small_object ≡ 489 }
    ensures fault { fault class64 false small_object ≡ None }
    ensures count { section_count class64 small_object ≡ 5 }
    ensures code { section_of_name class64 small_object (codes ".text") ≡ Some 3 }
    ensures cut_off { fault class64 false (take 488 small_object) ≡ Some SectionTable }
    ensures other_class { fault class32 false small_object ≡ Some Header }
{}

/// The same object in ELFCLASS32, and objects of a wrong class and machine.
pub fn small_object_of_class_32_is_well_formed()
    ensures size { length small_object32 ≡ 357 }
    ensures fault { any_fault false small_object32 ≡ None }
    ensures code { section_of_name class32 small_object32 (codes ".text") ≡ Some 3 }
    ensures other_class { fault class64 false small_object32 ≡ Some Header }
    ensures no_class { any_fault false (slice_set small_object32 4 3) ≡ Some Header }
    ensures other_machine { any_fault false (slice_set small_object 18 40) ≡ Some Machine }
{}

/// An object with symbols and their versions, and two in which one of them is malformed.
pub fn symbols_and_versions_are_found()
    ensures size { length (object_with_symbols 2 6) ≡ 464 }
    ensures fault { fault class64 false (object_with_symbols 2 6) ≡ None }
    ensures count { length (symbols class64 false (object_with_symbols 2 6)) ≡ 3 }
    ensures of_section { section_of_symbol class64 false (object_with_symbols 2 6) (symbol_in 1) 1 ≡ in_section 1 }
    ensures absolute { section_of_symbol class64 false (object_with_symbols 2 6) (symbol_in 0xfff1) 1 ≡ no_section }
    ensures no_index { section_of_symbol class64 false (object_with_symbols 2 6) (symbol_in 0xffff) 2 ≡ missing }
    ensures no_strings { fault class64 false (object_with_symbols 3 6) ≡ Some SymbolTable }
    ensures half_version { fault class64 false (object_with_symbols 2 5) ≡ Some VersionTable }
    ensures is_dynamic { fault class64 true (object_with_symbols 3 6) ≡ None }
{}
