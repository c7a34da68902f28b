//! The definitions on small sections. The expected values were worked out by hand.

ghost use Rattle.std.specs.Prelude.{◌≡◌, pos, true, false, length, map, Some, None, [], ◌∷◌};
ghost use Rattle.sframe_format.specs.declared.fault.SframeFault.TheVariants.{Truncated};
ghost use Rattle.sframe_format.specs.declared.fault.TruncatedKind.TheVariants.{FreOffset};
ghost use Rattle.sframe_format.specs.Valid.{first_fault};
ghost use Rattle.sframe_find.specs.Frames.{whole_section, section_functions, frame_function};
ghost use Rattle.sframe_find.specs.Scan.{covers_address};
ghost use Rattle.sframe_find.specs.Example.{two_functions};

/// Two functions at 50 and 100 of a section that is loaded at 8192.
pub fn two_functions_are_listed()
    ensures size { length (two_functions 1 50 100 3) ≡ 74 }
    ensures functions { map (frame_function 8192) (section_functions (two_functions 1 50 100 3)) ≡ record { address = pos 8242; size = 16; row_count = 1; info = 0 } ∷ record { address = pos 8292; size = 16; row_count = 1; info = 0 } ∷ [] }
    ensures fres { map (λ f. f.fres) (section_functions (two_functions 1 50 100 3)) ≡ (0xb1 ∷ 0xb2 ∷ 0xb3 ∷ []) ∷ (0xa1 ∷ 0xa2 ∷ 0xa3 ∷ []) ∷ [] }
    ensures sound { first_fault (whole_section (two_functions 1 50 100 3)) ≡ None }
    ensures truncated { first_fault (whole_section (two_functions 1 50 100 6)) ≡ Some (Truncated FreOffset 48) }
{}

/// The range of a function at 8242.
pub fn a_range_is_covered()
    ensures first { covers_address (record { address = pos 8242; size = 16; row_count = 1; info = 0 }) 8242 ≡ true }
    ensures last { covers_address (record { address = pos 8242; size = 16; row_count = 1; info = 0 }) 8257 ≡ true }
    ensures after { covers_address (record { address = pos 8242; size = 16; row_count = 1; info = 0 }) 8258 ≡ false }
    ensures before { covers_address (record { address = pos 8242; size = 16; row_count = 1; info = 0 }) 8241 ≡ false }
{}
