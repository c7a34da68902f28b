//! The definitions on small sections. The expected values were worked out by hand.

ghost use Rattle.std.specs.Prelude.{◌≡◌, [], ◌∷◌, ◌++◌, replicate, Ok, Some, None, reverse};
ghost use Rattle.elf_frames.specs.declared.error.FrameError.TheVariants.{BadEntry, BadSymbol};
ghost use Rattle.elf_frames.specs.Frames.{frames_for, previous_frames, last_frame, frame_count, frame_bytes};
ghost use Rattle.elf_frames.specs.Split.{IsSplit};
ghost use Rattle.elf_frames.specs.Cause.{IsFrameCause};
ghost use Rattle.elf_frames.specs.FrameExample.{cie_and_fde, cie_and_cut_fde, small_cie, section_with, relocation_to, frame_of_example, lists_of_example, rest_alone};

/// A CIE and an FDE, with relocations of the FDE. The last that says where its code begins decides on its section. The list is
/// gone over once: a relocation whose offset is not below the end of an entry keeps those after it from it.
pub fn small_sections_are_split()
    ensures one_relocation { IsSplit (section_with cie_and_fde (relocation_to 16 1 ∷ [])) (lists_of_example (frame_of_example (relocation_to 16 1 ∷ []) ∷ [])) }
    ensures last_one { IsSplit (section_with cie_and_fde (relocation_to 16 2 ∷ relocation_to 16 1 ∷ [])) (lists_of_example (frame_of_example (relocation_to 16 2 ∷ relocation_to 16 1 ∷ []) ∷ [])) }
    ensures offset_falls { IsSplit (section_with cie_and_fde (relocation_to 16 1 ∷ relocation_to 4 1 ∷ [])) (lists_of_example (frame_of_example (relocation_to 16 1 ∷ relocation_to 4 1 ∷ []) ∷ [])) }
    ensures offset_beyond { IsSplit (section_with cie_and_fde (relocation_to 30 1 ∷ relocation_to 16 1 ∷ [])) (lists_of_example []) }
    ensures not_loadable { IsSplit (section_with cie_and_fde (relocation_to 16 2 ∷ [])) (lists_of_example []) }
    ensures in_no_section { IsSplit (section_with cie_and_fde (relocation_to 16 3 ∷ [])) (lists_of_example []) }
{}

/// Four zero bytes end the entries, and so does a length of 0; other bytes at the end count.
pub fn bytes_at_the_end()
    ensures four { IsSplit (section_with (replicate 4 0) []) (rest_alone 0) }
    ensures five { IsSplit (section_with (replicate 5 0) []) (rest_alone 5) }
    ensures zero_length { IsSplit (section_with (replicate 8 0 ++ cie_and_fde) []) (rest_alone 0) }
    ensures after_a_cie { IsSplit (section_with (small_cie ++ replicate 4 0) []) (lists_of_example []) }
{}

/// An FDE that ends after the section, and one that lacks a symbol, also where a later relocation has one. The end is tested
/// before the symbols.
pub fn small_sections_are_refused()
    ensures too_long { IsFrameCause (Ok (section_with cie_and_cut_fde (relocation_to 16 9 ∷ []))) (BadEntry 8) }
    ensures no_symbol { IsFrameCause (Ok (section_with cie_and_fde (relocation_to 12 9 ∷ relocation_to 16 9 ∷ relocation_to 16 1 ∷ []))) (BadSymbol 1) }
{}

/// Three frames, the first and the last of one section.
pub fn frames_are_linked()
    ensures frames { frames_for 3 (frame_of_example [] ∷ record (frame_of_example []) { section = 4 } ∷ frame_of_example [] ∷ []) ≡ 0 ∷ 2 ∷ [] }
    ensures previous { previous_frames (frame_of_example [] ∷ record (frame_of_example []) { section = 4 } ∷ frame_of_example [] ∷ []) ≡ None ∷ None ∷ Some 0 ∷ [] }
    ensures last { last_frame 3 (frame_of_example [] ∷ record (frame_of_example []) { section = 4 } ∷ frame_of_example [] ∷ []) ≡ Some 2 }
    ensures no_frame { last_frame 5 (frame_of_example [] ∷ []) ≡ None }
    ensures count { frame_count 3 (frame_of_example [] ∷ record (frame_of_example []) { section = 4 } ∷ frame_of_example [] ∷ []) ≡ 2 }
    ensures bytes { frame_bytes 3 (frame_of_example [] ∷ record (frame_of_example []) { section = 4 } ∷ frame_of_example [] ∷ []) ≡ 32 }
{}
