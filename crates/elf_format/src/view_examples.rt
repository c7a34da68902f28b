//! The definitions of section groups and dynamic entries on small files. The expected values were worked out by hand.

ghost use Rattle.std.specs.Prelude.{◌≡◌, [], ◌∷◌, ◌++◌, codes, Ok, Err, Some, None, true, false, slice_index};
ghost use Rattle.std.specs.Str.{bytes_eq};
ghost use Rattle.elf_format.specs.Class.{class64};
ghost use Rattle.elf_format.specs.Fault.{fault};
ghost use Rattle.elf_format.specs.Symbol.{symbol_strings};
ghost use Rattle.elf_format.specs.Group.{groups, other_symbol_table, bad_signature, bad_bytes, empty_group, unsupported_flags, invalid_member, member_lacks_flag};
ghost use Rattle.elf_format.specs.Dynamic.{dt_needed, dt_soname, dt_verdefnum, dynamic_entries, last_value, own_name, are_met};
ghost use Rattle.elf_format.specs.Example.{object_with_group, dynamic_file, dynamic_entry, two_names};

/// A group with a member, and what is wrong with malformed ones, in the order of the tests.
pub fn groups_are_found()
    ensures fault { fault class64 false (object_with_group 0x200 1 (1 ∷ 0 ∷ 0 ∷ 0 ∷ 1 ∷ 0 ∷ 0 ∷ 0 ∷ [])) ≡ None }
    ensures found { groups class64 false (object_with_group 0x200 1 (1 ∷ 0 ∷ 0 ∷ 0 ∷ 1 ∷ 0 ∷ 0 ∷ 0 ∷ [])) ≡ Ok (record { index = 4; signature_symbol = 1; is_comdat = true; members = 1 ∷ [] } ∷ []) }
    ensures no_member { groups class64 false (object_with_group 0 1 (0 ∷ 0 ∷ 0 ∷ 0 ∷ [])) ≡ Ok (record { index = 4; signature_symbol = 1; is_comdat = false; members = [] } ∷ []) }
    ensures no_symbol { groups class64 false (object_with_group 0 2 []) ≡ Err (bad_signature 4) }
    ensures other_table { groups class64 true (object_with_group 0x200 1 (1 ∷ 0 ∷ 0 ∷ 0 ∷ 1 ∷ 0 ∷ 0 ∷ 0 ∷ [])) ≡ Err (other_symbol_table 4) }
    ensures half { groups class64 false (object_with_group 0 1 (1 ∷ 0 ∷ 0 ∷ [])) ≡ Err bad_bytes }
    ensures empty { groups class64 false (object_with_group 0 1 []) ≡ Err (empty_group 4) }
    ensures flags { groups class64 false (object_with_group 0 1 (2 ∷ 0 ∷ 0 ∷ 0 ∷ [])) ≡ Err (unsupported_flags 4 2) }
    ensures null_section { groups class64 false (object_with_group 0x200 1 (1 ∷ 0 ∷ 0 ∷ 0 ∷ 0 ∷ 0 ∷ 0 ∷ 0 ∷ [])) ≡ Err (invalid_member 4 0) }
    ensures itself { groups class64 false (object_with_group 0x200 1 (1 ∷ 0 ∷ 0 ∷ 0 ∷ 4 ∷ 0 ∷ 0 ∷ 0 ∷ [])) ≡ Err (invalid_member 4 4) }
    ensures none_such { groups class64 false (object_with_group 0x200 1 (1 ∷ 0 ∷ 0 ∷ 0 ∷ 9 ∷ 0 ∷ 0 ∷ 0 ∷ [])) ≡ Err (invalid_member 4 9) }
    ensures no_flag { groups class64 false (object_with_group 0 1 (1 ∷ 0 ∷ 0 ∷ 0 ∷ 1 ∷ 0 ∷ 0 ∷ 0 ∷ [])) ≡ Err (member_lacks_flag 4 1) }
{}

/// The entries of a dynamic section, the last with a tag, and the libraries that it needs.
pub fn dynamic_entries_are_found()
    ensures fault { fault class64 true (dynamic_file (dynamic_entry 14 1)) ≡ None }
    ensures strings { symbol_strings class64 true (dynamic_file []) ≡ two_names }
    ensures found { dynamic_entries class64 (dynamic_file (dynamic_entry 14 1 ++ dynamic_entry 0 0 ++ dynamic_entry 14 3)) ≡ Some (dynamic_entry 14 1 ∷ dynamic_entry 0 0 ∷ dynamic_entry 14 3 ∷ []) }
    ensures half { dynamic_entries class64 (dynamic_file (0 ∷ [])) ≡ None }
    ensures last { last_value class64 dt_soname (dynamic_entry 14 1 ∷ dynamic_entry 0 0 ∷ dynamic_entry 14 3 ∷ []) ≡ Some 3 }
    ensures name { own_name class64 two_names (dynamic_entry 14 1 ∷ dynamic_entry 0 0 ∷ dynamic_entry 14 3 ∷ []) ≡ Some (codes "B") }
    ensures no_name { own_name class64 two_names (dynamic_entry 14 5 ∷ []) ≡ None }
    ensures known { are_met class64 two_names (bytes_eq (codes "A")) (Some (dynamic_entry 1 1 ∷ dynamic_entry 5 9 ∷ [])) ≡ true }
    ensures unknown { are_met class64 two_names (bytes_eq (codes "A")) (Some (dynamic_entry 1 1 ∷ dynamic_entry 1 3 ∷ [])) ≡ false }
    ensures refused { are_met class64 two_names (bytes_eq (codes "A")) None ≡ true }
{}

/// The tags are the standard's (gABI, Dynamic Section; GNU symbol versioning).
pub fn dynamic_tags_are_the_standards()
    ensures { (dt_needed ≡ 1) × (dt_soname ≡ 14) × (dt_verdefnum ≡ 0x6ffffffd) }
{}
