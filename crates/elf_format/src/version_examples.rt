//! The definitions of versions on small chains of records. The expected values were worked out by hand.

ghost use Rattle.std.specs.Prelude.{◌≡◌, [], ◌∷◌, ◌++◌, replicate, codes, take, Ok, Err, Some, None, true, false, length};
ghost use Rattle.elf_format.specs.declared.error.ElfError.TheVariants.{VersionTable};
ghost use Rattle.elf_format.specs.Example.{verdef_of, verdaux_of, two_names, two_definitions, two_needs};
ghost use Rattle.elf_format.specs.SymbolName.{versioned_name, name_text};
ghost use Rattle.elf_format.specs.VersionChain.{offsets_from, definition_form, need_form, headed_from};
ghost use Rattle.elf_format.specs.VersionName.{malformed, bad_index, version_names, needed_names, definition_name, needed_name, name_in_either, version_text};

/// A chain goes on by the distance to the next record, up to its count, a distance of 0 or a record that is truncated.
pub fn version_chains_are_followed()
    ensures overlapping { offsets_from definition_form.outer (replicate 16 0 ++ 1 ∷ replicate 4 0) 3 0 ≡ Ok 0 ∷ Ok 1 ∷ [] }
    ensures truncated { offsets_from definition_form.outer (replicate 16 0 ++ 2 ∷ replicate 4 0) 3 0 ≡ Ok 0 ∷ Err VersionTable ∷ [] }
    ensures counted { offsets_from definition_form.outer two_definitions 1 0 ≡ Ok 0 ∷ [] }
    ensures ended { offsets_from definition_form.outer two_definitions 9 0 ≡ Ok 0 ∷ Ok 28 ∷ [] }
    ensures of_needs { offsets_from need_form.inner two_needs 2 16 ≡ Ok 16 ∷ Ok 32 ∷ [] }
    ensures nothing { offsets_from definition_form.outer [] 1 0 ≡ Err VersionTable ∷ [] }
{}

/// The names of version definitions by their indexes, and what is wrong with malformed ones.
pub fn version_definitions_are_named()
    ensures by_index { version_names 2 two_names (headed_from definition_form two_definitions 2 0) ≡ Ok (None ∷ Some (codes "A") ∷ Some (codes "B") ∷ []) }
    ensures last_wins { version_names 1 two_names (headed_from definition_form (verdef_of 1 1 20 28 ++ verdaux_of 1 0 ++ verdef_of 1 1 20 0 ++ verdaux_of 3 0) 2 0) ≡ Ok (None ∷ Some (codes "B") ∷ []) }
    ensures no_definition { version_names 0 [] [] ≡ Ok (None ∷ []) }
    ensures above { version_names 1 two_names (headed_from definition_form two_definitions 2 0) ≡ Err (bad_index 2) }
    ensures no_name { version_names 2 two_names (headed_from definition_form (verdef_of 9 0 20 0) 1 0) ≡ Err malformed }
    ensures cut_name { version_names 2 two_names (headed_from definition_form (verdef_of 1 1 20 0) 1 0) ≡ Err malformed }
    ensures no_string { version_names 2 [] (headed_from definition_form two_definitions 2 0) ≡ Err malformed }
    ensures cut_chain { version_names 2 two_names (headed_from definition_form (take 47 two_definitions) 2 0) ≡ Err malformed }
{}

/// The names of the versions that symbols need, by the symbols' version records.
pub fn needed_versions_are_named()
    ensures by_symbol { needed_names ((2 ∷ 0 ∷ []) ∷ (3 ∷ 0x80 ∷ []) ∷ (1 ∷ 0 ∷ []) ∷ []) two_names (headed_from need_form two_needs 1 0) ≡ Ok (Some (codes "A") ∷ Some (codes "B") ∷ None ∷ []) }
    ensures cut_chain { needed_names [] two_names (headed_from need_form (take 47 two_needs) 1 0) ≡ Err malformed }
    ensures no_string { needed_names [] (take 4 two_names) (headed_from need_form two_needs 1 0) ≡ Err malformed }
{}

/// The text of a symbol's version: that of a definition, else of a needed version.
pub fn version_texts_have_their_mark()
    ensures default_version { version_text (λ index. name_in_either (definition_name two_names index (headed_from definition_form two_definitions 2 0)) (Ok None)) (Some (2 ∷ 0 ∷ [])) ≡ Some (codes "@@B") }
    ensures hidden { version_text (λ index. name_in_either (definition_name two_names index (headed_from definition_form two_definitions 2 0)) (Ok None)) (Some (2 ∷ 0x80 ∷ [])) ≡ Some (codes "@B") }
    ensures needed { version_text (λ index. name_in_either (definition_name two_names index (headed_from definition_form two_definitions 2 0)) (needed_name two_names index (headed_from need_form two_needs 1 0))) (Some (3 ∷ 0 ∷ [])) ≡ Some (codes "@@B") }
    ensures unknown { version_text (λ index. name_in_either (definition_name two_names index (headed_from definition_form two_definitions 2 0)) (needed_name two_names index (headed_from need_form two_needs 1 0))) (Some (4 ∷ 0 ∷ [])) ≡ None }
    ensures passed_over { definition_name two_names 2 (headed_from definition_form (verdef_of 2 0 0 20 ++ verdef_of 2 1 20 0 ++ verdaux_of 1 0) 2 0) ≡ Ok (Some (codes "A")) }
    ensures cut_chain { definition_name two_names 2 (headed_from definition_form (take 47 two_definitions) 2 0) ≡ Err VersionTable }
    ensures before_cut { definition_name two_names 1 (headed_from definition_form (take 47 two_definitions) 2 0) ≡ Ok (Some (codes "A")) }
{}

/// A symbol's name is split at its first `@`, and its text joins the parts.
pub fn symbol_names_are_split()
    ensures hidden { versioned_name (codes "foo@1.1") ≡ record { name = codes "foo"; version = Some (codes "1.1"); is_default = false } }
    ensures default_version { versioned_name (codes "foo@@2.0") ≡ record { name = codes "foo"; version = Some (codes "2.0"); is_default = true } }
    ensures plain { versioned_name (codes "foo") ≡ record { name = codes "foo"; version = None; is_default = true } }
    ensures empty_version { versioned_name (codes "foo@") ≡ record { name = codes "foo"; version = Some []; is_default = false } }
    ensures three { versioned_name (codes "a@@@b") ≡ record { name = codes "a"; version = Some (codes "@b"); is_default = true } }
    ensures text { name_text (versioned_name (codes "foo@@2.0")) ≡ codes "foo@@2.0" }
    ensures not_utf8 { name_text (versioned_name (0x61 ∷ 0xff ∷ 0x40 ∷ 0x62 ∷ [])) ≡ codes "a?@b" }
{}
