//! Laws of the definitions: each number has one text, and the commands of some arguments and the layouts of small texts are those worked out by hand.

ghost use Rattle.std.specs.Prelude.{◌≡◌, ◌↔◌, ◌<◌, ◌^◌, ◌∷◌, [], ℕ, List, Some, None, Ok, Err, codes, decimal};
ghost use Rattle.elf_format.specs.declared.architecture.Architecture.TheVariants.{X86_64};
ghost use Rattle.gdb_index_format.specs.declared.version.IndexVersion.TheVariants.{V8, V9};
ghost use Rattle.program_text.specs.Command.{command_of, for_tables, for_query, for_demo};
ghost use Rattle.program_text.specs.Query.{for_find, for_frame, for_browse, for_merge};
ghost use Rattle.program_text.specs.Tables.{version_of};
ghost use Rattle.program_text.specs.Number.{number_of};
ghost use Rattle.program_text.specs.Layout.{layout_of};

/// States that a word is read as a number exactly where it is the decimal text of that number, below 2^64.
pub fn numbers_have_one_text()
    ensures { (word : List ℕ) (n : ℕ) → (number_of word ≡ Some n) ↔ ((n < 2 ^ 64) × (word ≡ decimal n)) }
{}

/// States the commands of some arguments: the options are such only in their order and after the layout, and the version is 9 without its option.
#[tactic(auto, unfolding(hex::specs::Hex::decode_pairs))]
pub fn small_commands()
    ensures version_8 { command_of (codes "tables" ∷ codes "x86_64" ∷ codes "l" ∷ codes "--index" ∷ codes "8" ∷ codes "o" ∷ []) ≡ Ok (for_tables (record {
      machine = X86_64;
      layout = codes "l";
      sframe = None;
      version = Some V8;
      objects = codes "o" ∷ [];
    })) }
    ensures after_frames { command_of (codes "tables" ∷ codes "x86_64" ∷ codes "l" ∷ codes "--sframe" ∷ codes "--index" ∷ codes "--index" ∷ codes "9" ∷ codes "--index" ∷ []) ≡ Ok (for_tables (record {
      machine = X86_64;
      layout = codes "l";
      sframe = Some (codes "--index");
      version = Some V9;
      objects = codes "--index" ∷ [];
    })) }
    ensures an_object { command_of (codes "tables" ∷ codes "x86_64" ∷ codes "l" ∷ codes "o" ∷ codes "--index" ∷ codes "--sframe" ∷ []) ≡ Ok (for_tables (record {
      machine = X86_64;
      layout = codes "l";
      sframe = None;
      version = None;
      objects = codes "o" ∷ codes "--index" ∷ codes "--sframe" ∷ [];
    })) }
    ensures usual { version_of (record { machine = X86_64; layout = []; sframe = None; version = None; objects = [] }) ≡ V9 }
    ensures no_version { command_of (codes "tables" ∷ codes "x86_64" ∷ codes "l" ∷ codes "--index" ∷ []) ≡ Err 4 }
    ensures other_version { command_of (codes "tables" ∷ codes "x86_64" ∷ codes "l" ∷ codes "--index" ∷ codes "7" ∷ codes "o" ∷ []) ≡ Err 4 }
    ensures other_version_after_frames { command_of (codes "tables" ∷ codes "x86_64" ∷ codes "l" ∷ codes "--sframe" ∷ codes "s" ∷ codes "--index" ∷ codes "09" ∷ []) ≡ Err 6 }
    ensures a_name { command_of (codes "find" ∷ codes "i" ∷ codes "6d4A" ∷ []) ≡ Ok (for_query (for_find (record { index = codes "i"; name = 109 ∷ 74 ∷ [] }))) }
    ensures empty_name { command_of (codes "find" ∷ codes "i" ∷ [] ∷ []) ≡ Ok (for_query (for_find (record { index = codes "i"; name = [] }))) }
    ensures no_name { command_of (codes "find" ∷ codes "i" ∷ []) ≡ Err 2 }
    ensures half_a_byte { command_of (codes "find" ∷ codes "i" ∷ codes "6" ∷ []) ≡ Err 2 }
    ensures one_too_many { command_of (codes "find" ∷ codes "i" ∷ codes "6d" ∷ codes "x" ∷ []) ≡ Err 3 }
    ensures an_address { command_of (codes "frame" ∷ codes "s" ∷ codes "8192" ∷ codes "8242" ∷ []) ≡ Ok (for_query (for_frame (record { sframe = codes "s"; base = 8192; address = 8242 }))) }
    ensures no_base { command_of (codes "frame" ∷ codes "s" ∷ []) ≡ Err 2 }
    ensures needless_zero { command_of (codes "frame" ∷ codes "s" ∷ codes "08192" ∷ codes "8242" ∷ []) ≡ Err 2 }
    ensures no_address { command_of (codes "frame" ∷ codes "s" ∷ codes "0" ∷ []) ≡ Err 3 }
    ensures negative_address { command_of (codes "frame" ∷ codes "s" ∷ codes "0" ∷ codes "-1" ∷ []) ≡ Err 3 }
    ensures a_prefix { command_of (codes "browse" ∷ codes "i" ∷ codes "6d4A" ∷ []) ≡ Ok (for_query (for_browse (record { index = codes "i"; prefix = 109 ∷ 74 ∷ [] }))) }
    ensures no_prefix { command_of (codes "browse" ∷ codes "i" ∷ []) ≡ Ok (for_query (for_browse (record { index = codes "i"; prefix = [] }))) }
    ensures no_index { command_of (codes "browse" ∷ []) ≡ Err 1 }
    ensures half_a_byte_of_prefix { command_of (codes "browse" ∷ codes "i" ∷ codes "6" ∷ []) ≡ Err 2 }
    ensures one_after_prefix { command_of (codes "browse" ∷ codes "i" ∷ [] ∷ codes "x" ∷ []) ≡ Err 3 }
    ensures two_indexes { command_of (codes "merge" ∷ codes "a" ∷ codes "b" ∷ codes "12" ∷ []) ≡ Ok (for_query (for_merge (record { first = codes "a"; second = codes "b"; offset = 12 }))) }
    ensures no_first { command_of (codes "merge" ∷ []) ≡ Err 1 }
    ensures no_second { command_of (codes "merge" ∷ codes "a" ∷ []) ≡ Err 2 }
    ensures no_offset { command_of (codes "merge" ∷ codes "a" ∷ codes "b" ∷ []) ≡ Err 3 }
    ensures zero_before_offset { command_of (codes "merge" ∷ codes "a" ∷ codes "b" ∷ codes "012" ∷ []) ≡ Err 3 }
    ensures one_after_offset { command_of (codes "merge" ∷ codes "a" ∷ codes "b" ∷ codes "12" ∷ codes "x" ∷ []) ≡ Err 4 }
    ensures a_number { command_of (codes "demo" ∷ codes "1000" ∷ []) ≡ Ok (for_demo 1000) }
    ensures no_number { command_of (codes "demo" ∷ []) ≡ Err 1 }
    ensures zero_before_number { command_of (codes "demo" ∷ codes "01" ∷ []) ≡ Err 1 }
    ensures above_limit { command_of (codes "demo" ∷ codes "1001" ∷ []) ≡ Err 1 }
    ensures no_digits { command_of (codes "demo" ∷ codes "x" ∷ []) ≡ Err 1 }
    ensures one_after_number { command_of (codes "demo" ∷ codes "3" ∷ codes "x" ∷ []) ≡ Err 2 }
    ensures one_after_address { command_of (codes "frame" ∷ codes "s" ∷ codes "0" ∷ codes "1" ∷ codes "2" ∷ []) ≡ Err 4 }
{}

/// States the layout of a text with a line of each form, and the first wrong line of some texts.
pub fn small_layouts()
    ensures nothing { layout_of [] ≡ Ok (record { placements = []; ranges = []; base = 0 }) }
    ensures each { layout_of (codes "# a\n\nplace 0 3 4096 16\nrange 0 74\nbase 18446744073709551615") ≡ Ok (record {
      placements = record { object = 0; section = 3; address = 4096; size = 16 } ∷ [];
      ranges = record { start = 0; stop = 74 } ∷ [];
      base = 18446744073709551615;
    }) }
    ensures ordered { layout_of (codes "range 7 8\nplace 1 2 3 4\nrange 5 6\n") ≡ Ok (record {
      placements = record { object = 1; section = 2; address = 3; size = 4 } ∷ [];
      ranges = record { start = 7; stop = 8 } ∷ record { start = 5; stop = 6 } ∷ [];
      base = 0;
    }) }
    ensures a_number_short { layout_of (codes "place 0 3 4096") ≡ Err 1 }
    ensures second_base { layout_of (codes "base 1\n\nbase 1\nx") ≡ Err 3 }
    ensures two_spaces { layout_of (codes "#\nrange 0  1") ≡ Err 2 }
    ensures needless_zero { layout_of (codes "base 00") ≡ Err 1 }
    ensures too_large { layout_of (codes "base 18446744073709551616") ≡ Err 1 }
{}
