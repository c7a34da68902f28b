//! Worked entries, computed: each function does nothing, and its contract holds by computation.

ghost use Rattle.std.specs.Prelude.{◌≡◌, true, false, codes};
ghost use Rattle.elf_format.specs.Class.{class32, class64};
ghost use Rattle.elf_symbols.specs.SymbolExample.{common_entry, function_entry, misaligned_entry, undefined_entry};
ghost use Rattle.elf_symbols.specs.SymbolTests.{common_size, is_common_symbol};
ghost use Rattle.elf_symbols.specs.SymbolText.{symbol_text};

/// A global function, a weak undefined symbol and a common block are shown.
pub fn entries_are_shown()
    ensures function { symbol_text class64 function_entry ≡ codes "Global Func" }
    ensures undefined { symbol_text class32 undefined_entry ≡ codes "Weak Undefined" }
    ensures common { symbol_text class64 common_entry ≡ codes "Global Data" }
{}

/// A common block of 13 bytes with alignment 8 takes 16; one with alignment 12 is none, and neither is a function.
pub fn common_blocks_are_rounded_up()
    ensures common { is_common_symbol class64 common_entry ≡ true }
    ensures size { common_size class64 common_entry ≡ 16 }
    ensures misaligned { is_common_symbol class64 misaligned_entry ≡ false }
    ensures function { is_common_symbol class64 function_entry ≡ false }
{}
