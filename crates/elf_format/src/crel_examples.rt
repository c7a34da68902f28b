//! The definitions on small lists. The expected values were worked out by hand.

ghost use Rattle.std.specs.Prelude.{◌≡◌, pos, negsuc, Ok, Err, [], ◌∷◌};
ghost use Rattle.elf_format.specs.Leb128.{uleb128_form, sleb128_form, uleb128, sleb128};
ghost use Rattle.elf_format.specs.Crel.{crel_list, list_form};
ghost use Rattle.elf_format.specs.declared.crel.Crel.{Crel};
ghost use Rattle.elf_format.specs.declared.crel.CrelError.TheVariants.{Truncated, TooLong};
ghost use Rattle.elf_format.specs.declared.cursor.CursorError.TheVariants as cursor;

/// LEB128 numbers in their shortest form, and some that are malformed.
pub fn small_numbers()
    ensures three_hundred { uleb128_form 300 ≡ 0xac ∷ 0x02 ∷ [] }
    ensures minus_one { sleb128_form (negsuc 0) ≡ 0x7f ∷ [] }
    ensures minus_128 { sleb128_form (negsuc 127) ≡ 0x80 ∷ 0x7f ∷ [] }
    ensures sixty_four { sleb128_form (pos 64) ≡ 0xc0 ∷ 0x00 ∷ [] }
    ensures read { uleb128 (0xac ∷ 0x02 ∷ 9 ∷ []) ≡ Ok (300, 9 ∷ []) }
    ensures read_signed { sleb128 (0x80 ∷ 0x7f ∷ []) ≡ Ok (negsuc 127, []) }
    ensures short { uleb128 (0x80 ∷ 0x80 ∷ []) ≡ Err cursor.Short }
    ensures long { uleb128 (0x80 ∷ 0x80 ∷ 0x80 ∷ 0x80 ∷ 0x80 ∷ 0x80 ∷ 0x80 ∷ 0x80 ∷ 0x80 ∷ 0x80 ∷ []) ≡ Err cursor.TooLong }
    ensures above { uleb128 (0x80 ∷ 0x80 ∷ 0x80 ∷ 0x80 ∷ 0x80 ∷ 0x80 ∷ 0x80 ∷ 0x80 ∷ 0x80 ∷ 2 ∷ []) ≡ Err cursor.TooLong }
    ensures least { sleb128 (0x80 ∷ 0x80 ∷ 0x80 ∷ 0x80 ∷ 0x80 ∷ 0x80 ∷ 0x80 ∷ 0x80 ∷ 0x80 ∷ 0x7f ∷ []) ≡ Ok (negsuc 9223372036854775807, []) }
{}

/// CREL lists, and some that are malformed.
pub fn small_lists()
    ensures two { crel_list (0x14 ∷ 0x83 ∷ 0x01 ∷ 0x01 ∷ 0x02 ∷ 0x40 ∷ [])
        ≡ Ok (record { offset = 0x10; symbol = 1; kind = 2; addend = pos 0 } ∷ record { offset = 0x18; symbol = 1; kind = 2; addend = pos 0 } ∷ []) }
    ensures cut { crel_list (0x14 ∷ 0x83 ∷ 0x01 ∷ 0x01 ∷ 0x02 ∷ []) ≡ Err Truncated }
    ensures written { list_form (record { offset = 0x10; symbol = 1; kind = 2; addend = pos 0 } ∷ record { offset = 0x18; symbol = 1; kind = 2; addend = pos 0 } ∷ [])
        ≡ 0x14 ∷ 0x83 ∷ 0x01 ∷ 0x01 ∷ 0x02 ∷ 0x40 ∷ [] }
    ensures one { crel_list (0x0c ∷ 0x84 ∷ 0x10 ∷ 0x7f ∷ [])
        ≡ Ok (record { offset = 0x100; symbol = 0; kind = 0; addend = negsuc 0 } ∷ []) }
    ensures one_written { list_form (record { offset = 0x100; symbol = 0; kind = 0; addend = negsuc 0 } ∷ []) ≡ 0x0c ∷ 0x84 ∷ 0x10 ∷ 0x7f ∷ [] }
    ensures none { crel_list [] ≡ Err Truncated }
    ensures many { crel_list (0xff ∷ 0xff ∷ 0xff ∷ 0xff ∷ 0xff ∷ 0xff ∷ 0xff ∷ 0xff ∷ 0xff ∷ 1 ∷ []) ≡ Err Truncated }
{}
