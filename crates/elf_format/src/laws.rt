//! Laws of LEB128 and CREL, each as the contract of a function that does nothing: what is written is read again.

ghost use Rattle.std.specs.Prelude.{◌≡◌, ℕ, ℤ, ◌<◌, ◌^◌, ◌++◌, ◌≤◌, ◌∷◌, List, length, Ok};
ghost use Rattle.std.specs.Int.{w64};
ghost use Rattle.std.specs.Int.RustNames.{FitsSigned};
ghost use Rattle.std.specs.List.{AllByRecursion};
ghost use Rattle.elf_format.specs.FileHeader.{elfclass32, elfclass64, elfdata2lsb, ev_current, et_rel, et_dyn, em_ppc64, em_x86_64, em_aarch64, em_riscv, em_loongarch};
ghost use Rattle.elf_format.specs.declared.crel.Crel.{Crel};
ghost use Rattle.elf_format.specs.Leb128.{group_sum, signed_sum, uleb128_size, uleb128, uleb128_form, sleb128, sleb128_form};
ghost use Rattle.elf_format.specs.Crel.{IsCrel, crel_list, list_form};

/// A LEB128 number in its shortest form is read again, whatever follows it.
pub fn numbers_are_read_again()
    ensures unsigned { (n : ℕ) (rest : List ℕ) → n < 2 ^ 64 → uleb128 (uleb128_form n ++ rest) ≡ Ok (n, rest) }
    ensures signed { (z : ℤ) (rest : List ℕ) → FitsSigned w64 z → sleb128 (sleb128_form z ++ rest) ≡ Ok (z, rest) }
{}

/// A list in CREL is read again, whatever follows it.
pub fn lists_are_read_again()
    ensures { (list : List Crel) (rest : List ℕ) → length list < 2 ^ 61 → AllByRecursion IsCrel list → crel_list (list_form list ++ rest) ≡ Ok list }
{}

/// No bytes that spell a number are fewer than those of its shortest form.
pub fn no_number_is_shorter()
    ensures unsigned { (b : ℕ) (bytes : List ℕ) → uleb128_size (group_sum (b ∷ bytes)) ≤ length (b ∷ bytes) }
    ensures signed { (b : ℕ) (bytes : List ℕ) → length (sleb128_form (signed_sum (b ∷ bytes))) ≤ length (b ∷ bytes) }
{}

/// The numbers of a file header are the standard's (gABI, ELF Header).
pub fn file_header_numbers_are_the_standards()
    ensures classes { (elfclass32 ≡ 1) × (elfclass64 ≡ 2) }
    ensures data_and_version { (elfdata2lsb ≡ 1) × (ev_current ≡ 1) }
    ensures types { (et_rel ≡ 1) × (et_dyn ≡ 3) }
    ensures machines { (em_ppc64 ≡ 21) × (em_x86_64 ≡ 62) × (em_aarch64 ≡ 183) × (em_riscv ≡ 243) × (em_loongarch ≡ 258) }
{}
