//! The numbers of a symbol table entry (gABI, Symbol Table, Special Section Indexes; GNU extensions).

ghost use Rattle.std.specs.Prelude.{◌≡◌};
ghost use Rattle.elf_format.specs.SectionIndex.{shn_undef};
ghost use Rattle.elf_symbols.specs.SymbolTests as numbers;

/// No section: the symbol is undefined.
pub const SHN_UNDEF: u16 = 0;
/// No section: the symbol is absolute.
pub const SHN_ABS: u16 = 0xfff1;
/// No section: the linker allocates the symbol.
pub const SHN_COMMON: u16 = 0xfff2;

/// The symbol is seen in its file alone.
pub const STB_LOCAL: u8 = 0;
/// The symbol gives way to a global one of its name.
pub const STB_WEAK: u8 = 2;
/// The symbol is one in the whole process (GNU).
pub const STB_GNU_UNIQUE: u8 = 10;

/// The type is not said.
pub const STT_NOTYPE: u8 = 0;
/// Data.
pub const STT_OBJECT: u8 = 1;
/// A function.
pub const STT_FUNC: u8 = 2;
/// A section.
pub const STT_SECTION: u8 = 3;
/// A source file.
pub const STT_FILE: u8 = 4;
/// A common block.
pub const STT_COMMON: u8 = 5;
/// Data of each thread.
pub const STT_TLS: u8 = 6;
/// A function that answers which function is meant (GNU).
pub const STT_GNU_IFUNC: u8 = 10;

/// The visibility is that of the binding.
pub const STV_DEFAULT: u8 = 0;
/// The symbol is not seen outside its component.
pub const STV_HIDDEN: u8 = 2;
/// The symbol is seen outside its component, and not replaced from there.
pub const STV_PROTECTED: u8 = 3;

/// The constants and the definitions are the numbers of the standards.
pub fn symbol_numbers_are_the_standards()
    ensures indexes { (shn_undef ≡ 0) × (numbers.shn_abs ≡ 65521) × (numbers.shn_common ≡ 65522) }
    ensures bindings { (numbers.stb_local ≡ 0) × (numbers.stb_weak ≡ 2) × (numbers.stb_gnu_unique ≡ 10) }
    ensures types { (numbers.stt_notype ≡ 0) × (numbers.stt_object ≡ 1) × (numbers.stt_func ≡ 2) × (numbers.stt_section ≡ 3) × (numbers.stt_file ≡ 4) × (numbers.stt_common ≡ 5) × (numbers.stt_tls ≡ 6) × (numbers.stt_gnu_ifunc ≡ 10) }
    ensures visibilities { (numbers.stv_default ≡ 0) × (numbers.stv_hidden ≡ 2) × (numbers.stv_protected ≡ 3) }
    ensures same_indexes { (SHN_UNDEF ≡ shn_undef) × (SHN_ABS ≡ numbers.shn_abs) × (SHN_COMMON ≡ numbers.shn_common) }
    ensures same_bindings { (STB_LOCAL ≡ numbers.stb_local) × (STB_WEAK ≡ numbers.stb_weak) × (STB_GNU_UNIQUE ≡ numbers.stb_gnu_unique) }
    ensures same_types { (STT_NOTYPE ≡ numbers.stt_notype) × (STT_OBJECT ≡ numbers.stt_object) × (STT_FUNC ≡ numbers.stt_func) × (STT_SECTION ≡ numbers.stt_section) × (STT_FILE ≡ numbers.stt_file) × (STT_COMMON ≡ numbers.stt_common) × (STT_TLS ≡ numbers.stt_tls) × (STT_GNU_IFUNC ≡ numbers.stt_gnu_ifunc) }
    ensures same_visibilities { (STV_DEFAULT ≡ numbers.stv_default) × (STV_HIDDEN ≡ numbers.stv_hidden) × (STV_PROTECTED ≡ numbers.stv_protected) }
{}
