//! What a setter sets, its getter reads again, and nothing else of the record changes. In ELFCLASS64 no setter
//! fails. Each law is the contract of a function that does nothing.

ghost use Rattle.std.specs.Prelude.{◌≡◌, ℕ, ℤ, ◌+◌, ◌*◌, ◌/◌, ◌%◌, ◌^◌, ◌<◌, ◌≤◌, ◌⊎◌, List, length, slice_index, Result, IsOk};
ghost use Rattle.std.specs.Int.{w64, cast_unsigned};
ghost use Rattle.std.specs.Int.RustNames.{FitsSigned};
ghost use Rattle.elf_format.specs.Bytes.{Field, get};
ghost use Rattle.elf_format.specs.Class.{Class, class64, word_at, signed_word, symbol_unit, rela_size, r_info};
ghost use Rattle.elf_words.specs.declared.word.Field.{Field as FieldName};
ghost use Rattle.elf_words.specs.declared.word.FieldError.{FieldError};
ghost use Rattle.elf_setters.specs.Put.{with_field, word_of, symbol_limit, IsPut, IsSignedPut};

/// The number that a setter sets is read again.
pub fn numbers_are_read_again()
    ensures { (field : Field) (value : ℕ) (bytes : List ℕ) → field.at + field.width ≤ length bytes → value < 2 ^ (8 * field.width) → get field (with_field field value bytes) ≡ value }
{}

/// The signed number that a setter sets is read again.
pub fn signed_numbers_are_read_again()
    ensures { (class : Class) (at : ℕ) (value : ℤ) (bytes : List ℕ) → let field = word_at class at at in field.at + field.width ≤ length bytes → FitsSigned (word_of class) value → signed_word class (get field (with_field field (cast_unsigned (word_of class) value) bytes)) ≡ value }
{}

/// The symbol index and the relocation type that are set are read again.
pub fn info_is_read_again()
    ensures { (class : Class) (symbol relocation_type : ℕ) (bytes : List ℕ) → rela_size class ≤ length bytes → symbol < symbol_limit class → relocation_type < symbol_unit class
        → let info = get (r_info class) (with_field (r_info class) (symbol * symbol_unit class + relocation_type) bytes) in (info / symbol_unit class ≡ symbol) × (info % symbol_unit class ≡ relocation_type) }
{}

/// A setter leaves the length of the record, the bytes outside its field, and all fields before or after it.
pub fn nothing_else_changes()
    ensures size { (field : Field) (value : ℕ) (bytes : List ℕ) → field.at + field.width ≤ length bytes → length (with_field field value bytes) ≡ length bytes }
    ensures bytes { (field : Field) (value : ℕ) (bytes : List ℕ) (at : ℕ) → field.at + field.width ≤ length bytes → (at < field.at) ⊎ (field.at + field.width ≤ at) → slice_index (with_field field value bytes) at ≡ slice_index bytes at }
    ensures fields { (field other : Field) (value : ℕ) (bytes : List ℕ) → field.at + field.width ≤ length bytes → (other.at + other.width ≤ field.at) ⊎ (field.at + field.width ≤ other.at) → get other (with_field field value bytes) ≡ get other bytes }
{}

/// In ELFCLASS64 each number of 64 bits fits its field.
pub fn elfclass64_fields_hold_64_bits()
    ensures numbers { (at value : ℕ) (name : FieldName) (old new : List ℕ) (result : Result Unit FieldError) → value < 2 ^ 64 → IsPut (word_at class64 at at) name value old new result → IsOk result }
    ensures signed { (at : ℕ) (value : ℤ) (name : FieldName) (old new : List ℕ) (result : Result Unit FieldError) → FitsSigned w64 value → IsSignedPut class64 (word_at class64 at at) name value old new result → IsOk result }
{}
