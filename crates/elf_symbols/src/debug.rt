//! The text that shows a symbol.

ghost use Rattle.std.specs.Prelude.{◌≡◌};
ghost use Rattle.elf_symbols.specs.SymbolText.{binding_text, type_text};

use crate::numbers::{
    SHN_UNDEF, STB_LOCAL, STB_WEAK, STT_COMMON, STT_FILE, STT_FUNC, STT_GNU_IFUNC, STT_NOTYPE,
    STT_OBJECT, STT_SECTION, STT_TLS,
};
use elf_words::SymFields;
use std::fmt;

/// Shows a symbol's binding and type, as `Global Func`.
///
/// The binding is `Local`, `Weak`, or `Global` for every other one. The type is `Undefined` for an undefined symbol, else
/// `NoType`, `Data`, `Func`, `Section`, `File`, `Common`, `Tls`, `IFunc`, or `Unknown` for every other one.
#[derive(Drop)]
pub struct SymDebug<'a, S: SymFields>(pub &'a S);

/// Returns the word for a binding.
fn binding_word(binding: u8) -> &'static str
    ensures { result.now ≡ binding_text binding }
{
    match binding {
        STB_LOCAL => "Local",
        STB_WEAK => "Weak",
        _ => "Global",
    }
}

/// Returns the word for a type.
fn type_word(symbol_type: u8) -> &'static str
    ensures { result.now ≡ type_text symbol_type }
{
    match symbol_type {
        STT_NOTYPE => "NoType",
        STT_OBJECT => "Data",
        STT_FUNC => "Func",
        STT_SECTION => "Section",
        STT_FILE => "File",
        STT_COMMON => "Common",
        STT_TLS => "Tls",
        STT_GNU_IFUNC => "IFunc",
        _ => "Unknown",
    }
}

impl<S: SymFields> fmt::Display for SymDebug<'_, S> {
    ghost use Rattle.std.specs.Prelude.{Some};
    ghost use Rattle.elf_symbols.specs.SymbolText.{symbol_text};

    ghost output = { λ shown. Some (symbol_text S.class (S.contents shown.0.now)) };

    fn fmt<W: fmt::Write>(&self, f: &mut fmt::Formatter<W>) -> fmt::Result {
        let binding = binding_word(self.0.st_info() / 16);
        let word = if self.0.st_shndx() == SHN_UNDEF {
            "Undefined"
        } else {
            type_word(self.0.st_info() % 16)
        };
        write!(f, "{binding} {word}")
    }
}
