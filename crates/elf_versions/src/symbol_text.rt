//! The text of a symbol's name with its version.

ghost use Rattle.std.specs.Prelude.{◌≡◌, codes, if◌then◌else◌};

use crate::name::RawSymbolName;
use std::fmt;

/// A part of a name as text: where it is no UTF-8, `?` stands for each byte beyond ASCII.
#[derive(Clone, Copy)]
struct PartText<'a>(&'a [u8]);

/// The bytes that are no UTF-8 as text: `?` for each beyond ASCII.
#[derive(Clone, Copy)]
struct AsciiText<'a>(&'a [u8]);

impl fmt::Display for AsciiText<'_> {
    ghost use Rattle.std.specs.Prelude.{Some, map};
    ghost use Rattle.elf_versions.specs.steps.Texts.{shown_byte};

    ghost output = { λ shown. Some (map shown_byte shown.0.now) };

    fn fmt<W: fmt::Write>(&self, f: &mut fmt::Formatter<W>) -> fmt::Result {
        for byte in self.0 {
            let shown = if *byte < 128 { char::from(*byte) } else { '?' };
            f.write_char(shown)?;
        }
        Ok(())
    }
}

impl fmt::Display for PartText<'_> {
    ghost use Rattle.std.specs.Prelude.{Some};
    ghost use Rattle.elf_format.specs.SymbolName.{part_text};

    ghost output = { λ shown. Some (part_text shown.0.now) };

    #[tactic(auto, using(crate::proofs::TextLemmas::part_whole, crate::proofs::TextLemmas::part_ascii))]
    fn fmt<W: fmt::Write>(&self, f: &mut fmt::Formatter<W>) -> fmt::Result {
        match str::from_utf8(self.0) {
            Ok(text) => f.write_str(text),
            Err(_) => write!(f, "{}", AsciiText(self.0)),
        }
    }
}

/// Returns the text before a version.
fn version_mark(is_default: bool) -> &'static str
    ensures { result.now ≡ (if is_default then codes "@@" else codes "@") }
{
    if is_default { "@@" } else { "@" }
}

impl fmt::Display for RawSymbolName<'_> {
    ghost use Rattle.std.specs.Prelude.{Some};
    ghost use Rattle.elf_format.specs.SymbolName.{name_text};

    ghost output = { λ shown. Some (name_text shown) };

    /// Shows `name`, `name@version`, or `name@@version` for the default version.
    #[tactic(auto, unfolding(elf_format::specs::SymbolName::name_text))]
    fn fmt<W: fmt::Write>(&self, f: &mut fmt::Formatter<W>) -> fmt::Result {
        let name = PartText(self.name);
        let Some(version) = self.version_name else {
            return write!(f, "{name}");
        };
        let mark = version_mark(self.is_default);
        let version = PartText(version);
        write!(f, "{name}{mark}{version}")
    }
}
