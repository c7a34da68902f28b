//! Symbol visibility (gABI, Symbol Visibility).

ghost use Rattle.std.specs.Prelude.{◌≡◌};
ghost use Rattle.elf_symbols.specs.SymbolShape.{visibility_of};

use crate::numbers::{STV_HIDDEN, STV_PROTECTED};

/// How a symbol is seen from outside its component.
#[derive(Clone, Copy, Debug, PartialEq, Eq)]
pub enum Visibility {
    /// As the binding says.
    Default,
    /// Not at all.
    Hidden,
    /// As the binding says, and references inside the component are not bound elsewhere.
    Protected,
}

/// Returns the visibility of a number: hidden for 2, protected for 3, and default for every other one, also for
/// `STV_INTERNAL`, 1.
pub fn convert_elf_visibility(visibility: u8) -> Visibility
    ensures { result ≡ visibility_of visibility }
{
    match visibility {
        STV_HIDDEN => Visibility::Hidden,
        STV_PROTECTED => Visibility::Protected,
        _ => Visibility::Default,
    }
}
