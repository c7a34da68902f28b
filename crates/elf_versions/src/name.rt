//! The name of a symbol with its version: `name@version`, or `name@@version` for the default one (GNU as manual,
//! .symver). Contracts see it as the parts.

ghost use Rattle.std.specs.Prelude.{◌≡◌, ◌==◌, ◌<◌, position, slice_get, option_copied, length, Some, None, IfSome, false};
ghost use Rattle.std.specs.Option.{option_flatten};
ghost use Rattle.elf_format.specs.SymbolName.{VersionedName, versioned_name, at_sign};
ghost use Rattle.elf_versions.specs.Shown.{name_with};

use crate::needed::VerneedTable;
use elf_format::SymbolIndex;
use std::marker::Model;

/// The byte before a version.
const AT_SIGN: u8 = b'@';

/// The name of a symbol, its version if it has one, and whether that is the default one.
#[derive(Debug, Drop)]
pub struct RawSymbolName<'a> {
    /// The name without its version.
    pub name: &'a [u8],
    /// The name of the version.
    pub version_name: Option<&'a [u8]>,
    /// Whether the version is the default one: true also without a version.
    pub is_default: bool,
}

impl<'a> Model for RawSymbolName<'a> {
    ghost use Rattle.std.specs.Prelude.{option_copied};
    ghost use Rattle.elf_format.specs.SymbolName.{VersionedName};

    ghost Value = { VersionedName };

    ghost view = { λ n. record { name = n.name.now; version = option_copied n.version_name; is_default = n.is_default } };
}

impl<'a> RawSymbolName<'a> {
    /// Splits a name at its first `@`. The version is the default one after `@@`. Without `@` the name has no version,
    /// and is the default one.
    #[tactic(auto, unfolding(elf_format::specs::SymbolName::versioned_name))]
    pub fn parse(bytes: &'a [u8]) -> Self
        ensures { result ≡ versioned_name bytes.now }
    {
        let Some(at) = first_at_sign(bytes) else {
            return RawSymbolName {
                name: bytes,
                version_name: None,
                is_default: true,
            };
        };
        let name = &bytes[..at];
        match &bytes[at + 1..] {
            [AT_SIGN, version @ ..] => RawSymbolName {
                name,
                version_name: Some(version),
                is_default: true,
            },
            version => RawSymbolName {
                name,
                version_name: Some(version),
                is_default: false,
            },
        }
    }

    /// Returns the name without its version.
    pub fn name(&self) -> &'a [u8]
        ensures { result.now ≡ self.now.name }
    {
        self.name
    }

    /// Returns the name of the version, or None without one.
    pub fn version_name(&self) -> Option<&'a [u8]>
        ensures { option_copied result ≡ self.now.version }
    {
        self.version_name
    }

    /// Returns whether the version is the default one: true also without a version.
    pub fn is_default(&self) -> bool
        ensures { result ≡ self.now.is_default }
    {
        self.is_default
    }
}

/// Returns the offset of the first `@`, or None where there is none.
fn first_at_sign(bytes: &[u8]) -> Option<usize>
    ensures value { result ≡ position (λ byte. byte == at_sign) bytes.now }
    ensures bound { IfSome result (λ offset. offset < length bytes.now) }
{
    bytes.iter().position(|byte| *byte == AT_SIGN)
}

/// Returns the whole name with the version that a symbol needs, which is not the default one. Where it needs none, the
/// name is split at its first `@`.
pub fn raw_symbol_name<'a>(
    name: &'a [u8],
    table: &VerneedTable<'a>,
    symbol: SymbolIndex,
) -> RawSymbolName<'a>
    ensures { result ≡ name_with name.now (option_flatten (slice_get table.now symbol.0)) }
{
    match table.version_name(symbol) {
        Some(version) => RawSymbolName {
            name,
            version_name: Some(version),
            is_default: false,
        },
        None => RawSymbolName::parse(name),
    }
}
