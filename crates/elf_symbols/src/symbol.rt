//! A symbol table entry of either class, by what it says of its symbol (gABI, Symbol Table).

ghost use Rattle.std.specs.Prelude.{◌≡◌, ◌==◌, ◌&&◌, ◌||◌, nat_lt, nat_eq, max, is_some, codes, IfSome, IfOk, string_bytes, if◌then◌else◌};
ghost use Rattle.std.specs.List.{starts_with};
ghost use Rattle.elf_format.specs.Bytes.{get};
ghost use Rattle.elf_format.specs.Class as fields;
ghost use Rattle.elf_format.specs.SectionIndex.{shn_undef};
ghost use Rattle.elf_setters.specs.Put.{with_field, with_visibility};
ghost use Rattle.elf_symbols.specs.SymbolShape.{visibility_of};
ghost use Rattle.elf_symbols.specs.SymbolTests as tests;
ghost use Rattle.elf_symbols.specs.SymbolText.{symbol_text};

use crate::common::{CommonSymbol, common_size};
use crate::debug::SymDebug;
use crate::numbers::{
    SHN_ABS, SHN_COMMON, SHN_UNDEF, STB_GNU_UNIQUE, STB_LOCAL, STB_WEAK, STT_FUNC, STT_GNU_IFUNC,
    STT_TLS, STV_DEFAULT, STV_HIDDEN,
};
use crate::visibility::{Visibility, convert_elf_visibility};
use elf_records32::Sym32;
use elf_records64::Sym64;
use elf_setters::WritableSymbol;
use elf_words::Alignment;
use std::alloc::{AllocError, Global};

/// What a symbol table entry says of its symbol.
pub trait Symbol: WritableSymbol {
    /// Returns the binding, the high four bits of `st_info`.
    fn binding(&self) -> u8
        ensures { result ≡ tests.symbol_binding Self.class (Self.contents self.now) }
    {
        self.st_info() / 16
    }

    /// Returns the type, the low four bits of `st_info`.
    fn symbol_type(&self) -> u8
        ensures { result ≡ tests.symbol_type Self.class (Self.contents self.now) }
    {
        self.st_info() % 16
    }

    /// Returns what the linker allocates for a common symbol: Some exactly if the section index is `SHN_COMMON`, the value
    /// is an alignment (0 means 1), and the size, rounded up to it, fits 64 bits.
    fn as_common(&self) -> Option<CommonSymbol>
        ensures some { is_some result ≡ tests.is_common_symbol Self.class (Self.contents self.now) }
        ensures common { IfSome result (λ common. (common.size ≡ tests.common_size Self.class (Self.contents self.now)) × (common.alignment ≡ max 1 (get (fields.st_value Self.class) (Self.contents self.now))) × (common.is_tls ≡ (tests.symbol_type Self.class (Self.contents self.now) == tests.stt_tls))) }
    {
        if self.st_shndx() != SHN_COMMON {
            return None;
        }
        let Ok(alignment) = Alignment::new(self.st_value()) else {
            return None;
        };
        let size = common_size(alignment, self.st_size())?;
        Some(CommonSymbol {
            size,
            alignment,
            is_tls: self.is_tls(),
        })
    }

    /// Reports whether the symbol is undefined: its section index is `SHN_UNDEF`.
    fn is_undefined(&self) -> bool
        ensures { result ≡ (get (fields.st_shndx Self.class) (Self.contents self.now) == shn_undef) }
    {
        self.st_shndx() == SHN_UNDEF
    }

    /// Reports whether the value is absolute: the section index is `SHN_ABS`.
    fn is_absolute(&self) -> bool
        ensures { result ≡ (get (fields.st_shndx Self.class) (Self.contents self.now) == tests.shn_abs) }
    {
        self.st_shndx() == SHN_ABS
    }

    /// Reports whether the binding is `STB_LOCAL`.
    fn is_local(&self) -> bool
        ensures { result ≡ (tests.symbol_binding Self.class (Self.contents self.now) == tests.stb_local) }
    {
        self.binding() == STB_LOCAL
    }

    /// Reports whether the binding is `STB_WEAK`.
    fn is_weak(&self) -> bool
        ensures { result ≡ (tests.symbol_binding Self.class (Self.contents self.now) == tests.stb_weak) }
    {
        self.binding() == STB_WEAK
    }

    /// Reports whether the binding is `STB_GNU_UNIQUE`.
    fn is_gnu_unique(&self) -> bool
        ensures { result ≡ (tests.symbol_binding Self.class (Self.contents self.now) == tests.stb_gnu_unique) }
    {
        self.binding() == STB_GNU_UNIQUE
    }

    /// Reports whether the type is `STT_FUNC`.
    fn is_func(&self) -> bool
        ensures { result ≡ (tests.symbol_type Self.class (Self.contents self.now) == tests.stt_func) }
    {
        self.symbol_type() == STT_FUNC
    }

    /// Reports whether the type is `STT_GNU_IFUNC`.
    fn is_ifunc(&self) -> bool
        ensures { result ≡ (tests.symbol_type Self.class (Self.contents self.now) == tests.stt_gnu_ifunc) }
    {
        self.symbol_type() == STT_GNU_IFUNC
    }

    /// Reports whether the type is `STT_TLS`.
    fn is_tls(&self) -> bool
        ensures { result ≡ (tests.symbol_type Self.class (Self.contents self.now) == tests.stt_tls) }
    {
        self.symbol_type() == STT_TLS
    }

    /// Returns the visibility, by the low two bits of `st_other`.
    fn visibility(&self) -> Visibility
        ensures { result ≡ visibility_of (tests.symbol_visibility Self.class (Self.contents self.now)) }
    {
        convert_elf_visibility(self.st_other() % 4)
    }

    /// Reports whether the visibility is `STV_HIDDEN`.
    fn is_hidden(&self) -> bool
        ensures { result ≡ (tests.symbol_visibility Self.class (Self.contents self.now) == tests.stv_hidden) }
    {
        self.st_other() % 4 == STV_HIDDEN
    }

    /// Reports whether another component may replace the symbol: the visibility is `STV_DEFAULT`.
    fn is_interposable(&self) -> bool
        ensures { result ≡ (tests.symbol_visibility Self.class (Self.contents self.now) == tests.stv_default) }
    {
        self.st_other() % 4 == STV_DEFAULT
    }

    /// Returns `st_value`: in a relocatable file, the offset in the section.
    fn value(&self) -> u64
        ensures { result ≡ get (fields.st_value Self.class) (Self.contents self.now) }
    {
        self.st_value()
    }

    /// Returns `st_size`, the size in bytes, 0 for none or unknown.
    fn size(&self) -> u64
        ensures { result ≡ get (fields.st_size Self.class) (Self.contents self.now) }
    {
        self.st_size()
    }

    /// Reports whether the symbol has a name: `st_name` is above 0.
    fn has_name(&self) -> bool
        ensures { result ≡ nat_lt 0 (get (fields.st_name Self.class) (Self.contents self.now)) }
    {
        self.st_name() > 0
    }

    /// Reports whether a symbol with this name is left out where local labels are: it is a mapping symbol, as the caller
    /// says, or it is local and its name begins with `.L`.
    fn is_default_strippable(&self, name: &[u8], is_mapping: bool) -> bool
        ensures { result ≡ (is_mapping || ((tests.symbol_binding Self.class (Self.contents self.now) == tests.stb_local) && starts_with nat_eq name.now (codes ".L"))) }
    {
        is_mapping || self.is_local() && name.starts_with(b".L")
    }

    /// Returns the symbol itself, or with `hidden` the symbol with the visibility `STV_HIDDEN` and all else as it is.
    fn with_hidden(self, hidden: bool) -> Self
        ensures { Self.contents result ≡ (if hidden then with_field (fields.st_other Self.class) (with_visibility tests.stv_hidden (get (fields.st_other Self.class) (Self.contents self))) (Self.contents self) else Self.contents self) }
    {
        let mut symbol = self;
        if hidden {
            symbol.set_visibility(STV_HIDDEN);
        }
        symbol
    }

    /// Returns what `SymDebug` shows: the binding, a space and the type.
    fn debug_string(&self, alloc: Global) -> Result<String, AllocError>
        ensures { IfOk result (λ text. string_bytes text ≡ symbol_text Self.class (Self.contents self.now)) }
    {
        SymDebug(self).to_string(alloc)
    }
}

impl Symbol for Sym64 {}

impl Symbol for Sym32 {}
