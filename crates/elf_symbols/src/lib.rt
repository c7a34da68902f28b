//! What a symbol table entry says of its symbol (System V gABI, Symbol Table; GNU extensions), for entries of both
//! classes: each test is a bit or a number of a field.
#![tactic(auto)]

mod common;
mod debug;
mod examples;
mod numbers;
mod symbol;
mod visibility;

pub use common::CommonSymbol;
pub use debug::SymDebug;
pub use examples::{common_blocks_are_rounded_up, entries_are_shown};
pub use numbers::{
    SHN_ABS, SHN_COMMON, SHN_UNDEF, STB_GNU_UNIQUE, STB_LOCAL, STB_WEAK, STT_COMMON, STT_FILE,
    STT_FUNC, STT_GNU_IFUNC, STT_NOTYPE, STT_OBJECT, STT_SECTION, STT_TLS, STV_DEFAULT, STV_HIDDEN,
    STV_PROTECTED, symbol_numbers_are_the_standards,
};
pub use symbol::Symbol;
pub use visibility::{Visibility, convert_elf_visibility};
