//! Lists the symbols of a file with their versions.

use crate::error::ListError;
use elf_format::SymbolIndex;
use elf_view::{File, RawSymbolName, VerneedTable, VersionNames};
use elf_words::{ElfClass, SymFields};
use std::alloc::Global;

/// Returns bytes as a name that is shown as it stands.
pub(crate) fn plain_name(bytes: &[u8]) -> RawSymbolName<'_> {
    RawSymbolName {
        name: bytes,
        version_name: None,
        is_default: true,
    }
}

/// Prints a line for a symbol, `symbol INDEX VALUE SIZE INFO OTHER SECTION [NAME] [NEEDED] [VERSION]`: the section is 0 where the
/// symbol is defined in none, the name has its defined version, and an empty part stands for no version.
fn print_symbol<'a, C: ElfClass, R: Print>(
    rt: &R,
    alloc: Global,
    file: &File<'a, C>,
    index: SymbolIndex,
    symbol: &C::Sym,
    names: &VersionNames<'a>,
    needed: &VerneedTable<'a>,
) -> Result<(), ListError> {
    let name = file.get_symbol_name_and_version(symbol, index.0, names)?;
    let needed = plain_name(needed.version_name(index).unwrap_or(b""));
    let text = file
        .symbol_version_debug(alloc, index)?
        .unwrap_or(Vec::new(alloc));
    let text = plain_name(&text);
    let section = match file.symbol_section(symbol, index)? {
        Some(section) => section.0,
        None => 0,
    };
    let (value, size) = (symbol.st_value(), symbol.st_size());
    let (info, other) = (symbol.st_info(), symbol.st_other());
    println!(rt;
        "symbol {} {value} {size} {info} {other} {section} [{name}] [{needed}] [{text}]",
        index.0
    )?;
    Ok(())
}

/// Prints a line for each symbol of a file.
pub(crate) fn list_symbols<'a, C: ElfClass, R: Print>(
    rt: &R,
    alloc: Global,
    file: &File<'a, C>,
) -> Result<(), ListError> {
    let names = file.get_version_names(alloc)?;
    let needed = file.verneed_table(alloc)?;
    for (index, symbol) in file.enumerate_symbols() {
        print_symbol(rt, alloc, file, index, &symbol, &names, &needed)?;
    }
    Ok(())
}
