//! Relocations of the test object's `.eh_frame`, in either form.

use elf_records64::Class64;
use elf_relocs::{
    Crel, CrelIterator, ElfCrel, RelaView, RelocationList, RelocationSequence, encode_crel,
};
use std::alloc::Global;
use std::test::Fail;
use test_objects::rela_records;

/// Returns a relocation of type 2 of an offset, about a symbol.
pub(crate) fn relocation(offset: u64, symbol: u32) -> Crel {
    Crel {
        offset,
        symbol,
        kind: 2,
        addend: 0,
    }
}

/// Returns the bytes of RELA records.
pub(crate) fn records(alloc: Global, list: &[Crel]) -> Result<Vec<u8>, Fail> {
    Ok(rela_records(alloc, list)?)
}

/// Returns the relocations of the bytes of RELA records.
pub(crate) fn sequence(
    alloc: Global,
    bytes: &[u8],
) -> Result<RelocationSequence<'_, Class64>, Fail> {
    let Some(view) = RelaView::new(bytes) else {
        return Ok(RelocationList::Crel(CrelIterator::parse(&[0])?).to_sequence(alloc)?);
    };
    Ok(RelocationList::Rela(view).to_sequence(alloc)?)
}

/// Returns one relocation as a list in CREL.
pub(crate) fn in_crel(
    alloc: Global,
    relocation: Crel,
) -> Result<RelocationSequence<'static, Class64>, Fail> {
    let bytes = encode_crel(alloc, &[ElfCrel::<Class64>::new(relocation)])?;
    let mut list = Vec::new(alloc);
    for entry in CrelIterator::parse(&bytes)? {
        list.push(ElfCrel::new(entry?))?;
    }
    Ok(RelocationSequence::Crel(list))
}
