//! Relocations in either form (gABI, Relocation; CREL as LLVM defines it), with bytes and values worked out by
//! hand.

use elf_records64::Class64;
use elf_relocs::{
    Crel, CrelError, CrelFault, CrelIterator, ElfCrel, Rel, RelaView, Relocation, RelocationList,
    encode_crel,
};
use elf_words::{Span, SymbolIndex};
use std::test::Fail;

// in CREL: two relocations of type 2 about symbol 1, at 0x10 and 0x18
const LIST: &[u8] = &[0x14, 0x83, 0x01, 0x01, 0x02, 0x40];

// RELA records: the first of them, and one of type 1 about no symbol, at 8 with addend -1
const RECORDS: &[u8] = b"\
    \x10\0\0\0\0\0\0\0\x02\0\0\0\x01\0\0\0\0\0\0\0\0\0\0\0\
    \x08\0\0\0\0\0\0\0\x01\0\0\0\0\0\0\0\xff\xff\xff\xff\xff\xff\xff\xff";

#[test]
fn lists_in_crel(rt: HostRuntime) -> Result<(), Fail> {
    let mut list = CrelIterator::parse(LIST)?;
    let mut decoded = Vec::new(rt.alloc());
    for offset in [0x10, 0x18] {
        let Some(Ok(found)) = list.next() else {
            return Ok(assert!(rt; false));
        };
        assert!(rt;
            [found.offset, u64::from(found.symbol), u64::from(found.kind)] == [offset, 1, 2]
        );
        decoded.push(ElfCrel::<Class64>::new(found))?;
    }
    assert!(rt; list.next().is_none() && list.len() == 2);
    assert!(rt; encode_crel(rt.alloc(), &decoded)?.as_slice() == LIST);
    let one = [ElfCrel::<Class64>::new(Crel {
        offset: 0x100,
        symbol: 0,
        kind: 0,
        addend: -1,
    })];
    assert!(rt; one[0].symbol().is_none());
    assert!(rt; encode_crel(rt.alloc(), &one)?.as_slice() == [0x0c, 0x84, 0x10, 0x7f].as_slice());
    Ok(())
}

#[test]
fn malformed_lists(rt: HostRuntime) -> Result<(), Fail> {
    for (header, error) in [
        (b"".as_slice(), CrelError::Truncated),
        (b"\x80", CrelError::Truncated),
        (
            b"\x80\x80\x80\x80\x80\x80\x80\x80\x80\x02",
            CrelError::TooLong,
        ),
    ] {
        assert!(rt; matches!(CrelIterator::parse(header), Err(found) if found == error));
    }
    for (bytes, error) in [
        (b"\x14\x83\x01\x01\x02".as_slice(), CrelError::Truncated),
        (b"\x14\x83\x01\x01\x02\x44", CrelError::Truncated),
        (b"\x14\x40\x80\x80", CrelError::Truncated),
        (
            b"\x14\x40\xc0\x80\x80\x80\x80\x80\x80\x80\x80\x80\x02",
            CrelError::TooLong,
        ),
    ] {
        let all = CrelIterator::parse(bytes)?.to_vec::<Class64>(rt.alloc());
        let mut list = CrelIterator::parse(bytes)?;
        assert!(rt; matches!(all, Err(CrelFault::Crel(found)) if found == error));
        assert!(rt; matches!(list.next(), Some(Ok(_))));
        assert!(rt; matches!(list.next(), Some(Err(found)) if found == error));
        assert!(rt; list.next().is_none());
    }
    Ok(())
}

#[test]
fn sequences_of_either_form(rt: HostRuntime) -> Result<(), Fail> {
    assert!(rt; RelaView::<Class64>::new(&[0; 25]).is_none());
    let Some(view) = RelaView::<Class64>::new(RECORDS) else {
        return Ok(assert!(rt; false));
    };
    assert!(rt; view.len() == 2 && view.get(2).is_none());
    assert!(rt; matches!(view.get(1), Some(second) if second.raw_type() == 1));
    let records = RelocationList::Rela(view).to_sequence(rt.alloc())?;
    let list: RelocationList<Class64> = RelocationList::Crel(CrelIterator::parse(LIST)?);
    assert!(rt; list.num_relocations() == 2);
    let decoded = list.to_sequence(rt.alloc())?;
    for (sequence, is_rela, offset, addend) in [
        (&records, true, 8, -1),
        (&decoded, false, 0x18, 0),
    ] {
        assert!(rt; sequence.num_relocations() == 2);
        let Some(first) = sequence.rel_iter().next() else {
            return Ok(assert!(rt; false));
        };
        assert!(rt; matches!(first, Rel::Rela(_)) == is_rela);
        assert!(rt; first.symbol() == Some(SymbolIndex(1)) && first.raw_type() == 2);
        if sequence.num_relocations() >= 2 {
            let part = sequence.subsequence(rt.alloc(), Span { start: 1, stop: 2 })?;
            let last = part.rel_iter().next();
            assert!(rt;
                matches!(last, Some(rel) if rel.offset() == offset && rel.addend() == addend)
            );
        }
    }
    Ok(())
}
