//! Decoder of relocation lists in CREL, the compact form of RELA (LLVM; section type 0x40000014): a header in
//! ULEB128 with the count, and records that state what changes from one to the next. Bytes after the last
//! record are ignored. Contracts see the decoder as its count and the items that it still yields.

ghost use Rattle.std.specs.Prelude.{◌≡◌};
ghost use Rattle.elf_format.specs.Cursor.{Returns};
ghost use Rattle.elf_format.specs.Crel.{listing};

use crate::record::{read_record, shift_offset};
use elf_format::{Crel, CrelError};
use elf_words::ByteCursor;
use std::marker::Model;

/// The records of a list in CREL, decoded one by one. A malformed record yields its error, which is the last
/// item.
#[derive(Clone, Drop)]
pub struct CrelIterator<'a> {
    bytes: &'a [u8],
    last: Crel,
    left: u64,
    total: u64,
    shift: u32,
    has_addends: bool,
}

impl<'a> Model for CrelIterator<'a> {
    ghost use Rattle.std.specs.Prelude.{◌<◌};
    ghost use Rattle.elf_format.specs.Crel.{Listing, items};

    ghost Value = { Listing };

    ghost view = { λ r. record { count = r.total; items = items r.left r.has_addends r.shift r.last r.bytes.now } };

    ghost invariant = { λ r. r.shift < 4 };
}

impl<'a> CrelIterator<'a> {
    /// Reads the header of a list, which begins at the first byte. Returns `TooLong` where its number in
    /// ULEB128 needs more than 64 bits, `Truncated` where the bytes end inside it. The records are decoded by
    /// `next`.
    #[tactic(auto, unfolding(elf_format::specs::Crel::listing))]
    pub fn parse(bytes: &'a [u8]) -> Result<CrelIterator<'a>, CrelError>
        ensures { Returns (λ x. x) result (listing bytes.now) }
    {
        let mut cursor = ByteCursor::new(bytes);
        let header = cursor.read_uleb128()?;
        Ok(CrelIterator {
            bytes: cursor.rest(),
            last: Crel {
                offset: 0,
                symbol: 0,
                kind: 0,
                addend: 0,
            },
            left: header / 8,
            total: header / 8,
            shift: (header % 4) as u32,
            has_addends: header / 4 % 2 == 1,
        })
    }

    /// Returns the count of records that the header states, from 0 to 2^61 - 1. Steps do not change it. The
    /// list yields fewer items where a record is malformed.
    pub fn len(&self) -> u64
        ensures { result ≡ self.now.count }
    {
        self.total
    }
}

impl Iterator for CrelIterator<'_> {
    type Item = Result<Crel, CrelError>;

    ghost use Rattle.std.specs.Prelude.{◌≡◌};
    ghost use Rattle.std.specs.Iterator.{YieldsFirst, item_count};

    ghost next_gives = { λ s r t. (YieldsFirst (λ x. x.items) s r t) × (t.count ≡ s.count) };

    ghost remaining = { item_count (λ x. x.items) };

    /// Returns the next record with its offset shifted, or `Some(Err(..))` where it is malformed: `Truncated`
    /// where the bytes end inside it, `TooLong` where a number in LEB128 needs more than 64 bits. After an
    /// error and after the last record it returns None.
    fn next(&mut self) -> Option<Result<Crel, CrelError>> {
        if self.left == 0 {
            return None;
        }
        match read_record(self.has_addends, self.last, self.bytes) {
            Ok((record, rest)) => {
                self.left -= 1;
                self.last = record;
                self.bytes = rest;
                Some(Ok(shift_offset(record, self.shift)))
            }
            Err(error) => {
                self.left = 0;
                Some(Err(error))
            }
        }
    }
}
