//! Tables of records of one size, one after another, as the section header table, the symbol table and
//! relocation sections (gABI). Contracts see a table as the list of its records, each by its bytes.

ghost use Rattle.std.specs.Prelude.{◌≡◌, ◌*◌, ◌^◌, ◌<◌, ◌≤◌, length, option_map, slice_get};
ghost use Rattle.std.specs.Iterator.{YieldsFirstBy, item_count};
ghost use Rattle.elf_format.specs.Bytes.{records, whole_records};

use crate::record::Record;
use std::marker::{Model, PhantomData};

/// Records of one type, one after another in a byte slice. As an iterator it yields them in order.
#[derive(Clone, Drop)]
pub struct Records<'a, R: Record> {
    bytes: &'a [u8],
    count: usize,
    record: PhantomData<R>,
}

impl<'a, R: Record> Model for Records<'a, R> {
    ghost use Rattle.std.specs.Prelude.{ℕ, List, ◌*◌, ◌≤◌, length};
    ghost use Rattle.elf_format.specs.Bytes.{records};

    ghost Value = { List (List ℕ) };

    ghost view = { λ r. records R.SIZE r.count r.bytes.now };

    ghost invariant = { λ r. R.SIZE * r.count ≤ length r.bytes.now };
}

impl<'a, R: Record> Records<'a, R> {
    /// Returns the table of `count` records from the first byte on. Requires the bytes of all of them.
    pub fn new(bytes: &'a [u8], count: usize) -> Self
        requires { R.SIZE * count ≤ length bytes.now }
        ensures { result ≡ records R.SIZE count bytes.now }
    {
        Records {
            bytes,
            count,
            record: PhantomData,
        }
    }

    /// Returns the table of the whole records in some bytes. A truncated one at the end does not count.
    pub fn whole(bytes: &'a [u8]) -> Self
        ensures { result ≡ whole_records R.SIZE bytes.now }
    {
        Records::new(bytes, bytes.len() / R::SIZE)
    }

    /// Returns an iterator over the records.
    #[tactic(auto, using(elf_format::proofs::RecordLemmas::length_records))]
    pub fn iter(&self) -> Records<'a, R>
        ensures same { result ≡ self.now }
        ensures bound { length result < 2 ^ 64 }
    {
        Records {
            bytes: self.bytes,
            count: self.count,
            record: PhantomData,
        }
    }

    /// Returns the number of records.
    #[tactic(auto, using(elf_format::proofs::RecordLemmas::length_records))]
    pub fn len(&self) -> usize
        ensures { result ≡ length self.now }
    {
        self.count
    }

    /// Returns the record at an index from 0, or None exactly where the index is the count or more.
    #[tactic(auto, using(elf_format::proofs::RecordLemmas::record_at, elf_format::proofs::RecordLemmas::no_record_at))]
    pub fn get(&self, index: usize) -> Option<R>
        ensures { option_map R.contents result ≡ slice_get self.now index }
    {
        if index >= self.count {
            return None;
        }
        R::read(&self.bytes[R::SIZE * index..])
    }
}

impl<R: Record> Iterator for Records<'_, R> {
    type Item = R;

    ghost next_gives = { YieldsFirstBy R.contents (λ s. s) };

    ghost remaining = { item_count (λ s. s) };

    #[tactic(auto, using(elf_format::proofs::RecordLemmas::length_records))]
    fn next(&mut self) -> Option<R> {
        if self.count == 0 {
            return None;
        }
        let first = R::read(self.bytes)?;
        self.bytes = &self.bytes[R::SIZE..];
        self.count -= 1;
        Some(first)
    }
}
