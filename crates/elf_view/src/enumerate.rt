//! Records of a table with their indexes: section headers and symbols (gABI, Sections and Symbol Table). Contracts
//! see the iterator as the pairs that it still yields.

ghost use Rattle.std.specs.Prelude.{◌≡◌, ℕ, ◌<◌, ◌^◌, length};
ghost use Rattle.std.specs.List.{enumerate_from};
ghost use Rattle.std.specs.Iterator.{YieldsFirstBy, item_count};

use elf_words::{ElfClass, Record, Records, SectionIndex, SymbolIndex};
use std::marker::{Model, PhantomData};

/// An index into a table of a file.
pub trait TableIndex: Copy {
    // the number of records before the indexed one
    ghost ordinal: { Self → ℕ };

    /// Returns the index of the record that `number` records precede.
    fn at(number: usize) -> Self
        ensures { Self.ordinal result ≡ number };
}

impl TableIndex for SectionIndex {
    ghost ordinal = { λ index. index.0 };

    fn at(number: usize) -> Self {
        SectionIndex(number)
    }
}

impl TableIndex for SymbolIndex {
    ghost ordinal = { λ index. index.0 };

    fn at(number: usize) -> Self {
        SymbolIndex(number)
    }
}

/// Iterator over section headers in the order of the table, each with its index.
pub type SectionEnum<'a, C> = RecordEnum<'a, SectionIndex, <C as ElfClass>::SectionHeader>;

/// Iterator over symbols in the order of the table, each with its index.
pub type SymbolEnum<'a, C> = RecordEnum<'a, SymbolIndex, <C as ElfClass>::Sym>;

/// Records in the order of the table, each with its index.
#[derive(Drop)]
pub struct RecordEnum<'a, I: TableIndex, R: Record> {
    next: usize,
    records: Records<'a, R>,
    index: PhantomData<I>,
}

impl<'a, I: TableIndex, R: Record> Model for RecordEnum<'a, I, R> {
    ghost use Rattle.std.specs.Prelude.{ℕ, List, ◌+◌, ◌<◌, ◌^◌, length};
    ghost use Rattle.std.specs.List.{enumerate_from};

    ghost Value = { List (ℕ × List ℕ) };

    ghost view = { λ s. enumerate_from s.next s.records };

    ghost invariant = { λ s. s.next + length s.records < 2 ^ 64 };
}

impl<'a, I: TableIndex, R: Record> RecordEnum<'a, I, R> {
    /// Iterates over records, with indexes from 0.
    pub(crate) fn new(records: Records<'a, R>) -> Self
        requires { length records < 2 ^ 64 }
        ensures { result ≡ enumerate_from 0 records.entry }
    {
        RecordEnum {
            next: 0,
            records,
            index: PhantomData,
        }
    }
}

impl<'a, I: TableIndex, R: Record> Iterator for RecordEnum<'a, I, R> {
    type Item = (I, R);

    ghost next_gives = { YieldsFirstBy (λ item. (I.ordinal item.0, R.contents item.1)) (λ s. s) };

    ghost remaining = { item_count (λ s. s) };

    /// Returns the next record with its index, or None after the last.
    fn next(&mut self) -> Option<(I, R)> {
        let record = self.records.next()?;
        let index = I::at(self.next);
        self.next += 1;
        Some((index, record))
    }
}
