//! A chain of version records (GNU symbol versioning). Each record has the distance in bytes to the next. Contracts
//! see the iterator as the items that it still yields, each record by its bytes.

ghost use Rattle.std.specs.Prelude.{◌≡◌, ◌+◌, ℕ, refl};
ghost use Rattle.std.specs.Iterator.{YieldsFirstBy, item_count};
ghost use Rattle.elf_format.specs.Bytes.{get};
ghost use Rattle.elf_format.specs.Chain.{on_ok};
ghost use Rattle.elf_format.specs.VersionChain.{ChainForm, records_from, verdaux_form, vernaux_form, definition_form, need_form};

use crate::step::{Position, offset_after, read_step};
use elf_format::ElfError;
use elf_tables::{Verdaux, Verdef, Vernaux, Verneed};
use elf_words::Record;
use std::marker::{Model, PhantomData};

/// A record of a chain.
pub trait ChainRecord: Record {
    // its size and the field that has the distance to the next
    ghost form: { ChainForm };

    /// Returns the distance in bytes from the start of this record to the start of the next, 0 for none.
    fn next_distance(&self) -> u32
        ensures { result ≡ get form.next (Self.contents self.now) };

    ghost size_is: { form.size ≡ Self.SIZE };
}

impl ChainRecord for Verdaux {
    ghost form = { verdaux_form };

    ghost size_is = { refl };

    fn next_distance(&self) -> u32 {
        self.vda_next()
    }
}

impl ChainRecord for Vernaux {
    ghost form = { vernaux_form };

    ghost size_is = { refl };

    fn next_distance(&self) -> u32 {
        self.vna_next()
    }
}

impl ChainRecord for Verdef {
    ghost form = { definition_form.outer };

    ghost size_is = { refl };

    fn next_distance(&self) -> u32 {
        self.vd_next()
    }
}

impl ChainRecord for Verneed {
    ghost form = { need_form.outer };

    ghost size_is = { refl };

    fn next_distance(&self) -> u32 {
        self.vn_next()
    }
}

/// The records of a chain in order. A record that is not whole in the bytes yields `VersionTable`, which is the last
/// item.
#[derive(Clone, Drop)]
pub struct Chain<'a, R: ChainRecord> {
    bytes: &'a [u8],
    position: Position,
    record: PhantomData<R>,
}

/// The names of a version definition.
pub type VerdauxIter<'a> = Chain<'a, Verdaux>;

/// The versions needed from a file.
pub type VernauxIter<'a> = Chain<'a, Vernaux>;

impl<'a, R: ChainRecord> Model for Chain<'a, R> {
    ghost use Rattle.std.specs.Prelude.{ℕ, List, Result};
    ghost use Rattle.elf_format.specs.declared.error.ElfError.{ElfError};
    ghost use Rattle.elf_format.specs.VersionChain.{records_from};

    ghost Value = { List (Result (List ℕ) ElfError) };

    ghost view = { λ c. records_from R.form c.bytes.now c.position.count c.position.at };
}

impl<'a, R: ChainRecord> Chain<'a, R> {
    /// Returns the chain of at most `count` records, the first at a distance in bytes from an offset.
    pub(crate) fn after(bytes: &'a [u8], count: u32, at: usize, distance: u32) -> Self
        ensures { result ≡ records_from R.form bytes.now count (at + distance) }
    {
        Chain {
            bytes,
            position: Position {
                at: offset_after(bytes, at, distance),
                count,
            },
            record: PhantomData,
        }
    }

    /// Returns the chain of at most `count` records, the first at the first byte.
    pub fn new(bytes: &'a [u8], count: u32) -> Self
        ensures { result ≡ records_from R.form bytes.now count 0 }
    {
        Chain::after(bytes, count, 0, 0)
    }
}

impl<R: ChainRecord> Iterator for Chain<'_, R> {
    type Item = Result<R, ElfError>;

    ghost next_gives = { YieldsFirstBy (on_ok R.contents) (λ s. s) };

    ghost remaining = { item_count (λ s. s) };

    /// Returns the next record, or `Some(Err(VersionTable))` where the bytes end inside it. After an error and after
    /// the last record it returns None.
    fn next(&mut self) -> Option<Result<R, ElfError>> {
        if self.position.count == 0 {
            return None;
        }
        let (item, position) = read_step::<R>(self.bytes, self.position);
        self.position = position;
        Some(item)
    }
}
