//! A chain of version records, each of which begins a chain of its own (GNU symbol versioning): version definitions
//! with their names, and files with the versions needed from them. Contracts see the iterator as the items that it
//! still yields.

ghost use Rattle.std.specs.Prelude.{◌≡◌, ◌+◌, ℕ, refl};
ghost use Rattle.std.specs.Iterator.{YieldsFirstBy, item_count};
ghost use Rattle.elf_format.specs.Bytes.{get};
ghost use Rattle.elf_format.specs.Chain.{on_ok};
ghost use Rattle.elf_format.specs.VersionChain.{HeadForm, records_from, headed_from, definition_form, need_form};
ghost use Rattle.elf_versions.specs.Shown.{headed};

use crate::chain::{Chain, ChainRecord};
use crate::step::{Position, read_step};
use elf_format::ElfError;
use elf_tables::{Verdaux, Verdef, Vernaux, Verneed};
use elf_words::Record;
use std::marker::{Model, PhantomData};

/// A record of a chain that begins a chain of its own.
pub trait ChainHead: ChainRecord {
    // both chains, and the fields that have the most records of its own and the distance to the first
    ghost head_form: { HeadForm };

    /// A record of the chain that it begins.
    type Item: ChainRecord;

    /// Returns the number of records that its own chain has at most.
    fn item_count(&self) -> u16
        ensures { result ≡ get head_form.count (Self.contents self.now) };

    /// Returns the distance in bytes from the start of this record to the first of its own chain.
    fn first_distance(&self) -> u32
        ensures { result ≡ get head_form.first (Self.contents self.now) };

    ghost outer_is: { head_form.outer ≡ Self.form };

    ghost inner_is: { head_form.inner ≡ Self.Item.form };
}

impl ChainHead for Verdef {
    ghost head_form = { definition_form };

    ghost outer_is = { refl };

    ghost inner_is = { refl };

    type Item = Verdaux;

    fn item_count(&self) -> u16 {
        self.vd_cnt()
    }

    fn first_distance(&self) -> u32 {
        self.vd_aux()
    }
}

impl ChainHead for Verneed {
    ghost head_form = { need_form };

    ghost outer_is = { refl };

    ghost inner_is = { refl };

    type Item = Vernaux;

    fn item_count(&self) -> u16 {
        self.vn_cnt()
    }

    fn first_distance(&self) -> u32 {
        self.vn_aux()
    }
}

/// The records of a chain in order, each with the chain that it begins. A record that is not whole in the bytes yields
/// `VersionTable`, which is the last item.
#[derive(Clone, Drop)]
pub struct HeadChain<'a, H: ChainHead> {
    bytes: &'a [u8],
    position: Position,
    record: PhantomData<H>,
}

/// The version definitions of a file, each with its names.
pub type VerdefIter<'a> = HeadChain<'a, Verdef>;

/// The files from which a file needs versions, each with those versions.
pub type VerneedIter<'a> = HeadChain<'a, Verneed>;

impl<'a, H: ChainHead> Model for HeadChain<'a, H> {
    ghost use Rattle.std.specs.Prelude.{List, Result};
    ghost use Rattle.elf_format.specs.declared.error.ElfError.{ElfError};
    ghost use Rattle.elf_format.specs.VersionChain.{Headed, headed_from};

    ghost Value = { List (Result Headed ElfError) };

    ghost view = { λ c. headed_from H.head_form c.bytes.now c.position.count c.position.at };
}

impl<'a, H: ChainHead> HeadChain<'a, H> {
    /// Returns the chain of at most `count` records, the first at the first byte.
    pub fn new(bytes: &'a [u8], count: u32) -> Self
        ensures { result ≡ headed_from H.head_form bytes.now count 0 }
    {
        HeadChain {
            bytes,
            position: Position { at: 0, count },
            record: PhantomData,
        }
    }
}

/// Returns the chain that the record at an offset begins.
fn chain_of<'a, H: ChainHead>(bytes: &'a [u8], at: usize, head: &H) -> Chain<'a, H::Item>
    ensures { result ≡ records_from H.head_form.inner bytes.now (get H.head_form.count (H.contents head.now)) (at + get H.head_form.first (H.contents head.now)) }
{
    Chain::after(
        bytes,
        u32::from(head.item_count()),
        at,
        head.first_distance(),
    )
}

impl<'a, H: ChainHead> Iterator for HeadChain<'a, H> {
    type Item = Result<(H, Chain<'a, H::Item>), ElfError>;

    ghost next_gives = { YieldsFirstBy (on_ok (λ item. headed (H.contents item.0) item.1)) (λ s. s) };

    ghost remaining = { item_count (λ s. s) };

    /// Returns the next record with its chain, or `Some(Err(VersionTable))` where the bytes end inside the record. After
    /// an error and after the last record it returns None.
    fn next(&mut self) -> Option<Result<(H, Chain<'a, H::Item>), ElfError>> {
        if self.position.count == 0 {
            return None;
        }
        let at = self.position.at;
        let (item, position) = read_step::<H>(self.bytes, self.position);
        self.position = position;
        match item {
            Ok(head) => {
                let items = chain_of(self.bytes, at, &head);
                Some(Ok((head, items)))
            }
            Err(error) => Some(Err(error)),
        }
    }
}
