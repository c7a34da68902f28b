//! Iterator over the relocations of a sequence. Contracts see it as the relocations that it still yields, each
//! with the form of its list.

ghost use Rattle.std.specs.Prelude.{◌≡◌, map};
ghost use Rattle.std.specs.Iterator.{YieldsFirstBy, item_count};
ghost use Rattle.elf_format.specs.Rela.{rela_entries};
ghost use Rattle.elf_relocs.specs.Lists.{formed, rela_form, crel_form};

use crate::rel::Rel;
use crate::relocation::{ElfCrel, ElfRela};
use elf_words::{ElfClass, Records};
use std::marker::Model;

/// The relocations of a sequence in order: its RELA records, or those of its list in CREL.
#[derive(Drop)]
pub struct RelIter<'a, C: ElfClass> {
    records: Records<'a, C::Rela>,
    list: &'a [ElfCrel<C>],
}

impl<'a, C: ElfClass> Model for RelIter<'a, C> {
    ghost use Rattle.std.specs.Prelude.{List, map, ◌++◌};
    ghost use Rattle.elf_format.specs.Rela.{rela_values};
    ghost use Rattle.elf_relocs.specs.Lists.{FormedRelocation, formed, rela_form, crel_form};

    ghost Value = { List FormedRelocation };

    ghost view = { λ r. map (formed rela_form) (map (rela_values C.class) r.records) ++ map (formed crel_form) (map (λ x. x.values) r.list.now) };
}

impl<'a, C: ElfClass> RelIter<'a, C> {
    /// Iterates over the whole RELA records of some bytes.
    pub(crate) fn of_records(bytes: &'a [u8]) -> Self
        ensures { result ≡ map (formed rela_form) (rela_entries C.class bytes.now) }
    {
        RelIter {
            records: Records::whole(bytes),
            list: &[],
        }
    }

    /// Iterates over the relocations of a decoded list in CREL.
    pub(crate) fn of_list(list: &'a [ElfCrel<C>]) -> Self
        ensures { result ≡ map (formed crel_form) (map (λ x. x.values) list.now) }
    {
        RelIter {
            records: Records::whole(&[]),
            list,
        }
    }
}

impl<'a, C: ElfClass> Iterator for RelIter<'a, C> {
    type Item = Rel<C>;

    ghost use Rattle.elf_relocs.specs.Lists.{formed_rel};

    ghost next_gives = { YieldsFirstBy formed_rel (λ s. s) };

    ghost remaining = { item_count (λ s. s) };

    /// Returns the next relocation: `Rel::Rela` of a RELA record, `Rel::Crel` of a list in CREL.
    fn next(&mut self) -> Option<Rel<C>> {
        if let Some(rela) = self.records.next() {
            return Some(Rel::Rela(ElfRela::new(rela)));
        }
        let [first, rest @ ..] = self.list else {
            return None;
        };
        self.list = rest;
        Some(Rel::Crel(*first))
    }
}
