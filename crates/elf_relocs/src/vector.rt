//! The records that a CREL decoder still yields, collected.

ghost use Rattle.std.specs.Prelude.{◌≡◌, Ok, map, MatchResult};
ghost use Rattle.elf_format.specs.Crel.{all_ok};
ghost use Rattle.elf_relocs.specs.Fault.{IsCrelFault};

use crate::crel::CrelIterator;
use crate::fault::CrelFault;
use crate::relocation::ElfCrel;
use elf_words::ElfClass;
use std::alloc::Global;

impl CrelIterator<'_> {
    /// Returns the records that `next` still yields: after an error of `next` none. The error is `Crel` with the
    /// first malformed record's error where one of them is malformed, and `NoMemory` where an allocation fails.
    pub fn to_vec<C: ElfClass>(self, alloc: Global) -> Result<Vec<ElfCrel<C>>, CrelFault>
        ensures { MatchResult result (λ v. all_ok self.entry.items ≡ Ok (map (λ x. x.values) v.items)) (λ e. IsCrelFault e (all_ok self.entry.items)) }
    {
        let mut list = Vec::new(alloc);
        for item in self {
            let entry = item?;
            list.push(ElfCrel::new(entry))?;
        }
        Ok(list)
    }
}
