//! The placed sections of an object, for each of which an index has room in its address area (GDB manual,
//! "Index Section Format").

ghost use Rattle.std.specs.Prelude.{◌≡◌, ◌+◌, ◌<◌, ◌≤◌, length};
ghost use Rattle.std.specs.List.{AllPairs, filter};
ghost use Rattle.gdb_scan.specs.PlacedIn.{ArePlacements, of_object};
ghost use Rattle.gdb_index_format.specs.Placed.{is_counted};

use elf_view::File;
use elf_words::{ElfClass, SHF_ALLOC, SHF_EXECINSTR, SectionHeaderFields, SectionIndex};
use gdb_index_format::Placement;

/// Returns the placements of an object, which follow one another. Requires that placements ascend by object and
/// section, and that their ends fit 64 bits.
pub fn placements_of(object: usize, placements: &[Placement]) -> &[Placement]
    requires { ArePlacements placements.now }
    ensures { result.now ≡ of_object object placements.now }
{
    let start = placements.partition_point(|placement| placement.object < object);
    let end = placements.partition_point(|placement| placement.object <= object);
    &placements[start..end]
}

/// Returns whether a placement counts: it has a size, and its section the flags SHF_ALLOC and SHF_EXECINSTR.
pub fn is_code_placement<C: ElfClass>(file: &File<'_, C>, placement: &Placement) -> bool
    ensures { result ≡ is_counted C.class file.now.bytes placement.now }
{
    if placement.size == 0 {
        return false;
    }
    match file.section(SectionIndex(placement.section)) {
        Ok(header) => {
            let flags = header.sh_flags();
            flags & SHF_ALLOC != 0 && flags & SHF_EXECINSTR != 0
        }
        Err(_) => false,
    }
}

/// Returns how many of an object's placements count.
pub(crate) fn count_placed<C: ElfClass>(file: &File<'_, C>, placements: &[Placement]) -> usize
    ensures { result ≡ length (filter (is_counted C.class file.now.bytes) placements.now) }
{
    let mut count = 0;
    for placement in placements {
        if is_code_placement(file, placement) {
            count += 1;
        }
    }
    count
}
