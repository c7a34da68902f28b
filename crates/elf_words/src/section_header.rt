//! A section header (gABI, Sections), by the names of its fields. Numbers as wide as an address are returned
//! as 64 bits. Offsets and sizes are in bytes. A test of flags or of the type is a method with a body.

ghost use Rattle.std.specs.Prelude.{◌≡◌, ◌==◌};
ghost use Rattle.elf_format.specs.Flags as flags;
ghost use Rattle.elf_format.specs.SectionType as types;
ghost use Rattle.elf_format.specs.Bytes.{get};
ghost use Rattle.elf_format.specs.Class.{Class};
ghost use Rattle.elf_format.specs.Class as fields;

use crate::record::Record;
use crate::section_flags::{
    SHF_ALLOC, SHF_EXCLUDE, SHF_EXECINSTR, SHF_GNU_RETAIN, SHF_GROUP, SHF_MERGE, SHF_STRINGS,
    SHF_TLS, SHF_WRITE, has_flag,
};
use crate::section_type::{SHT_GROUP, SHT_NOBITS, SHT_NOTE, SHT_NULL, SHT_PROGBITS};

/// A section header, by its fields (gABI, Sections).
pub trait SectionHeaderFields: Record {
    ghost class: { Class };

    /// Returns `sh_name`, the offset of the name in the section that holds the section names.
    fn sh_name(&self) -> u32
        ensures { result ≡ get (fields.sh_name class) (Self.contents self.now) };

    /// Returns `sh_type`, the type of the section.
    fn sh_type(&self) -> u32
        ensures { result ≡ get (fields.sh_type class) (Self.contents self.now) };

    /// Returns `sh_flags`, the flags of the section.
    fn sh_flags(&self) -> u64
        ensures { result ≡ get (fields.sh_flags class) (Self.contents self.now) };

    /// Returns `sh_addr`, the address of the section in memory, 0 for none.
    fn sh_addr(&self) -> u64
        ensures { result ≡ get (fields.sh_addr class) (Self.contents self.now) };

    /// Returns `sh_offset`, the offset of the section in the file.
    fn sh_offset(&self) -> u64
        ensures { result ≡ get (fields.sh_offset class) (Self.contents self.now) };

    /// Returns `sh_size`, the size of the section.
    fn sh_size(&self) -> u64
        ensures { result ≡ get (fields.sh_size class) (Self.contents self.now) };

    /// Returns `sh_link`, a section index. Its meaning depends on `sh_type`.
    fn sh_link(&self) -> u32
        ensures { result ≡ get (fields.sh_link class) (Self.contents self.now) };

    /// Returns `sh_info`, a number. Its meaning depends on `sh_type`.
    fn sh_info(&self) -> u32
        ensures { result ≡ get (fields.sh_info class) (Self.contents self.now) };

    /// Returns `sh_addralign`, the alignment of the section. 0 and 1 mean none.
    fn sh_addralign(&self) -> u64
        ensures { result ≡ get (fields.sh_addralign class) (Self.contents self.now) };

    /// Returns `sh_entsize`, the size of an entry, 0 where the section has no entries of a fixed size.
    fn sh_entsize(&self) -> u64
        ensures { result ≡ get (fields.sh_entsize class) (Self.contents self.now) };

    /// Reports whether `SHF_ALLOC` is set: the section occupies memory.
    fn is_alloc(&self) -> bool
        ensures { result ≡ flags.has_flag (get (fields.sh_flags class) (Self.contents self.now)) flags.shf_alloc }
    {
        has_flag(self.sh_flags(), SHF_ALLOC)
    }

    /// Reports whether `SHF_WRITE` is set: the section is writable.
    fn is_writable(&self) -> bool
        ensures { result ≡ flags.has_flag (get (fields.sh_flags class) (Self.contents self.now)) flags.shf_write }
    {
        has_flag(self.sh_flags(), SHF_WRITE)
    }

    /// Reports whether `SHF_EXECINSTR` is set: the section holds code.
    fn is_executable(&self) -> bool
        ensures { result ≡ flags.has_flag (get (fields.sh_flags class) (Self.contents self.now)) flags.shf_execinstr }
    {
        has_flag(self.sh_flags(), SHF_EXECINSTR)
    }

    /// Reports whether `SHF_TLS` is set: each thread has its own copy of the section.
    fn is_tls(&self) -> bool
        ensures { result ≡ flags.has_flag (get (fields.sh_flags class) (Self.contents self.now)) flags.shf_tls }
    {
        has_flag(self.sh_flags(), SHF_TLS)
    }

    /// Reports whether `SHF_MERGE` is set: equal entries of the section may be merged.
    fn is_merge_section(&self) -> bool
        ensures { result ≡ flags.has_flag (get (fields.sh_flags class) (Self.contents self.now)) flags.shf_merge }
    {
        has_flag(self.sh_flags(), SHF_MERGE)
    }

    /// Reports whether `SHF_STRINGS` is set: the entries are strings, each with a zero byte at its end.
    fn is_strings(&self) -> bool
        ensures { result ≡ flags.has_flag (get (fields.sh_flags class) (Self.contents self.now)) flags.shf_strings }
    {
        has_flag(self.sh_flags(), SHF_STRINGS)
    }

    /// Reports whether `SHF_GNU_RETAIN` is set: the section stays even if nothing refers to it.
    fn should_retain(&self) -> bool
        ensures { result ≡ flags.has_flag (get (fields.sh_flags class) (Self.contents self.now)) flags.shf_gnu_retain }
    {
        has_flag(self.sh_flags(), SHF_GNU_RETAIN)
    }

    /// Reports whether `SHF_EXCLUDE` is set: the section is left out of a program.
    fn should_exclude(&self) -> bool
        ensures { result ≡ flags.has_flag (get (fields.sh_flags class) (Self.contents self.now)) flags.shf_exclude }
    {
        has_flag(self.sh_flags(), SHF_EXCLUDE)
    }

    /// Reports whether `SHF_GROUP` is set: the section is a member of a group.
    fn is_group(&self) -> bool
        ensures { result ≡ flags.has_flag (get (fields.sh_flags class) (Self.contents self.now)) flags.shf_group }
    {
        has_flag(self.sh_flags(), SHF_GROUP)
    }

    /// Reports whether the type is `SHT_GROUP`: the section lists the members of a group.
    fn is_group_header(&self) -> bool
        ensures { result ≡ (get (fields.sh_type class) (Self.contents self.now) == types.sht_group) }
    {
        self.sh_type() == SHT_GROUP
    }

    /// Reports whether the type is `SHT_NOTE`: the section holds notes.
    fn is_note(&self) -> bool
        ensures { result ≡ (get (fields.sh_type class) (Self.contents self.now) == types.sht_note) }
    {
        self.sh_type() == SHT_NOTE
    }

    /// Reports whether the type is `SHT_PROGBITS`: the program defines the meaning of the bytes.
    fn is_prog_bits(&self) -> bool
        ensures { result ≡ (get (fields.sh_type class) (Self.contents self.now) == types.sht_progbits) }
    {
        self.sh_type() == SHT_PROGBITS
    }

    /// Reports whether the type is `SHT_NOBITS`: the section takes no room in the file.
    fn is_no_bits(&self) -> bool
        ensures { result ≡ (get (fields.sh_type class) (Self.contents self.now) == types.sht_nobits) }
    {
        self.sh_type() == SHT_NOBITS
    }

    /// Reports whether the type is `SHT_NULL`: the header is unused.
    fn is_null(&self) -> bool
        ensures { result ≡ (get (fields.sh_type class) (Self.contents self.now) == types.sht_null) }
    {
        self.sh_type() == SHT_NULL
    }
}
