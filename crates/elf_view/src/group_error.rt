//! Why the section groups of a file are not returned (gABI, Section Groups): one of them is malformed, or an
//! allocation failed.

use elf_format::{ElfError, SectionIndex};
use std::alloc::{AllocError, AllocFailed};
use thiserror::Error;

/// Why the section groups of a file are not returned. `group` is the index of the group's section.
#[derive(Clone, Copy, Debug, PartialEq, Eq, Error)]
pub enum GroupError {
    /// The group is not linked to the file's symbol table.
    #[error("the group at {group:?} is not linked to the symbol table")]
    OtherSymbolTable {
        /// The index of the group's section.
        group: SectionIndex,
    },
    /// The group's signature is no symbol, or the name of that symbol is unreadable.
    #[error("the group at {group:?} has no readable signature")]
    BadSignature {
        /// The index of the group's section.
        group: SectionIndex,
    },
    /// The group has no flags.
    #[error("the group at {group:?} is empty")]
    EmptyGroup {
        /// The index of the group's section.
        group: SectionIndex,
    },
    /// The flags are neither 0 nor GRP_COMDAT.
    #[error("the group at {group:?} has unsupported flags {flags}")]
    UnsupportedFlags {
        /// The index of the group's section.
        group: SectionIndex,
        /// The flags.
        flags: u32,
    },
    /// The member is section 0, missing, the group itself or a group.
    #[error("{member:?} is no valid member of the group at {group:?}")]
    InvalidMember {
        /// The index of the group's section.
        group: SectionIndex,
        /// The index of the member.
        member: SectionIndex,
    },
    /// The flags of the member's section header lack SHF_GROUP.
    #[error("{member:?} of the group at {group:?} lacks SHF_GROUP")]
    MemberLacksFlag {
        /// The index of the group's section.
        group: SectionIndex,
        /// The index of the member.
        member: SectionIndex,
    },
    /// A rule on ELF files is broken: `SectionData`, the bytes of a group are out of the file's range or are no whole
    /// words.
    #[error("the bytes of a group are not read: {0:?}")]
    Elf(ElfError),
    /// An allocation failed.
    #[error("out of memory")]
    NoMemory,
}

impl From<AllocError> for GroupError {
    ghost use Rattle.std.specs.Prelude.{◌≡◌};
    ghost use Rattle.elf_view.specs.declared.group_error.GroupError.TheVariants as group;

    ghost from_gives = { λ _ e. e ≡ group.NoMemory };

    fn from(_: AllocError) -> Self {
        GroupError::NoMemory
    }
}

impl<T: Drop> From<AllocFailed<T>> for GroupError {
    ghost use Rattle.std.specs.Prelude.{◌≡◌};
    ghost use Rattle.elf_view.specs.declared.group_error.GroupError.TheVariants as group;

    ghost from_gives = { λ _ e. e ≡ group.NoMemory };

    fn from(_: AllocFailed<T>) -> Self {
        GroupError::NoMemory
    }
}
