//! Why an object is not listed.

use elf_format::ElfError;
use elf_frames::FrameError;
use elf_view::{GroupError, VersionError};
use std::alloc::AllocError;
use std::io;
use thiserror::Error;

/// The reason why an object is not listed.
#[derive(Debug, Drop, Error)]
pub(crate) enum ListError {
    /// The object, or a view of it, is malformed.
    #[error("{0:?}")]
    Elf(ElfError),
    /// Its `.eh_frame` section is malformed.
    #[error("{0}")]
    Frames(FrameError),
    /// A section group is malformed.
    #[error("{0}")]
    Groups(GroupError),
    /// The version records are malformed.
    #[error("{0}")]
    Versions(VersionError),
    /// Out of memory.
    #[error("out of memory")]
    NoMemory,
    /// The output is not written.
    #[error("the output is not written")]
    Output,
}

impl From<ElfError> for ListError {
    fn from(error: ElfError) -> ListError {
        ListError::Elf(error)
    }
}

impl From<FrameError> for ListError {
    fn from(error: FrameError) -> ListError {
        ListError::Frames(error)
    }
}

impl From<GroupError> for ListError {
    fn from(error: GroupError) -> ListError {
        ListError::Groups(error)
    }
}

impl From<VersionError> for ListError {
    fn from(error: VersionError) -> ListError {
        ListError::Versions(error)
    }
}

impl From<AllocError> for ListError {
    fn from(_error: AllocError) -> ListError {
        ListError::NoMemory
    }
}

impl From<io::Error> for ListError {
    fn from(_error: io::Error) -> ListError {
        ListError::Output
    }
}
