//! Why the files of a command were not read, each with the index of its argument, from 0.
ghost use Rattle.std.specs.Prelude.{◌≡◌};
ghost use Rattle.program_files.specs.declared.error.ReadError.TheVariants.{NoMemory};

use std::alloc::{AllocError, AllocFailed};
use thiserror::Error;

/// Why the files of a command were not read.
#[derive(Clone, Copy, Debug, PartialEq, Eq, Error)]
pub enum ReadError {
    /// The file of the argument at this index was not read.
    #[error("the file of argument {0} was not read")]
    Unread(usize),
    /// The file of the argument at this index is longer than the limit left for it.
    #[error("the file of argument {0} is longer than the limit left for it")]
    TooLong(usize),
    /// The allocation of memory for the bytes of a file failed.
    #[error("out of memory")]
    NoMemory,
}

impl From<AllocError> for ReadError {
    ghost from_gives = { λ _ e. e ≡ NoMemory };

    fn from(_: AllocError) -> Self {
        ReadError::NoMemory
    }
}

impl<T: Drop> From<AllocFailed<T>> for ReadError {
    ghost from_gives = { λ _ e. e ≡ NoMemory };

    fn from(_: AllocFailed<T>) -> Self {
        ReadError::NoMemory
    }
}
