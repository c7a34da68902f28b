//! What the program answers, with the exit status of each answer.
ghost use Rattle.std.specs.Prelude.{◌≡◌};
ghost use Rattle.derive_program.specs.Status.{status_of};

use derivation::DeriveError;
use gdb_tables::BadIndex;
use index_browser::BrowseError;
use index_merge::MergeError;
use program_files::ReadError;
use program_text::Summary;
use sframe_find::FindFault;
use sframe_format::SframeOutcome;

/// The tables that were derived.
#[derive(Debug, Drop)]
pub struct Tables {
    /// The bytes of the `.gdb_index` section, none where there is no unit.
    pub index: Vec<u8>,
    /// The bytes of the SFrame section.
    pub sframe: Vec<u8>,
    /// What was done to the SFrame section.
    pub outcome: SframeOutcome,
}

/// The CU vector that was found.
#[derive(Debug, Drop)]
pub struct FindAnswer {
    /// The elements of the CU vector, in ascending order in an index that is well formed.
    pub words: Vec<u32>,
}

/// What the program answers. Indexes of arguments count from 0, without the program's name; lines of the layout count from 1.
#[derive(Debug, Drop)]
pub enum Ran {
    /// The tables were derived, and their report was written.
    Done(Tables),
    /// The name was found, and its CU vector was written.
    Found(FindAnswer),
    /// The function of this index is the last whose address is at most the one that was asked for, and its line was written.
    Located(usize),
    /// This many names of the index begin with the prefix, and its units, its address entries and these names were written.
    Listed(usize),
    /// The index does not hold the name, or each function of the SFrame section is above the address.
    Absent,
    /// The indexes were merged, and the merged index, of so many bytes, was written.
    Merged(usize),
    /// The tables of the input of a number were derived, and their summary was written.
    Shown(Summary, Tables),
    /// The input has no tables.
    Refused(DeriveError),
    /// The index is malformed.
    RefusedIndex(BadIndex),
    /// The SFrame section cannot be searched.
    RefusedFrames(FindFault),
    /// The index cannot be browsed.
    RefusedBrowse(BrowseError),
    /// The indexes are not merged.
    RefusedMerge(MergeError),
    /// The argument at this index is wrong or missing, and none before it is: a usage error.
    BadWords(usize),
    /// This line of the layout is malformed or a second base, and none before it is.
    BadLayout(u64),
    /// The file of the argument at this index was not read.
    ReadFault(usize),
    /// The file of the argument at this index is longer than the limit left for it.
    FileTooLong(usize),
    /// The text of the command was not written whole.
    WriteFault,
    /// An allocation failed.
    NoMemory,
}

impl From<ReadError> for Ran {
    ghost use Rattle.derive_program.specs.steps.Answer.{ran_of_reading};

    ghost from_gives = { λ error ran. ran ≡ ran_of_reading error };

    fn from(error: ReadError) -> Self {
        match error {
            ReadError::Unread(index) => Ran::ReadFault(index),
            ReadError::TooLong(index) => Ran::FileTooLong(index),
            ReadError::NoMemory => Ran::NoMemory,
        }
    }
}

impl From<DeriveError> for Ran {
    ghost use Rattle.derive_program.specs.steps.Answer.{IsRefusalOf};

    ghost from_gives = { λ error ran. IsRefusalOf error ran };

    fn from(error: DeriveError) -> Self {
        match error {
            DeriveError::NoMemory => Ran::NoMemory,
            other => Ran::Refused(other),
        }
    }
}

impl From<MergeError> for Ran {
    ghost use Rattle.derive_program.specs.steps.Answer.{IsMergeRefusal};

    ghost from_gives = { λ error ran. IsMergeRefusal error ran };

    fn from(error: MergeError) -> Self {
        match error {
            MergeError::NoMemory => Ran::NoMemory,
            other => Ran::RefusedMerge(other),
        }
    }
}

impl Ran {
    /// Returns the exit status of the program.
    pub fn status(&self) -> u8
        ensures { result ≡ status_of self.now }
    {
        match self {
            Ran::Done(_)
            | Ran::Found(_)
            | Ran::Located(_)
            | Ran::Listed(_)
            | Ran::Merged(_)
            | Ran::Shown(_, _) => 0,
            Ran::Refused(_)
            | Ran::RefusedIndex(_)
            | Ran::RefusedFrames(_)
            | Ran::RefusedBrowse(_)
            | Ran::RefusedMerge(_) => 1,
            Ran::BadWords(_) => 2,
            Ran::ReadFault(_) => 3,
            Ran::WriteFault => 4,
            Ran::BadLayout(_) => 5,
            Ran::NoMemory => 6,
            Ran::FileTooLong(_) => 7,
            Ran::Absent => 8,
        }
    }
}
