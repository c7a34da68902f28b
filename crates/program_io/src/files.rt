//! Files that are read whole, each onto the end of a buffer, within a limit.
//!
//! Their contents are known or not. The names of the calls are listed in order. Two counts say what was done for a result: the reads that
//! failed, and the bytes that were taken. A count stands still at 2^64 - 1.
ghost use Rattle.std.specs.Prelude.{◌≡◌, ◌≤◌, ◌++◌, ◌∷◌, [], Bool, ℕ, List, IsTrue, IsSome, IfSome, IsNone, OnOk, OnErr, IsErrOf};
ghost use Rattle.program_io.specs.Contents.{Contents, file_of, IsRead, IsTooLong};
ghost use Rattle.program_io.specs.Counting.{Rose, faults_after_read};
ghost use Rattle.program_io.specs.declared.files.FileFault.TheVariants.{NoMemory};

use std::alloc::AllocError;
use thiserror::Error;

/// Why a file was not read. The buffer that it was to be read onto is unchanged.
#[derive(Clone, Copy, Debug, PartialEq, Eq, Error)]
pub enum FileFault {
    /// There is no such file, or it could not be opened or read.
    #[error("file not read")]
    Failed,
    /// The file has more bytes than the limit.
    #[error("file longer than its limit")]
    TooLong,
    /// The allocation of memory for its bytes failed.
    #[error("out of memory")]
    NoMemory,
}

impl From<AllocError> for FileFault {
    ghost from_gives = { λ _ e. e ≡ NoMemory };

    fn from(_: AllocError) -> Self {
        FileFault::NoMemory
    }
}

/// Files by name.
pub trait Files {
    /// The names with the bytes of their files, where they are known. No call changes them.
    ghost held: { Self → Contents };

    /// The name of each call of [`Files::read_onto`], whatever it returned, from the first to the last.
    ghost reads: { Self → List (List ℕ) };

    /// How often a read has failed. It never falls.
    ghost faults: { Self → ℕ };

    /// How many bytes were taken from files so far. It never falls.
    ghost taken: { Self → ℕ };

    /// Whether the contents are known and a read fails exactly for a name that is not held. No call changes it.
    ghost steady: { Self → Bool };

    /// Reads the file of this name, whole, onto the end of `out`, where it has at most `limit` bytes.
    ///
    /// `Failed`: the count of faults rises by one, or stands at its last value; no other result changes it. `TooLong`: more than `limit`
    /// bytes were taken, or their count stands at its last value. After each error, `NoMemory` too, `out` is unchanged.
    fn read_onto(&mut self, name: &str, out: &mut Vec<u8>, limit: usize) -> Result<(), FileFault>
        ensures held { held self.new ≡ held self.old }
        ensures steady { steady self.new ≡ steady self.old }
        ensures reads { reads self.new ≡ reads self.old ++ name.now ∷ [] }
        ensures faults { faults self.old ≤ faults self.new }
        ensures counted { faults self.new ≡ faults_after_read result (faults self.old) }
        ensures taken { taken self.old ≤ taken self.new }

        ensures ok { OnOk result (IsRead (held self.old) name.now limit out.old.items out.new.items (taken self.old) (taken self.new)) }
        ensures err { OnErr result (out.new.items ≡ out.old.items) }
        ensures failed { IsErrOf result FileFault.Failed → Rose (faults self.old) (faults self.new) }
        ensures too_long { IsErrOf result FileFault.TooLong → IsTooLong (held self.old) name.now limit (taken self.old) (taken self.new) }

        ensures missing { IsTrue (steady self.old) → IsErrOf result FileFault.Failed → IfSome (held self.old) (λ files. IsNone (file_of files name.now)) }
        ensures fails { IsTrue (steady self.old) → IfSome (held self.old) (λ files. IsNone (file_of files name.now)) → IsErrOf result FileFault.Failed };

    /// Steady files are known.
    ghost tells: { (files : Self) → IsTrue (steady files) → IsSome (held files) };
}
