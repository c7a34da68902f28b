//! A sink that bytes are put into, one call after another.
//!
//! What was written is known or not. The texts of the calls are listed in order. A count says how often a call failed. It stands still at
//! 2^64 - 1.
ghost use Rattle.std.specs.Prelude.{◌≡◌, ◌≤◌, ◌++◌, ◌∷◌, [], Bool, ℕ, List, take, Option, IsTrue, OnOk, IsErrOf, option_map};
ghost use Rattle.program_io.specs.Counting.{Rose, faults_after_put};
ghost use Rattle.program_io.specs.declared.sink.SinkFault.TheVariants.{NoMemory};

use std::alloc::AllocError;
use thiserror::Error;

/// Why bytes were not put.
#[derive(Clone, Copy, Debug, PartialEq, Eq, Error)]
pub enum SinkFault {
    /// The write failed. A prefix of the bytes may have been written.
    #[error("write failed")]
    Failed,
    /// An allocation failed. Nothing was written.
    #[error("out of memory")]
    NoMemory,
}

impl From<AllocError> for SinkFault {
    ghost from_gives = { λ _ e. e ≡ NoMemory };

    fn from(_: AllocError) -> Self {
        SinkFault::NoMemory
    }
}

/// Where bytes are put.
pub trait Sink {
    /// What was written so far, where it is known.
    ghost written: { Self → Option (List ℕ) };

    /// The bytes of each call of [`Sink::put`], whatever it returned, from the first to the last.
    ghost puts: { Self → List (List ℕ) };

    /// How often a call has failed. It never falls.
    ghost faults: { Self → ℕ };

    /// Whether no call fails. No call changes it.
    ghost steady: { Self → Bool };

    /// Appends all of `bytes`.
    ///
    /// `Failed`: a prefix of them was appended, and the count of faults rises by one, or stands at its last value; no other result changes
    /// it. `NoMemory`: nothing was appended.
    fn put(&mut self, bytes: &[u8]) -> Result<(), SinkFault>
        ensures steady { steady self.new ≡ steady self.old }
        ensures puts { puts self.new ≡ puts self.old ++ bytes.now ∷ [] }
        ensures faults { faults self.old ≤ faults self.new }
        ensures counted { faults self.new ≡ faults_after_put result (faults self.old) }

        ensures ok { OnOk result (written self.new ≡ option_map (λ xs. xs ++ bytes.now) (written self.old)) }
        ensures prefix { IsErrOf result SinkFault.Failed → (n : ℕ) × (written self.new ≡ option_map (λ xs. xs ++ take n bytes.now) (written self.old)) }
        ensures failed { IsErrOf result SinkFault.Failed → Rose (faults self.old) (faults self.new) }
        ensures never { IsTrue (steady self.old) → IsErrOf result SinkFault.Failed → ⊥ }
        ensures no_memory { IsErrOf result SinkFault.NoMemory → written self.new ≡ written self.old };
}
