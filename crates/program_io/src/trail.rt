//! A list of byte strings that only clauses read. It takes no bytes, and its methods do nothing when they run.
//!
//! `Files` and `Sink` keep one of them: the names that were read, the texts that were put. Nothing but the clauses here ties its value to
//! the calls, so it says something of code that is generic over these traits.
ghost use Rattle.std.specs.Prelude.{◌≡◌, ℕ, List, [], ◌∷◌, ◌++◌};
ghost use Rattle.std.specs.Borrow.{ftrue};

use std::marker::{Model, PhantomData};

/// A list of byte strings that only clauses read.
#[derive(Drop)]
pub(crate) struct Trail {
    marker: PhantomData<u8>,
    pub ghost items: { List (List ℕ) },
}

impl Model for Trail {
    ghost also_owns = { λ _. ftrue };
}

impl Trail {
    /// The empty list.
    pub(crate) fn new() -> Trail
        ensures { result.items ≡ [] }
    {
        Trail {
            marker: PhantomData,
        }
    }

    /// Adds a byte string at the end.
    pub(crate) fn add(&mut self, _bytes: &[u8])
        ensures { self.new.items ≡ self.old.items ++ _bytes.now ∷ [] }
    {}
}
