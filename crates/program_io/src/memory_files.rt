//! Files in memory, which fail for a missing name and at the calls that are listed.
ghost use Rattle.std.specs.Prelude.{◌≡◌, ◌==◌, ◌↔◌, ◌≤◌, ◌++◌, ◌∷◌, length, Some, [], IsTrue, IsSome, IsNone, IfSome, OnOk, OnErr, IsErrOf, MatchOption, option_map};
ghost use Rattle.program_io.specs.Contents.{file_of, IsRead, IsTooLong};
ghost use Rattle.program_io.specs.Counting.{counted, Rose, faults_after_read};
ghost use Rattle.program_io.specs.InMemory.{files_of, next_fault};
ghost use Rattle.std.proofs.Common.{rules};

use crate::trail::Trail;
use crate::{FileFault, Files};
use std::marker::Model;

/// Files in memory: a name has the bytes of the first pair with it. A call of [`Files::read_onto`] whose number, from 0, is listed
/// fails. The number of a call stands still at 2^64 - 1.
#[derive(Drop)]
pub struct MemoryFiles {
    held: Vec<(String, Vec<u8>)>,
    failing: Vec<u64>,
    reads: Trail,
    calls: u64,
    faults: u64,
    taken: u64,
}

impl Model for MemoryFiles {
    ghost use Rattle.program_io.specs.InMemory.{FilesInMemory, files_of};

    ghost Value = { FilesInMemory };

    ghost view = { λ m. record { files = files_of m.held.items; failing = m.failing.items; reads = m.reads.items; calls = m.calls; faults = m.faults; taken = m.taken } };
}

impl MemoryFiles {
    /// Makes files of these names and bytes, where the calls with these numbers fail. Every count begins at 0.
    pub fn new(held: Vec<(String, Vec<u8>)>, failing: Vec<u64>) -> MemoryFiles
        ensures value { result ≡ record { files = files_of held.items; failing = failing.items; reads = []; calls = 0; faults = 0; taken = 0 } }
        ensures known { ⟦<MemoryFiles as Files>⟧.held result ≡ Some (files_of held.items) }
        ensures steady { IsTrue (⟦<MemoryFiles as Files>⟧.steady result) ↔ (failing.items ≡ []) }
    {
        MemoryFiles {
            held,
            failing,
            reads: Trail::new(),
            calls: 0,
            faults: 0,
            taken: 0,
        }
    }
}

/// Returns the bytes of the first file of a name.
fn find<'a>(files: &'a [(String, Vec<u8>)], name: &str) -> Option<&'a [u8]>
    ensures { option_map (λ bytes. bytes.now) result ≡ file_of (files_of files.now) name.now }
{
    let mut rest = files;
    while let [(held, bytes), after @ ..] = rest {
        if held.as_str() == name {
            return Some(bytes.as_slice());
        }
        rest = after;
    }
    None
}

impl Files for MemoryFiles {
    ghost held = { λ m. Some m.files };

    ghost reads = { λ m. m.reads };

    ghost faults = { λ m. m.faults };

    ghost taken = { λ m. m.taken };

    ghost steady = { λ m. length m.failing == 0 };

    ghost tells = { Prim.search rules };

    /// Fails exactly for a missing name or a listed call, and finds a file too long exactly where it does not fail and the file has more
    /// bytes than `limit`.
    fn read_onto(&mut self, name: &str, out: &mut Vec<u8>, limit: usize) -> Result<(), FileFault>
        ensures held { self.new.files ≡ self.old.files }
        ensures failing { self.new.failing ≡ self.old.failing }
        ensures steady { (length self.new.failing == 0) ≡ (length self.old.failing == 0) }
        ensures calls { self.new.calls ≡ counted 1 self.old.calls }
        ensures reads { self.new.reads ≡ self.old.reads ++ name.now ∷ [] }
        ensures faults { self.old.faults ≤ self.new.faults }
        ensures counted { self.new.faults ≡ faults_after_read result self.old.faults }
        ensures taken { self.old.taken ≤ self.new.taken }

        ensures ok { OnOk result (IsRead (Some self.old.files) name.now limit out.old.items out.new.items self.old.taken self.new.taken) }
        ensures err { OnErr result (out.new.items ≡ out.old.items) }
        ensures failed { IsErrOf result FileFault.Failed → Rose self.old.faults self.new.faults }
        ensures too_long { IsErrOf result FileFault.TooLong → IsTooLong (Some self.old.files) name.now limit self.old.taken self.new.taken }
        ensures missing { IsTrue (length self.old.failing == 0) → IsErrOf result FileFault.Failed → IsNone (file_of self.old.files name.now) }
        ensures fails { IsTrue (length self.old.failing == 0) → IsNone (file_of self.old.files name.now) → IsErrOf result FileFault.Failed }

        ensures exactly { MatchOption (next_fault self.old name.now limit) (OnErr result (result ≡ Err FileFault.NoMemory)) (λ fault. result ≡ Err fault) }
    {
        self.reads.add(name.as_bytes());
        let number = self.calls;
        self.calls = self.calls.saturating_add(1);
        if self.failing.contains(&number) {
            self.faults = self.faults.saturating_add(1);
            return Err(FileFault::Failed);
        }
        let Some(bytes) = find(&self.held, name) else {
            self.faults = self.faults.saturating_add(1);
            return Err(FileFault::Failed);
        };
        self.taken = self.taken.saturating_add(bytes.len() as u64);
        if bytes.len() > limit {
            return Err(FileFault::TooLong);
        }
        out.extend_from_slice(bytes)?;
        Ok(())
    }
}
