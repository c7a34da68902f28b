//! A sink in memory, which fails at the calls that are listed.
ghost use Rattle.std.specs.Prelude.{◌≡◌, ◌==◌, ◌↔◌, ◌≤◌, ◌/◌, ◌++◌, ◌∷◌, ℕ, length, take, Some, [], IsTrue, OnOk, OnErr, IsErrOf, false};
ghost use Rattle.program_io.specs.Counting.{counted, Rose, faults_after_put};
ghost use Rattle.program_io.specs.InMemory.{is_listed};

use crate::trail::Trail;
use crate::{Sink, SinkFault};
use std::alloc::Global;
use std::marker::Model;

/// A sink in memory. A call of [`Sink::put`] whose number, from 0, is listed fails, and appends the first half of its bytes, rounded
/// down. The number of a call stands still at 2^64 - 1.
#[derive(Drop)]
pub struct MemorySink {
    bytes: Vec<u8>,
    failing: Vec<u64>,
    puts: Trail,
    calls: u64,
    faults: u64,
}

impl Model for MemorySink {
    ghost use Rattle.program_io.specs.InMemory.{SinkInMemory};

    ghost Value = { SinkInMemory };

    ghost view = { λ m. record { written = m.bytes.items; failing = m.failing.items; puts = m.puts.items; calls = m.calls; faults = m.faults } };
}

impl MemorySink {
    /// Makes an empty sink, where the calls with these numbers fail. Every count begins at 0.
    pub fn new(alloc: Global, failing: Vec<u64>) -> MemorySink
        ensures value { result ≡ record { written = []; failing = failing.items; puts = []; calls = 0; faults = 0 } }
        ensures known { ⟦<MemorySink as Sink>⟧.written result ≡ Some [] }
        ensures steady { IsTrue (⟦<MemorySink as Sink>⟧.steady result) ↔ (failing.items ≡ []) }
    {
        MemorySink {
            bytes: Vec::new(alloc),
            failing,
            puts: Trail::new(),
            calls: 0,
            faults: 0,
        }
    }

    /// Returns all bytes that were written, first to last.
    pub fn written(&self) -> &[u8]
        ensures { result.now ≡ self.now.written }
    {
        &self.bytes
    }
}

impl Sink for MemorySink {
    ghost written = { λ m. Some m.written };

    ghost puts = { λ m. m.puts };

    ghost faults = { λ m. m.faults };

    ghost steady = { λ m. length m.failing == 0 };

    /// Fails exactly at a listed call, out of memory aside, and has then appended the first half of the bytes.
    fn put(&mut self, bytes: &[u8]) -> Result<(), SinkFault>
        ensures failing { self.new.failing ≡ self.old.failing }
        ensures steady { (length self.new.failing == 0) ≡ (length self.old.failing == 0) }
        ensures calls { self.new.calls ≡ counted 1 self.old.calls }
        ensures puts { self.new.puts ≡ self.old.puts ++ bytes.now ∷ [] }
        ensures faults { self.old.faults ≤ self.new.faults }
        ensures counted { self.new.faults ≡ faults_after_put result self.old.faults }

        ensures ok { OnOk result (self.new.written ≡ self.old.written ++ bytes.now) }
        ensures half { IsErrOf result SinkFault.Failed → self.new.written ≡ self.old.written ++ take (length bytes.now / 2) bytes.now }
        ensures prefix { IsErrOf result SinkFault.Failed → (n : ℕ) × (Some self.new.written ≡ Some (self.old.written ++ take n bytes.now)) }
        ensures failed { IsErrOf result SinkFault.Failed → Rose self.old.faults self.new.faults }
        ensures never { IsTrue (length self.old.failing == 0) → IsErrOf result SinkFault.Failed → ⊥ }
        ensures no_memory { IsErrOf result SinkFault.NoMemory → self.new.written ≡ self.old.written }

        ensures only_listed { IsErrOf result SinkFault.Failed → IsTrue (is_listed self.old.failing self.old.calls) }
        ensures listed { OnOk result (is_listed self.old.failing self.old.calls ≡ false) }
    {
        self.puts.add(bytes);
        let number = self.calls;
        self.calls = self.calls.saturating_add(1);
        if self.failing.contains(&number) {
            let half = bytes.len() / 2;
            self.bytes.extend_from_slice(&bytes[..half])?;
            self.faults = self.faults.saturating_add(1);
            return Err(SinkFault::Failed);
        }
        self.bytes.extend_from_slice(bytes)?;
        Ok(())
    }
}
