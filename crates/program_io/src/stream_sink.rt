//! A stream as a sink. Its own meaning of what was written is not known, and it is never steady.
//!
//! Writing is generic over the writer. Where the writer's bytes are known, the clauses of its `put` say what it holds then.
ghost use Rattle.std.specs.Prelude.{◌≡◌, ◌≤◌, ◌++◌, ◌∷◌, [], ℕ, List, take, OnOk, OnErr, IsErrOf, IsTrue, None, false};
ghost use Rattle.std.specs.Io.KnownBytes.{Appends};
ghost use Rattle.program_io.specs.Counting.{Rose, faults_after_put};

use crate::trail::Trail;
use crate::{Sink, SinkFault};
use std::io::Write;
use std::marker::Model;

/// A stream, as standard output. Each call writes all of its bytes and ends with a flush. A write or a flush that fails, and a write that
/// takes nothing, is a fault.
#[derive(Drop)]
pub struct StreamSink<W: Write + Drop> {
    out: W,
    puts: Trail,
    faults: u64,
}

impl<W: Write + Drop> Model for StreamSink<W> {
    ghost use Rattle.program_io.specs.Counting.{StreamWritten};

    ghost Value = { StreamWritten };

    ghost view = { λ s. record { contents = W.contents s.out; puts = s.puts.items; faults = s.faults } };
}

impl<W: Write + Drop> StreamSink<W> {
    /// Makes a sink of this stream. The count of faults begins at 0.
    pub fn new(out: W) -> StreamSink<W>
        ensures { result ≡ record { contents = W.contents out; puts = []; faults = 0 } }
    {
        StreamSink {
            out,
            puts: Trail::new(),
            faults: 0,
        }
    }
}

/// Writes all the bytes and flushes.
fn write_whole<W: Write>(out: &mut W, bytes: &[u8]) -> Result<(), SinkFault>
    ensures cause { OnErr result (result ≡ Err SinkFault.Failed) }
    ensures ok { OnOk result (Appends (W.contents out.old) (W.contents out.new) bytes.now) }
    ensures prefix { (n : ℕ) × Appends (W.contents out.old) (W.contents out.new) (take n bytes.now) }
{
    let mut rest = bytes;
    'pieces: while !rest.is_empty() {
        match out.write(rest) {
            Ok(0) => return Err(SinkFault::Failed),
            Ok(count) => rest = &rest[count..],
            Err(_) => return Err(SinkFault::Failed),
        }
    }
    match out.flush() {
        Ok(()) => Ok(()),
        Err(_) => Err(SinkFault::Failed),
    }
}

impl<W: Write + Drop> Sink for StreamSink<W> {
    ghost written = { λ _. None };

    ghost puts = { λ s. s.puts };

    ghost faults = { λ s. s.faults };

    ghost steady = { λ _. false };

    /// Writes all of the bytes to the stream, and flushes it. Where what the writer holds is known, it has then taken all of them, and a
    /// prefix of them after `Failed`.
    fn put(&mut self, bytes: &[u8]) -> Result<(), SinkFault>
        ensures puts { self.new.puts ≡ self.old.puts ++ bytes.now ∷ [] }
        ensures faults { self.old.faults ≤ self.new.faults }
        ensures counted { self.new.faults ≡ faults_after_put result self.old.faults }
        ensures failed { IsErrOf result SinkFault.Failed → Rose self.old.faults self.new.faults }
        ensures no_memory { IsErrOf result SinkFault.NoMemory → ⊥ }

        ensures all { OnOk result (Appends self.old.contents self.new.contents bytes.now) }
        ensures front { (n : ℕ) × Appends self.old.contents self.new.contents (take n bytes.now) }
    {
        self.puts.add(bytes);
        let outcome = write_whole(&mut self.out, bytes);
        if outcome.is_err() {
            self.faults = self.faults.saturating_add(1);
        }
        outcome
    }
}
