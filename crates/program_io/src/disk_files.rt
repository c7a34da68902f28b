//! The system's files. Their contents are not known to a contract, and they are never steady.
//!
//! Reading is generic over the reader, and exact where the reader's bytes are known. Only the opened file itself is not.
ghost use Rattle.std.specs.Prelude.{◌≡◌, ◌≤◌, ◌+◌, ◌-◌, ◌++◌, [], take, drop, length, vec_len, OnOk, OnErr, IsErrOf, None, false};
ghost use Rattle.std.specs.Io.KnownBytes.{Consumes, IsAtEnd};
ghost use Rattle.program_io.specs.Counting.{RoseBy};
ghost use Rattle.program_io.specs.Reading.{IsReadToEnd, IsLeftTooLong};
ghost use Rattle.std.proofs.Common.{rules};

use crate::trail::Trail;
use crate::{FileFault, Files};
use std::alloc::AllocError;
use std::fs;
use std::io::Read;
use std::marker::Model;

/// How many bytes are read at a time.
pub const PIECE: usize = 16 * 1024;

/// How many bytes are copied at a time: few enough for vector instructions. Longer copies are left to the processor's repeated move, of which a
/// count of instructions counts each step.
const RUN: usize = 4 * 1024;

/// Returns the bytes of the first run, and those after it.
fn split_run(bytes: &[u8]) -> (&[u8], &[u8])
    ensures run { result.0.now ≡ take RUN bytes.now }
    ensures after { result.1.now ≡ drop RUN bytes.now }
{
    if bytes.len() < RUN {
        (bytes, &[])
    } else {
        bytes.split_at(RUN)
    }
}

/// Appends bytes, run by run. After an error `out` has some of them.
fn append_runs(out: &mut Vec<u8>, bytes: &[u8]) -> Result<(), AllocError>
    ensures ok { OnOk result (out.new.items ≡ out.old.items ++ bytes.now) }
    ensures kept { take (vec_len out.old) out.new.items ≡ out.old.items }
    ensures longer { vec_len out.old ≤ vec_len out.new }
    ensures most { vec_len out.new ≤ vec_len out.old + length bytes.now }
{
    let mut rest = bytes;
    'runs: while !rest.is_empty() {
        let (run, after) = split_run(rest);
        out.extend_from_slice(run)?;
        rest = after;
    }
    Ok(())
}

/// Reads what a reader has left onto the end of `out`, piece by piece, and counts the bytes that it takes. After an error `out` has some of
/// them.
fn append_rest<R: Read>(
    reader: &mut R,
    piece: &mut [u8; PIECE],
    out: &mut Vec<u8>,
    limit: usize,
    taken: &mut u64,
) -> Result<(), FileFault>
    ensures kept { take (vec_len out.old) out.new.items ≡ out.old.items }
    ensures longer { vec_len out.old ≤ vec_len out.new }
    ensures ok { OnOk result (vec_len out.new ≤ vec_len out.old + limit) }
    ensures took { RoseBy (vec_len out.new - vec_len out.old) taken.old taken.new }
    ensures consumed { OnOk result (Consumes (R.remaining reader.old) (R.remaining reader.new) (drop (vec_len out.old) out.new.items)) }
    ensures end { OnOk result (IsAtEnd (R.remaining reader.new)) }
    ensures too_long { IsErrOf result FileFault.TooLong → IsLeftTooLong (R.remaining reader.old) limit taken.old taken.new }
    ensures later { taken.old ≤ taken.new }
{
    let mut got = 0usize;
    'pieces: loop {
        let count = match reader.read(piece) {
            Ok(count) => count,
            Err(_) => return Err(FileFault::Failed),
        };
        if count == 0 {
            return Ok(());
        }
        *taken = taken.saturating_add(count as u64);
        if count > limit - got {
            return Err(FileFault::TooLong);
        }
        append_runs(out, &piece[..count])?;
        got += count;
    }
}

/// Reads a reader to its end onto the end of `out`, where it has at most `limit` bytes left, and counts in `taken` the bytes that it takes.
///
/// `Failed`: a read failed. `TooLong`: the reader had more than `limit` bytes left. After each error, `NoMemory` too, `out` is unchanged.
/// The count stands still at 2^64 - 1. `piece` is room for the bytes that are read at a time: what it held does not matter, and is lost.
pub fn read_to_limit<R: Read>(
    reader: &mut R,
    piece: &mut [u8; PIECE],
    out: &mut Vec<u8>,
    limit: usize,
    taken: &mut u64,
) -> Result<(), FileFault>
    ensures ok { OnOk result (IsReadToEnd (R.remaining reader.old) (R.remaining reader.new) limit out.old.items out.new.items taken.old taken.new) }
    ensures err { OnErr result (out.new.items ≡ out.old.items) }
    ensures too_long { IsErrOf result FileFault.TooLong → IsLeftTooLong (R.remaining reader.old) limit taken.old taken.new }
    ensures later { taken.old ≤ taken.new }
{
    let start = out.len();
    match append_rest(reader, piece, out, limit, taken) {
        Ok(()) => Ok(()),
        Err(fault) => {
            out.truncate(start);
            Err(fault)
        }
    }
}

/// The system's files, by their paths. A file that cannot be opened or read is a fault.
#[derive(Drop)]
pub struct DiskFiles<'r, R: std::rt::Files> {
    rt: &'r R,
    reads: Trail,
    faults: u64,
    taken: u64,
    piece: [u8; PIECE],
}

impl<'r, R: std::rt::Files> Model for DiskFiles<'r, R> {
    ghost use Rattle.program_io.specs.Counting.{FilesUnknown};

    ghost Value = { FilesUnknown };

    ghost view = { λ d. record { reads = d.reads.items; faults = d.faults; taken = d.taken } };
}

impl<'r, R: std::rt::Files> DiskFiles<'r, R> {
    /// Makes the files of this runtime. Every count begins at 0.
    pub fn new(rt: &'r R) -> DiskFiles<'r, R>
        ensures { result ≡ record { reads = []; faults = 0; taken = 0 } }
    {
        DiskFiles {
            rt,
            reads: Trail::new(),
            faults: 0,
            taken: 0,
            piece: [0; PIECE],
        }
    }
}

impl<'r, R: std::rt::Files> Files for DiskFiles<'r, R> {
    ghost held = { λ _. None };

    ghost reads = { λ d. d.reads };

    ghost faults = { λ d. d.faults };

    ghost taken = { λ d. d.taken };

    ghost steady = { λ _. false };

    ghost tells = { Prim.search rules };

    fn read_onto(&mut self, name: &str, out: &mut Vec<u8>, limit: usize) -> Result<(), FileFault> {
        self.reads.add(name.as_bytes());
        let Ok(mut file) = fs::open(self.rt, name) else {
            self.faults = self.faults.saturating_add(1);
            return Err(FileFault::Failed);
        };
        let outcome = read_to_limit(&mut file, &mut self.piece, out, limit, &mut self.taken);
        if outcome == Err(FileFault::Failed) {
            self.faults = self.faults.saturating_add(1);
        }
        outcome
    }
}
