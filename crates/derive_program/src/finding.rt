//! Looking up a name in an index, and writing its CU vector.
ghost use Rattle.std.specs.Prelude.{[], ◌∷◌, ◌≡◌, ◌≤◌, ◌<◌, IfOk, OnOk, MatchOption};
ghost use Rattle.gdb_index_format.specs.Probe.{probe};
ghost use Rattle.program_text.specs.Find.{find_of, found_of};
ghost use Rattle.program_text.specs.Query.{for_find};
ghost use Rattle.derive_program.specs.Calls.{write_faults_after};
ghost use Rattle.derive_program.specs.Reply.{elements_found};
ghost use Rattle.derive_program.specs.steps.Answer.{IsQueryAnswer, IsReplyWriting};

use crate::{FindAnswer, Ran};
use gdb_tables::{BadIndex, CuVector, Steps, lookup};
use program_io::{Sink, SinkFault};
use program_text::{FindCommand, found_text};
use std::alloc::{AllocError, Global};
use std::marker::Brand;
use std::sync::ledger::{Blank, Ledger};

/// Looks up a name, with a count of probe steps of its own.
pub(crate) fn look_up<'a, L: Ledger>(
    index: &'a [u8],
    name: &[u8],
    blank: Blank,
) -> Result<Option<CuVector<'a>>, BadIndex>
    requires name { blank.name ≡ L.name }
    requires parts { blank.parts ≡ L.parts }
    requires some { 0 < blank.parts }
    ensures { result ≡ (probe index.now name.now).answer }
{
    let mut steps = Steps::<L>::new(blank);
    lookup(index, name, &mut steps)
}

/// Reads the elements of a CU vector into a buffer, in place of what it holds.
pub(crate) fn read_elements(
    elements: &mut Vec<u32>,
    vector: &CuVector<'_>,
) -> Result<(), AllocError>
    ensures { OnOk result (elements.new.items ≡ vector.now) }
{
    elements.clear();
    'elements: while let Some(element) = vector.get(elements.len()) {
        elements.push(element)?;
    }
    Ok(())
}

/// Returns the elements of a CU vector.
fn elements_of(alloc: Global, vector: &CuVector<'_>) -> Result<Vec<u32>, AllocError>
    ensures { IfOk result (λ elements. elements.items ≡ vector.now) }
{
    let mut elements = Vec::with_capacity(alloc, vector.len())?;
    read_elements(&mut elements, vector)?;
    Ok(elements)
}

/// Writes the text of a CU vector that was found, in one call.
fn write_found<S: Sink>(alloc: Global, vector: &CuVector<'_>, out: &mut S) -> Ran
    ensures steady { S.steady out.new ≡ S.steady out.old }
    ensures faults { S.faults out.old ≤ S.faults out.new }
    ensures counted { S.faults out.new ≡ write_faults_after result (S.faults out.old) }
    ensures answer { IsReplyWriting (elements_found vector.now) (found_of vector.now) (record { steady = S.steady out.old; faults = S.faults out.old; faults_now = S.faults out.new; written = S.written out.old; now = S.written out.new; puts = S.puts out.old; puts_now = S.puts out.new }) result }
{
    let Ok(words) = elements_of(alloc, vector) else {
        return Ran::NoMemory;
    };
    let Ok(text) = found_text(alloc, &words) else {
        return Ran::NoMemory;
    };
    match out.put(&text) {
        Ok(()) => Ran::Found(FindAnswer { words }),
        Err(SinkFault::Failed) => Ran::WriteFault,
        Err(SinkFault::NoMemory) => Ran::NoMemory,
    }
}

/// Looks up the name of a command in the bytes of its index, and writes its CU vector.
pub(crate) fn find_read<S: Sink>(
    alloc: Global,
    command: &FindCommand<'_>,
    index: &[u8],
    out: &mut S,
) -> Ran
    ensures steady { S.steady out.new ≡ S.steady out.old }
    ensures faults { S.faults out.old ≤ S.faults out.new }
    ensures counted { S.faults out.new ≡ write_faults_after result (S.faults out.old) }
    ensures answer { IsQueryAnswer (for_find (find_of command.now)) (index.now ∷ []) (record { steady = S.steady out.old; faults = S.faults out.old; faults_now = S.faults out.new; written = S.written out.old; now = S.written out.new; puts = S.puts out.old; puts_now = S.puts out.new }) result }
{
    let Ok(name) = hex::decode(alloc, command.name) else {
        return Ran::NoMemory;
    };
    match look_up::<Brand>(index, &name, Blank::new(1)) {
        Ok(Some(vector)) => write_found(alloc, &vector, out),
        Ok(None) => Ran::Absent,
        Err(fault) => Ran::RefusedIndex(fault),
    }
}
