//! Finding the function of an address in an SFrame section, and writing its line.
ghost use Rattle.std.specs.Prelude.{[], ◌∷◌, ◌≡◌, ◌<◌, ◌≤◌, length, Some, IfOk};
ghost use Rattle.sframe_find.specs.Scan.{IsScan};
ghost use Rattle.program_text.specs.Frame.{frame_query_of};
ghost use Rattle.program_text.specs.Query.{for_frame};
ghost use Rattle.derive_program.specs.Calls.{write_faults_after};
ghost use Rattle.derive_program.specs.Reply.{function_found, located_in};
ghost use Rattle.derive_program.specs.steps.Answer.{IsQueryAnswer, IsReplyWriting};

use crate::Ran;
use program_io::{Sink, SinkFault};
use program_text::{FrameCommand, located_text};
use sframe_find::{OrderedFrames, Steps, check_sframe};
use std::alloc::{AllocError, Global};
use std::marker::Brand;
use std::sync::ledger::{Blank, Ledger};

/// Finds the function of an address, with a count of search steps of its own.
fn locate<L: Ledger>(frames: &OrderedFrames<'_>, address: u64, blank: Blank) -> Option<usize>
    requires name { blank.name ≡ L.name }
    requires parts { blank.parts ≡ L.parts }
    requires some { 0 < blank.parts }
    ensures { IsScan frames.now address result }
{
    let mut steps = Steps::<L>::new(blank);
    frames.find(address, &mut steps)
}

/// Returns the line of the function of an index, for an address.
fn line_of(
    alloc: Global,
    frames: &OrderedFrames<'_>,
    address: u64,
    index: usize,
) -> Result<Vec<u8>, AllocError>
    requires { index < length frames.now.functions }
    ensures { IfOk result (λ text. located_in frames.now address index ≡ Some text.items) }
{
    let function = frames.function(index).unwrap();
    let inside = frames.covers(index, address);
    let text = located_text(alloc, index, function.address, function.size, inside)?;
    Ok(text)
}

/// Writes the line of the function of an index, in one call.
fn put_located<S: Sink>(text: &[u8], index: usize, out: &mut S) -> Ran
    ensures steady { S.steady out.new ≡ S.steady out.old }
    ensures faults { S.faults out.old ≤ S.faults out.new }
    ensures counted { S.faults out.new ≡ write_faults_after result (S.faults out.old) }
    ensures answer { IsReplyWriting (function_found index) text.now (record { steady = S.steady out.old; faults = S.faults out.old; faults_now = S.faults out.new; written = S.written out.old; now = S.written out.new; puts = S.puts out.old; puts_now = S.puts out.new }) result }
{
    match out.put(text) {
        Ok(()) => Ran::Located(index),
        Err(SinkFault::Failed) => Ran::WriteFault,
        Err(SinkFault::NoMemory) => Ran::NoMemory,
    }
}

/// Finds the function of the address of a command in the bytes of its SFrame section, and writes its line.
pub(crate) fn locate_read<S: Sink>(
    alloc: Global,
    command: &FrameCommand<'_>,
    section: &[u8],
    out: &mut S,
) -> Ran
    ensures steady { S.steady out.new ≡ S.steady out.old }
    ensures faults { S.faults out.old ≤ S.faults out.new }
    ensures counted { S.faults out.new ≡ write_faults_after result (S.faults out.old) }
    ensures answer { IsQueryAnswer (for_frame (frame_query_of command.now)) (section.now ∷ []) (record { steady = S.steady out.old; faults = S.faults out.old; faults_now = S.faults out.new; written = S.written out.old; now = S.written out.new; puts = S.puts out.old; puts_now = S.puts out.new }) result }
{
    let frames = match check_sframe(section, command.base) {
        Ok(frames) => frames,
        Err(fault) => return Ran::RefusedFrames(fault),
    };
    let Some(index) = locate::<Brand>(&frames, command.address, Blank::new(1)) else {
        return Ran::Absent;
    };
    let Ok(text) = line_of(alloc, &frames, command.address, index) else {
        return Ran::NoMemory;
    };
    put_located(&text, index, out)
}
