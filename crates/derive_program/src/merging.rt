//! Merging two indexes, and writing the merged index.
ghost use Rattle.std.specs.Prelude.{◌≡◌, ◌≤◌, ◌∷◌, [], length};
ghost use Rattle.program_text.specs.Merge.{merge_of, merged_text};
ghost use Rattle.program_text.specs.Query.{for_merge};
ghost use Rattle.derive_program.specs.Calls.{write_faults_after};
ghost use Rattle.derive_program.specs.Reply.{index_merged};
ghost use Rattle.derive_program.specs.steps.Answer.{IsQueryAnswer, IsReplyWriting};

use crate::Ran;
use gdb_index_format::IndexVersion;
use index_browser::check_index;
use index_merge::merge_indexes;
use program_io::{Sink, SinkFault};
use program_text::{MergeCommand, index_text};
use std::alloc::Global;

/// Writes the merged index, in one call.
fn put_merged<S: Sink>(alloc: Global, index: &[u8], out: &mut S) -> Ran
    ensures steady { S.steady out.new ≡ S.steady out.old }
    ensures faults { S.faults out.old ≤ S.faults out.new }
    ensures counted { S.faults out.new ≡ write_faults_after result (S.faults out.old) }
    ensures answer { IsReplyWriting (index_merged (length index.now)) (merged_text index.now) (record { steady = S.steady out.old; faults = S.faults out.old; faults_now = S.faults out.new; written = S.written out.old; now = S.written out.new; puts = S.puts out.old; puts_now = S.puts out.new }) result }
{
    let Ok(text) = index_text(alloc, index) else {
        return Ran::NoMemory;
    };
    match out.put(&text) {
        Ok(()) => Ran::Merged(index.len()),
        Err(SinkFault::Failed) => Ran::WriteFault,
        Err(SinkFault::NoMemory) => Ran::NoMemory,
    }
}

/// Checks the bytes of the two indexes of a command, and writes the merged index, of version 9.
pub(crate) fn merge_read<S: Sink>(
    alloc: Global,
    command: &MergeCommand<'_>,
    first: &[u8],
    second: &[u8],
    out: &mut S,
) -> Ran
    ensures steady { S.steady out.new ≡ S.steady out.old }
    ensures faults { S.faults out.old ≤ S.faults out.new }
    ensures counted { S.faults out.new ≡ write_faults_after result (S.faults out.old) }
    ensures answer { IsQueryAnswer (for_merge (merge_of command.now)) (first.now ∷ second.now ∷ []) (record { steady = S.steady out.old; faults = S.faults out.old; faults_now = S.faults out.new; written = S.written out.old; now = S.written out.new; puts = S.puts out.old; puts_now = S.puts out.new }) result }
{
    let one = match check_index(first) {
        Ok(index) => index,
        Err(fault) => return Ran::RefusedBrowse(fault),
    };
    let two = match check_index(second) {
        Ok(index) => index,
        Err(fault) => return Ran::RefusedBrowse(fault),
    };
    match merge_indexes(alloc, &one, &two, command.offset, IndexVersion::V9) {
        Ok(merged) => put_merged(alloc, &merged, out),
        Err(error) => Ran::from(error),
    }
}
