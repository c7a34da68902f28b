//! Deriving the tables of the input of a number, and writing their summary.
ghost use Rattle.std.specs.Prelude.{◌≡◌, ◌≤◌, codes};
ghost use Rattle.gdb_index_format.specs.Probe.{probe};
ghost use Rattle.derive_program.specs.Calls.{write_faults_after};
ghost use Rattle.derive_program.specs.Shown.{elements_probed, summary_of};
ghost use Rattle.derive_program.specs.steps.Answer.{IsDemoAnswer, IsSummaryWriting};

use crate::finding::look_up;
use crate::{Ran, Tables};
use demo_input::demo_input;
use derivation::{Derived, derive_tables};
use elf_format::Architecture;
use gdb_index_format::IndexVersion;
use program_io::{Sink, SinkFault};
use program_text::{Summary, summary_text};
use std::alloc::Global;
use std::marker::Brand;
use std::sync::ledger::Blank;

/// Returns how many elements the CU vector of `common` has in an index.
fn common_elements(index: &[u8]) -> usize
    ensures { result ≡ elements_probed (probe index.now (codes "common")).answer }
{
    match look_up::<Brand>(index, b"common", Blank::new(1)) {
        Ok(Some(vector)) => vector.len(),
        Ok(None) => 0,
        Err(_) => 0,
    }
}

/// Returns the summary of the tables of so many objects.
fn summarize(count: usize, derived: &Derived<'_>) -> Summary
    ensures { result ≡ summary_of count derived.now.units.items derived.now.names.items derived.now.index.items derived.now.outcome }
{
    Summary {
        objects: count as u64,
        units: derived.units.len() as u64,
        names: derived.names.len() as u64,
        index: derived.index.len() as u64,
        common: common_elements(&derived.index) as u64,
        outcome: derived.outcome,
    }
}

/// Writes the summary of tables, in one call.
fn write_summary<S: Sink>(alloc: Global, summary: Summary, derived: Derived<'_>, out: &mut S) -> Ran
    ensures steady { S.steady out.new ≡ S.steady out.old }
    ensures faults { S.faults out.old ≤ S.faults out.new }
    ensures counted { S.faults out.new ≡ write_faults_after result (S.faults out.old) }
    ensures answer { IsSummaryWriting summary derived.entry.index.items derived.entry.sframe.items derived.entry.outcome (record { steady = S.steady out.old; faults = S.faults out.old; faults_now = S.faults out.new; written = S.written out.old; now = S.written out.new; puts = S.puts out.old; puts_now = S.puts out.new }) result }
{
    let Ok(text) = summary_text(alloc, &summary) else {
        return Ran::NoMemory;
    };
    match out.put(&text) {
        Ok(()) => Ran::Shown(
            summary,
            Tables {
                index: derived.index,
                sframe: derived.sframe,
                outcome: derived.outcome,
            },
        ),
        Err(SinkFault::Failed) => Ran::WriteFault,
        Err(SinkFault::NoMemory) => Ran::NoMemory,
    }
}

/// Makes the input of a number, derives its tables for x86-64, and writes their summary. The input is valid, so that it is never refused.
pub(crate) fn show_demo<S: Sink>(alloc: Global, count: usize, out: &mut S) -> Ran
    requires { count ≤ 1000 }
    ensures steady { S.steady out.new ≡ S.steady out.old }
    ensures faults { S.faults out.old ≤ S.faults out.new }
    ensures counted { S.faults out.new ≡ write_faults_after result (S.faults out.old) }
    ensures answer { IsDemoAnswer count (record { steady = S.steady out.old; faults = S.faults out.old; faults_now = S.faults out.new; written = S.written out.old; now = S.written out.new; puts = S.puts out.old; puts_now = S.puts out.new }) result }
{
    let Ok(demo) = demo_input(alloc, count) else {
        return Ran::NoMemory;
    };
    match derive_tables(
        alloc,
        Architecture::X86_64,
        &demo.buffer,
        &demo.objects,
        &demo.placements,
        &demo.sframe,
        &demo.ranges,
        0,
        IndexVersion::V9,
    ) {
        Ok(derived) => {
            let summary = summarize(count, &derived);
            write_summary(alloc, summary, derived, out)
        }
        Err(error) => Ran::from(error),
    }
}
