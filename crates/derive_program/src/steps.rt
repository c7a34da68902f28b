//! The steps of the program, one after another.
ghost use Rattle.std.specs.Prelude.{◌≡◌, ◌∷◌, [], ◌≢◌, ◌≤◌, ◌↔◌, ◌⊎◌, ℕ, List, length, vec_len, false, Ok, Err, Some, IsTrue, IfOk, IfErr};
ghost use Rattle.derivation.specs.declared.error.DeriveError.{DeriveError as DeriveError_spec};
ghost use Rattle.derivation.specs.declared.error.DeriveError.TheVariants as DeriveError_variants;
ghost use Rattle.program_io.specs.Counting.{Rose};
ghost use Rattle.program_files.specs.Reading.{file_limit};
ghost use Rattle.program_text.specs.Arguments.{arguments_of};
ghost use Rattle.program_text.specs.Command.{command_of, for_tables, for_query, for_demo};
ghost use Rattle.program_text.specs.Merge.{merge_of};
ghost use Rattle.program_text.specs.Query.{for_merge, query_of};
ghost use Rattle.program_text.specs.Lines.{text_of};
ghost use Rattle.program_text.specs.Report.{start_lines, whole_text};
ghost use Rattle.program_text.specs.Tables.{object_limit, tables_of};
ghost use Rattle.derive_program.specs.Cause.{IsRunOf, IsReadFault, IsFileTooLong, IsBadLayout, IsRefused, IsFaulty, IsReported, IsReplyWritten, HasText, IsCutOff, IsUnwritten, IsGood, IsAskable, IsWrongLayout, IsAnswerOf, IsReplyOrNoMemory, IsReplyOrFault, IsDoneOrNoMemory, IsDoneOrFault, IsShownOrNoMemory, IsShownOrFault, IfDone, IfShown, IfRefused, HasReport};
ghost use Rattle.derive_program.specs.Calls.{HasReadFor, HasReadOf, read_faults_after, write_faults_after};
ghost use Rattle.derive_program.specs.ProgramInput.{IsInputOf};
ghost use Rattle.derive_program.specs.Reply.{Reply, IsReply, reply_in};
ghost use Rattle.derive_program.specs.Shown.{IsShown};
ghost use Rattle.derive_program.specs.Status.{may_write};
ghost use Rattle.derive_program.specs.steps.Answer.{IsAnswerFor, IsInputOfFiles, IsSilentAnswer, IsWritingOf, IsQueryAnswer};

use crate::browsing::browse_read;
use crate::finding::find_read;
use crate::laws::replies_are_one;
use crate::locating::locate_read;
use crate::merging::merge_read;
use crate::showing::show_demo;
use crate::{Ran, Tables};
use derivation::{Derived, derive_tables, inside_is_no_bad_span};
use elf_format::Architecture;
use gdb_index_format::IndexVersion;
use program_files::{FilesRead, read_files, read_named};
use program_io::{Files, Sink, SinkFault};
use program_text::{
    Command, LayoutError, MergeCommand, Query, TablesCommand, push_tables, read_command,
    read_layout, report_start,
};
use std::alloc::{AllocError, Global};

/// Tables, and the start of their report. It borrows nothing, so that the files can be freed before the report is whole.
#[derive(Debug, Drop)]
struct Started {
    /// The report up to the tables.
    text: Vec<u8>,
    /// The tables.
    tables: Tables,
}

/// Starts the report of tables, and frees their units and names.
fn start_report(alloc: Global, derived: Derived<'_>) -> Result<Started, AllocError>
    ensures text { IfOk result (λ s. s.text.items ≡ text_of (start_lines derived.entry.units.items derived.entry.names.items derived.entry.outcome)) }
    ensures index { IfOk result (λ s. s.tables.index.items ≡ derived.entry.index.items) }
    ensures sframe { IfOk result (λ s. s.tables.sframe.items ≡ derived.entry.sframe.items) }
    ensures outcome { IfOk result (λ s. s.tables.outcome ≡ derived.entry.outcome) }
{
    let text = report_start(
        alloc,
        &derived.units,
        &derived.names,
        derived.outcome,
        &derived.index,
        &derived.sframe,
    )?;
    Ok(Started {
        text,
        tables: Tables {
            index: derived.index,
            sframe: derived.sframe,
            outcome: derived.outcome,
        },
    })
}

/// Reads the layout, derives the tables and starts their report.
fn derive_read(
    alloc: Global,
    machine: Architecture,
    version: IndexVersion,
    read: &FilesRead,
) -> Result<Started, Ran>
    requires buffer { vec_len read.now.buffer ≤ file_limit }
    requires objects { length read.now.objects.items ≤ object_limit }
    ensures started { IfOk result (λ s. HasReport (IsInputOfFiles machine version read.now) s.tables.index.items s.tables.sframe.items s.tables.outcome (whole_text s.text.items s.tables.index.items s.tables.sframe.items)) }
    ensures refused { IfErr result (IsSilentAnswer machine version read.now) }
    ensures counted { IfErr result (λ ran. (faults : ℕ) → write_faults_after ran faults ≡ faults) }
{
    let layout = match read_layout(alloc, &read.layout) {
        Ok(layout) => layout,
        Err(LayoutError::BadLine(line)) => return Err(Ran::BadLayout(line)),
        Err(LayoutError::NoMemory) => return Err(Ran::NoMemory),
    };
    match derive_tables(
        alloc,
        machine,
        &read.buffer,
        &read.objects,
        &layout.placements,
        &read.sframe,
        &layout.ranges,
        layout.base,
        version,
    ) {
        Ok(derived) => match start_report(alloc, derived) {
            Ok(started) => Ok(started),
            Err(_) => Err(Ran::NoMemory),
        },
        Err(error) => Err(Ran::from(error)),
    }
}

/// Completes the report of tables, and writes it, in one call.
fn write_report<S: Sink>(started: Started, out: &mut S) -> Ran
    ensures steady { S.steady out.new ≡ S.steady out.old }
    ensures faults { S.faults out.old ≤ S.faults out.new }
    ensures counted { S.faults out.new ≡ write_faults_after result (S.faults out.old) }
    ensures answer { IsWritingOf started.tables.index.items started.tables.sframe.items started.tables.outcome (whole_text started.text.items started.tables.index.items started.tables.sframe.items) (record { steady = S.steady out.old; faults = S.faults out.old; faults_now = S.faults out.new; written = S.written out.old; now = S.written out.new; puts = S.puts out.old; puts_now = S.puts out.new }) result }
{
    let mut text = started.text;
    let tables = started.tables;
    let Ok(()) = push_tables(&mut text, &tables.index, &tables.sframe) else {
        return Ran::NoMemory;
    };
    match out.put(&text) {
        Ok(()) => Ran::Done(tables),
        Err(SinkFault::Failed) => Ran::WriteFault,
        Err(SinkFault::NoMemory) => Ran::NoMemory,
    }
}

/// Reads the layout, derives the tables and writes their report. Frees the files before the report is whole, which is the largest text.
fn report_read<S: Sink>(
    alloc: Global,
    machine: Architecture,
    version: IndexVersion,
    read: FilesRead,
    out: &mut S,
) -> Ran
    requires buffer { vec_len read.buffer ≤ file_limit }
    requires objects { length read.objects.items ≤ object_limit }
    ensures steady { S.steady out.new ≡ S.steady out.old }
    ensures faults { S.faults out.old ≤ S.faults out.new }
    ensures counted { S.faults out.new ≡ write_faults_after result (S.faults out.old) }
    ensures answer { IsAnswerFor machine version read (record { steady = S.steady out.old; faults = S.faults out.old; faults_now = S.faults out.new; written = S.written out.old; now = S.written out.new; puts = S.puts out.old; puts_now = S.puts out.new }) result }
{
    let started = match derive_read(alloc, machine, version, &read) {
        Ok(started) => started,
        Err(ran) => return ran,
    };
    drop(read);
    write_report(started, out)
}

/// All steps of `tables`, with the cause of each answer.
fn answer_tables<F: Files, S: Sink>(
    alloc: Global,
    command: &TablesCommand<'_>,
    files: &mut F,
    out: &mut S,
) -> Ran
    requires { length command.now.objects.now ≤ object_limit }
    ensures held { F.held files.new ≡ F.held files.old }
    ensures steady { F.steady files.new ≡ F.steady files.old }
    ensures faults { F.faults files.old ≤ F.faults files.new }
    ensures taken { F.taken files.old ≤ F.taken files.new }
    ensures sink_steady { S.steady out.new ≡ S.steady out.old }
    ensures sink_faults { S.faults out.old ≤ S.faults out.new }
    ensures reads { HasReadFor (for_tables (tables_of command.now)) (F.reads files.old) (F.reads files.new) result }
    ensures counted { F.faults files.new ≡ read_faults_after result (F.faults files.old) }
    ensures sink_counted { S.faults out.new ≡ write_faults_after result (S.faults out.old) }
    ensures cause { (words : List (List ℕ)) → command_of words ≡ Ok (for_tables (tables_of command.now)) → IsRunOf words (record { held = F.held files.old; steady = F.steady files.old; faults = F.faults files.old; faults_now = F.faults files.new; taken = F.taken files.old; taken_now = F.taken files.new }) (record { steady = S.steady out.old; faults = S.faults out.old; faults_now = S.faults out.new; written = S.written out.old; now = S.written out.new; puts = S.puts out.old; puts_now = S.puts out.new }) result }
{
    match read_files(alloc, command, files) {
        Ok(read) => report_read(alloc, command.machine, command.index_version(), read, out),
        Err(error) => Ran::from(error),
    }
}

/// Looks up a query in the bytes of its file, and writes the text of what is found.
fn answer_read<S: Sink>(alloc: Global, query: &Query<'_>, bytes: &[u8], out: &mut S) -> Ran
    ensures steady { S.steady out.new ≡ S.steady out.old }
    ensures faults { S.faults out.old ≤ S.faults out.new }
    ensures counted { S.faults out.new ≡ write_faults_after result (S.faults out.old) }
    ensures answer { IsQueryAnswer (query_of query.now) (bytes.now ∷ []) (record { steady = S.steady out.old; faults = S.faults out.old; faults_now = S.faults out.new; written = S.written out.old; now = S.written out.new; puts = S.puts out.old; puts_now = S.puts out.new }) result }
{
    match query {
        Query::Find(command) => find_read(alloc, command, bytes, out),
        Query::Frame(command) => locate_read(alloc, command, bytes, out),
        Query::Browse(command) => browse_read(alloc, command, bytes, out),
    }
}

/// All steps of a query of one file, with the cause of each answer.
fn answer_query<F: Files, S: Sink>(
    alloc: Global,
    query: &Query<'_>,
    files: &mut F,
    out: &mut S,
) -> Ran
    ensures held { F.held files.new ≡ F.held files.old }
    ensures steady { F.steady files.new ≡ F.steady files.old }
    ensures faults { F.faults files.old ≤ F.faults files.new }
    ensures taken { F.taken files.old ≤ F.taken files.new }
    ensures sink_steady { S.steady out.new ≡ S.steady out.old }
    ensures sink_faults { S.faults out.old ≤ S.faults out.new }
    ensures reads { HasReadFor (for_query (query_of query.now)) (F.reads files.old) (F.reads files.new) result }
    ensures counted { F.faults files.new ≡ read_faults_after result (F.faults files.old) }
    ensures sink_counted { S.faults out.new ≡ write_faults_after result (S.faults out.old) }
    ensures cause { (words : List (List ℕ)) → command_of words ≡ Ok (for_query (query_of query.now)) → IsRunOf words (record { held = F.held files.old; steady = F.steady files.old; faults = F.faults files.old; faults_now = F.faults files.new; taken = F.taken files.old; taken_now = F.taken files.new }) (record { steady = S.steady out.old; faults = S.faults out.old; faults_now = S.faults out.new; written = S.written out.old; now = S.written out.new; puts = S.puts out.old; puts_now = S.puts out.new }) result }
{
    match read_named(alloc, files, 1, query.file()) {
        Ok(bytes) => answer_read(alloc, query, &bytes, out),
        Err(error) => Ran::from(error),
    }
}

/// All steps of `merge`, with the cause of each answer.
fn answer_merge<F: Files, S: Sink>(
    alloc: Global,
    command: &MergeCommand<'_>,
    files: &mut F,
    out: &mut S,
) -> Ran
    ensures held { F.held files.new ≡ F.held files.old }
    ensures steady { F.steady files.new ≡ F.steady files.old }
    ensures faults { F.faults files.old ≤ F.faults files.new }
    ensures taken { F.taken files.old ≤ F.taken files.new }
    ensures sink_steady { S.steady out.new ≡ S.steady out.old }
    ensures sink_faults { S.faults out.old ≤ S.faults out.new }
    ensures reads { HasReadFor (for_query (for_merge (merge_of command.now))) (F.reads files.old) (F.reads files.new) result }
    ensures counted { F.faults files.new ≡ read_faults_after result (F.faults files.old) }
    ensures sink_counted { S.faults out.new ≡ write_faults_after result (S.faults out.old) }
    ensures cause { (words : List (List ℕ)) → command_of words ≡ Ok (for_query (for_merge (merge_of command.now))) → IsRunOf words (record { held = F.held files.old; steady = F.steady files.old; faults = F.faults files.old; faults_now = F.faults files.new; taken = F.taken files.old; taken_now = F.taken files.new }) (record { steady = S.steady out.old; faults = S.faults out.old; faults_now = S.faults out.new; written = S.written out.old; now = S.written out.new; puts = S.puts out.old; puts_now = S.puts out.new }) result }
{
    let first = match read_named(alloc, files, 1, command.first) {
        Ok(bytes) => bytes,
        Err(error) => return Ran::from(error),
    };
    match read_named(alloc, files, 2, command.second) {
        Ok(second) => merge_read(alloc, command, &first, &second, out),
        Err(error) => Ran::from(error),
    }
}

/// All steps, with the cause of each answer.
fn answer<F: Files, S: Sink>(alloc: Global, words: &[String], files: &mut F, out: &mut S) -> Ran
    ensures held { F.held files.new ≡ F.held files.old }
    ensures steady { F.steady files.new ≡ F.steady files.old }
    ensures faults { F.faults files.old ≤ F.faults files.new }
    ensures taken { F.taken files.old ≤ F.taken files.new }
    ensures sink_steady { S.steady out.new ≡ S.steady out.old }
    ensures sink_faults { S.faults out.old ≤ S.faults out.new }
    ensures reads { HasReadOf (command_of (arguments_of words.now)) (F.reads files.old) (F.reads files.new) result }
    ensures counted { F.faults files.new ≡ read_faults_after result (F.faults files.old) }
    ensures sink_counted { S.faults out.new ≡ write_faults_after result (S.faults out.old) }
    ensures cause { IsRunOf (arguments_of words.now) (record { held = F.held files.old; steady = F.steady files.old; faults = F.faults files.old; faults_now = F.faults files.new; taken = F.taken files.old; taken_now = F.taken files.new }) (record { steady = S.steady out.old; faults = S.faults out.old; faults_now = S.faults out.new; written = S.written out.old; now = S.written out.new; puts = S.puts out.old; puts_now = S.puts out.new }) result }
{
    match read_command(words) {
        Ok(Command::Tables(command)) => answer_tables(alloc, &command, files, out),
        Ok(Command::Query(query)) => answer_query(alloc, &query, files, out),
        Ok(Command::Merge(command)) => answer_merge(alloc, &command, files, out),
        Ok(Command::Demo(command)) => show_demo(alloc, command.count, out),
        Err(index) => Ran::BadWords(index),
    }
}

/// Runs the program: reads the arguments, then the files that they name, each once and in the order of the arguments. For `tables` it then
/// reads the layout, derives the tables, and puts their report into `out` in one call. For a query it looks up what is asked for in the
/// bytes of the file, and puts the text of what is found into `out` in one call. For `demo` it reads no file: it makes the input of the
/// number, derives its tables, and puts their summary into `out` in one call.
///
/// An answer of a step comes only where every step before it succeeded. `out` is called by `Done`, `Found`, `Located`, `Listed`, `Merged`, `Shown` and `WriteFault`
/// alone, once, with the whole text; before `NoMemory` maybe once, and then nothing is written. After `WriteFault` a prefix of the text may
/// be written.
pub fn run<F: Files, S: Sink>(alloc: Global, words: &[String], files: &mut F, out: &mut S) -> Ran
    ensures held { F.held files.new ≡ F.held files.old }
    ensures steady { F.steady files.new ≡ F.steady files.old }
    ensures faults { F.faults files.old ≤ F.faults files.new }
    ensures taken { F.taken files.old ≤ F.taken files.new }
    ensures sink_steady { S.steady out.new ≡ S.steady out.old }
    ensures sink_faults { S.faults out.old ≤ S.faults out.new }

    // The files that the arguments name are read, each once, in their order, up to the first that is refused. Only a failed read counts as one,
    // and only a failed write.
    ensures reads { HasReadOf (command_of (arguments_of words.now)) (F.reads files.old) (F.reads files.new) result }
    ensures counted { F.faults files.new ≡ read_faults_after result (F.faults files.old) }
    ensures sink_counted { S.faults out.new ≡ write_faults_after result (S.faults out.old) }

    ensures words { (index : ℕ) → (result ≡ Ran.BadWords index) ↔ (command_of (arguments_of words.now) ≡ Err index) }
    ensures read_fault { (index : ℕ) → result ≡ Ran.ReadFault index → IsReadFault (F.held files.old) (F.steady files.old) (arguments_of words.now) index (F.faults files.old) (F.faults files.new) }
    ensures file_too_long { (index : ℕ) → result ≡ Ran.FileTooLong index → IsFileTooLong (F.held files.old) (arguments_of words.now) index (F.taken files.old) (F.taken files.new) }
    ensures layout { (line : ℕ) → result ≡ Ran.BadLayout line → IsBadLayout (F.held files.old) (arguments_of words.now) line }
    ensures layout_exact { (line : ℕ) → IsWrongLayout (F.held files.old) (arguments_of words.now) line → ¬ Rose (F.faults files.old) (F.faults files.new) ⊎ IsTrue (F.steady files.old) → (result ≡ Ran.BadLayout line) ⊎ (result ≡ Ran.NoMemory) }
    ensures refused { IfRefused result (λ error. IsRefused (IsInputOf (F.held files.old) (arguments_of words.now)) error) }
    ensures not_span { IfRefused result (λ error. (index : ℕ) → error ≢ DeriveError_variants.BadSpan index) }
    ensures refused_exact { (error : DeriveError_spec) → IsFaulty (F.held files.old) (arguments_of words.now) error → ¬ Rose (F.faults files.old) (F.faults files.new) ⊎ IsTrue (F.steady files.old) → (result ≡ Ran.Refused error) ⊎ (result ≡ Ran.NoMemory) }
    ensures write_fault { result ≡ Ran.WriteFault → Rose (S.faults out.old) (S.faults out.new) }
    ensures steady_sink { IsTrue (S.steady out.old) → result ≡ Ran.WriteFault → ⊥ }

    // The tables are those of the files, and exactly their report was put, in one call, and written; after a failed write a prefix of it is.
    ensures done { IfDone result (λ index sframe outcome. IsReported (IsInputOf (F.held files.old) (arguments_of words.now)) index sframe outcome (record { steady = S.steady out.old; faults = S.faults out.old; faults_now = S.faults out.new; written = S.written out.old; now = S.written out.new; puts = S.puts out.old; puts_now = S.puts out.new })) }
    ensures cut_off { result ≡ Ran.WriteFault → IsCutOff (HasText (F.held files.old) (arguments_of words.now)) (record { steady = S.steady out.old; faults = S.faults out.old; faults_now = S.faults out.new; written = S.written out.old; now = S.written out.new; puts = S.puts out.old; puts_now = S.puts out.new }) }
    ensures unwritten { may_write result ≡ false → S.written out.new ≡ S.written out.old }
    ensures silent { may_write result ≡ false → IsUnwritten (HasText (F.held files.old) (arguments_of words.now)) (record { steady = S.steady out.old; faults = S.faults out.old; faults_now = S.faults out.new; written = S.written out.old; now = S.written out.new; puts = S.puts out.old; puts_now = S.puts out.new }) result }

    // What a query answers is the reply for the bytes of its file, and exactly its text, where it has one, was put in one call, and written.
    ensures replied { (reply : Reply) → reply_in result ≡ Some reply → IsReplyWritten (F.held files.old) (arguments_of words.now) reply (record { steady = S.steady out.old; faults = S.faults out.old; faults_now = S.faults out.new; written = S.written out.old; now = S.written out.new; puts = S.puts out.old; puts_now = S.puts out.new }) }
    ensures reply_exact { (good : IsAskable (F.held files.old) (arguments_of words.now)) (reply : Reply) → IsReply good.query good.bytes reply → ¬ Rose (F.faults files.old) (F.faults files.new) ⊎ IsTrue (F.steady files.old) → IsAnswerOf good.query good.bytes reply result }
    ensures reply_complete { IsAskable (F.held files.old) (arguments_of words.now) → ¬ Rose (F.faults files.old) (F.faults files.new) ⊎ IsTrue (F.steady files.old) → ¬ Rose (S.faults out.old) (S.faults out.new) ⊎ IsTrue (S.steady out.old) → IsReplyOrNoMemory result }
    ensures reply_or_fault { IsAskable (F.held files.old) (arguments_of words.now) → IsReplyOrFault result }

    // The tables that `demo` shows are those of the defined input of its number, and exactly their summary was put, in one call, and written.
    // The input has tables, so that it is never refused.
    ensures shown { IfShown result (λ summary index sframe outcome. IsShown (arguments_of words.now) summary index sframe outcome (record { steady = S.steady out.old; faults = S.faults out.old; faults_now = S.faults out.new; written = S.written out.old; now = S.written out.new; puts = S.puts out.old; puts_now = S.puts out.new })) }
    ensures shown_complete { (count : ℕ) → command_of (arguments_of words.now) ≡ Ok (for_demo count) → ¬ Rose (S.faults out.old) (S.faults out.new) ⊎ IsTrue (S.steady out.old) → IsShownOrNoMemory result }
    ensures shown_or_fault { (count : ℕ) → command_of (arguments_of words.now) ≡ Ok (for_demo count) → IsShownOrFault result }

    // Good input is done, where no fault was counted or none can be; else memory ran out, or a read or the write failed.
    ensures complete { IsGood (F.held files.old) (arguments_of words.now) → ¬ Rose (F.faults files.old) (F.faults files.new) → ¬ Rose (S.faults out.old) (S.faults out.new) → IsDoneOrNoMemory result }
    ensures complete_steady { IsGood (F.held files.old) (arguments_of words.now) → IsTrue (F.steady files.old) → IsTrue (S.steady out.old) → IsDoneOrNoMemory result }
    ensures complete_or_fault { IsGood (F.held files.old) (arguments_of words.now) → IsDoneOrFault result }
{
    inside_is_no_bad_span();
    replies_are_one();
    answer(alloc, words, files, out)
}
