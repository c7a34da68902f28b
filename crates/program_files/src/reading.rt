//! Reading files one after another: for `tables` the layout, the SFrame bytes, then each object onto the end of one buffer.
//!
//! What is left of the limit for an object is 2^30 less the bytes of the objects before it.
ghost use Rattle.std.specs.Prelude.{◌≡◌, ◌+◌, ◌-◌, ◌<◌, ◌≤◌, ◌++◌, ◌∷◌, ◌^◌, ℕ, List, [], IsTrue, IsSome, IfSome, IfOk, OnOk, length, vec_len, option_map};
ghost use Rattle.elf_format.specs.Span.{AreInside};
ghost use Rattle.program_io.specs.Contents.{file_of};
ghost use Rattle.program_io.specs.Counting.{Rose, RoseBy};
ghost use Rattle.program_text.specs.Arguments.{arguments_of};
ghost use Rattle.program_text.specs.Tables.{tables_of, NamesTablesFile, object_limit};
ghost use Rattle.program_files.specs.Reading.{file_limit, within, sframe_of, object_texts, read_of, texts_read, IsObjectRead, AreObjectsRead, listed, HasRead, HasReadObjects, faults_after_reading};

use crate::{FilesRead, ReadError};
use elf_format::Span;
use program_io::{FileFault, Files};
use program_text::TablesCommand;
use std::alloc::Global;

/// How many bytes a file may have, and all objects together.
const FILE_LIMIT: usize = 1 << 30;

/// Reads the file that the argument at an index names onto the end of `out`.
fn read_file<F: Files>(
    files: &mut F,
    index: usize,
    name: &str,
    out: &mut Vec<u8>,
    limit: usize,
) -> Result<(), ReadError>
    ensures held { F.held files.new ≡ F.held files.old }
    ensures steady { F.steady files.new ≡ F.steady files.old }
    ensures faults { F.faults files.old ≤ F.faults files.new }
    ensures taken { F.taken files.old ≤ F.taken files.new }
    ensures reads { F.reads files.new ≡ F.reads files.old ++ name.now ∷ [] }
    ensures counted { F.faults files.new ≡ faults_after_reading result (F.faults files.old) }

    ensures ok { OnOk result ((bytes : List ℕ) × (out.new.items ≡ out.old.items ++ bytes) × (length bytes ≤ limit) × RoseBy (length bytes) (F.taken files.old) (F.taken files.new) × IfSome (F.held files.old) (λ held. within index limit (file_of held name.now) ≡ Ok bytes)) }
    ensures unread { (k : ℕ) → result ≡ Err (ReadError.Unread k) → (k ≡ index) × Rose (F.faults files.old) (F.faults files.new) × (IsTrue (F.steady files.old) → IfSome (F.held files.old) (λ held. within index limit (file_of held name.now) ≡ Err (ReadError.Unread index))) }
    ensures too_long { (k : ℕ) → result ≡ Err (ReadError.TooLong k) → (k ≡ index) × RoseBy (limit + 1) (F.taken files.old) (F.taken files.new) × IfSome (F.held files.old) (λ held. within index limit (file_of held name.now) ≡ Err (ReadError.TooLong index)) }
{
    match files.read_onto(name, out, limit) {
        Ok(()) => Ok(()),
        Err(FileFault::Failed) => Err(ReadError::Unread(index)),
        Err(FileFault::TooLong) => Err(ReadError::TooLong(index)),
        Err(FileFault::NoMemory) => Err(ReadError::NoMemory),
    }
}

/// Reads the file of at most 2^30 bytes that the argument at an index names.
///
/// `Unread`: the file was not read. `TooLong`: it is longer.
pub fn read_named<F: Files>(
    alloc: Global,
    files: &mut F,
    index: usize,
    name: &str,
) -> Result<Vec<u8>, ReadError>
    ensures held { F.held files.new ≡ F.held files.old }
    ensures steady { F.steady files.new ≡ F.steady files.old }
    ensures faults { F.faults files.old ≤ F.faults files.new }
    ensures taken { F.taken files.old ≤ F.taken files.new }
    ensures reads { F.reads files.new ≡ F.reads files.old ++ name.now ∷ [] }
    ensures counted { F.faults files.new ≡ faults_after_reading result (F.faults files.old) }

    ensures small { IfOk result (λ bytes. vec_len bytes ≤ file_limit) }
    ensures known { IfOk result (λ bytes. IfSome (F.held files.old) (λ held. within index file_limit (file_of held name.now) ≡ Ok bytes.items)) }
    ensures unread { (k : ℕ) → result ≡ Err (ReadError.Unread k) → (k ≡ index) × Rose (F.faults files.old) (F.faults files.new) × (IsTrue (F.steady files.old) → IfSome (F.held files.old) (λ held. within index file_limit (file_of held name.now) ≡ Err (ReadError.Unread index))) }
    ensures too_long { (k : ℕ) → result ≡ Err (ReadError.TooLong k) → (k ≡ index) × RoseBy (file_limit + 1) (F.taken files.old) (F.taken files.new) × IfSome (F.held files.old) (λ held. within index file_limit (file_of held name.now) ≡ Err (ReadError.TooLong index)) }
{
    let mut bytes = Vec::new(alloc);
    match read_file(files, index, name, &mut bytes, FILE_LIMIT) {
        Ok(()) => Ok(bytes),
        Err(error) => Err(error),
    }
}

/// Reads one object onto the end of the buffer.
fn read_object<F: Files>(
    files: &mut F,
    index: usize,
    name: &str,
    buffer: &mut Vec<u8>,
    objects: &mut Vec<Span>,
) -> Result<(), ReadError>
    requires { vec_len buffer.old ≤ file_limit }
    ensures held { F.held files.new ≡ F.held files.old }
    ensures steady { F.steady files.new ≡ F.steady files.old }
    ensures faults { F.faults files.old ≤ F.faults files.new }
    ensures taken { F.taken files.old ≤ F.taken files.new }
    ensures reads { F.reads files.new ≡ F.reads files.old ++ name.now ∷ [] }
    ensures counted { F.faults files.new ≡ faults_after_reading result (F.faults files.old) }

    ensures ok { OnOk result (IsObjectRead (F.held files.old) index name.now buffer.old.items buffer.new.items objects.old.items objects.new.items (F.taken files.old) (F.taken files.new)) }
    ensures unread { (k : ℕ) → result ≡ Err (ReadError.Unread k) → (k ≡ index) × Rose (F.faults files.old) (F.faults files.new) × (IsTrue (F.steady files.old) → IfSome (F.held files.old) (λ held. within index (file_limit - vec_len buffer.old) (file_of held name.now) ≡ Err (ReadError.Unread index))) }
    ensures too_long { (k : ℕ) → result ≡ Err (ReadError.TooLong k) → (k ≡ index) × RoseBy (file_limit - vec_len buffer.old + 1) (F.taken files.old) (F.taken files.new) × IfSome (F.held files.old) (λ held. within index (file_limit - vec_len buffer.old) (file_of held name.now) ≡ Err (ReadError.TooLong index)) }
{
    let start = buffer.len();
    read_file(files, index, name, buffer, FILE_LIMIT - start)?;
    let stop = buffer.len();
    objects.push(Span { start, stop })?;
    Ok(())
}

/// Reads the objects that the arguments from index `first` on name.
fn read_objects<F: Files>(
    alloc: Global,
    files: &mut F,
    first: usize,
    names: &[String],
    buffer: &mut Vec<u8>,
) -> Result<Vec<Span>, ReadError>
    requires few { first + length names.now < 2 ^ 32 }
    requires empty { buffer.old.items ≡ [] }
    ensures held { F.held files.new ≡ F.held files.old }
    ensures steady { F.steady files.new ≡ F.steady files.old }
    ensures faults { F.faults files.old ≤ F.faults files.new }
    ensures taken { F.taken files.old ≤ F.taken files.new }
    ensures reads { HasReadObjects first (arguments_of names.now) (F.reads files.old) (F.reads files.new) result }
    ensures counted { F.faults files.new ≡ faults_after_reading result (F.faults files.old) }

    ensures ok { IfOk result (λ objects. AreObjectsRead (F.held files.old) first (arguments_of names.now) buffer.new.items objects.items) }
    ensures unread { (k : ℕ) → result ≡ Err (ReadError.Unread k) → (first ≤ k) × (k < first + length names.now) × Rose (F.faults files.old) (F.faults files.new) × (IsTrue (F.steady files.old) → IfSome (F.held files.old) (λ held. object_texts held first file_limit (arguments_of names.now) ≡ Err (ReadError.Unread k))) }
    ensures too_long { (k : ℕ) → result ≡ Err (ReadError.TooLong k) → (first ≤ k) × (k < first + length names.now) × RoseBy (file_limit + 1) (F.taken files.old) (F.taken files.new) × IfSome (F.held files.old) (λ held. object_texts held first file_limit (arguments_of names.now) ≡ Err (ReadError.TooLong k)) }
{
    let mut objects = Vec::new(alloc);
    let mut index = first;
    let mut rest = names;
    'objects: while let [name, after @ ..] = rest {
        read_object(files, index, name.as_str(), buffer, &mut objects)?;
        index += 1;
        rest = after;
    }
    Ok(objects)
}

/// Reads the SFrame bytes, where a file of them is named.
fn read_sframe<F: Files>(
    alloc: Global,
    files: &mut F,
    name: Option<&str>,
) -> Result<Vec<u8>, ReadError>
    ensures held { F.held files.new ≡ F.held files.old }
    ensures steady { F.steady files.new ≡ F.steady files.old }
    ensures faults { F.faults files.old ≤ F.faults files.new }
    ensures taken { F.taken files.old ≤ F.taken files.new }
    ensures reads { F.reads files.new ≡ F.reads files.old ++ listed (option_map (λ n. n.now) name.entry) }
    ensures counted { F.faults files.new ≡ faults_after_reading result (F.faults files.old) }

    ensures small { IfOk result (λ bytes. vec_len bytes ≤ file_limit) }
    ensures ok { IfOk result (λ bytes. IfSome (F.held files.old) (λ held. sframe_of held (option_map (λ n. n.now) name.entry) ≡ Ok bytes.items)) }
    ensures unread { (k : ℕ) → result ≡ Err (ReadError.Unread k) → (k ≡ 4) × IsSome name.entry × Rose (F.faults files.old) (F.faults files.new) × (IsTrue (F.steady files.old) → IfSome (F.held files.old) (λ held. sframe_of held (option_map (λ n. n.now) name.entry) ≡ Err (ReadError.Unread k))) }
    ensures too_long { (k : ℕ) → result ≡ Err (ReadError.TooLong k) → (k ≡ 4) × IsSome name.entry × RoseBy (file_limit + 1) (F.taken files.old) (F.taken files.new) × IfSome (F.held files.old) (λ held. sframe_of held (option_map (λ n. n.now) name.entry) ≡ Err (ReadError.TooLong k)) }
{
    let mut bytes = Vec::new(alloc);
    let Some(name) = name else {
        return Ok(bytes);
    };
    match read_file(files, 4, name, &mut bytes, FILE_LIMIT) {
        Ok(()) => Ok(bytes),
        Err(error) => Err(error),
    }
}

/// Reads the files of a command, each once, in the order of its arguments, up to the first that is refused.
///
/// `Unread`: the file of the argument at this index was not read. `TooLong`: it is longer than the limit left for it.
pub fn read_files<F: Files>(
    alloc: Global,
    command: &TablesCommand<'_>,
    files: &mut F,
) -> Result<FilesRead, ReadError>
    requires { length command.now.objects.now ≤ object_limit }
    ensures held { F.held files.new ≡ F.held files.old }
    ensures steady { F.steady files.new ≡ F.steady files.old }
    ensures faults { F.faults files.old ≤ F.faults files.new }
    ensures taken { F.taken files.old ≤ F.taken files.new }
    ensures reads { HasRead (tables_of command.now) (F.reads files.old) (F.reads files.new) result }
    ensures counted { F.faults files.new ≡ faults_after_reading result (F.faults files.old) }

    // Where the files are known, they are held and within the limits, and this is what they hold.
    ensures known { IfOk result (λ read. IfSome (F.held files.old) (λ held. read_of held (tables_of command.now) ≡ Ok (texts_read read))) }
    ensures count { IfOk result (λ read. length read.objects.items ≡ length command.now.objects.now) }
    ensures inside { IfOk result (λ read. AreInside (length read.buffer.items) read.objects.items) }
    ensures small { IfOk result (λ read. (vec_len read.layout ≤ file_limit) × (vec_len read.sframe ≤ file_limit) × (vec_len read.buffer ≤ file_limit)) }

    ensures unread { (k : ℕ) → result ≡ Err (ReadError.Unread k) → NamesTablesFile (tables_of command.now) k × Rose (F.faults files.old) (F.faults files.new) }
    ensures too_long { (k : ℕ) → result ≡ Err (ReadError.TooLong k) → NamesTablesFile (tables_of command.now) k × RoseBy (file_limit + 1) (F.taken files.old) (F.taken files.new) }

    // Where the files are known, the file of the argument is longer than the limit left for it, and each before it was read; where they are steady,
    // an unread file is the first that is not held, and each before it was read.
    ensures longer { (k : ℕ) → result ≡ Err (ReadError.TooLong k) → IfSome (F.held files.old) (λ held. read_of held (tables_of command.now) ≡ Err (ReadError.TooLong k)) }
    ensures missing { (k : ℕ) → result ≡ Err (ReadError.Unread k) → IsTrue (F.steady files.old) → IfSome (F.held files.old) (λ held. read_of held (tables_of command.now) ≡ Err (ReadError.Unread k)) }
{
    let mut layout = Vec::new(alloc);
    read_file(files, 2, command.layout, &mut layout, FILE_LIMIT)?;
    let sframe = read_sframe(alloc, files, command.sframe)?;
    let mut buffer = Vec::new(alloc);
    let first = command.first_object();
    let objects = read_objects(alloc, files, first, command.objects, &mut buffer)?;
    Ok(FilesRead {
        layout,
        sframe,
        buffer,
        objects,
    })
}
