//! The files that a command names.

use crate::texts::arguments_of;
use elf_format::Span;
use program_files::{ReadError, read_files};
use program_io::MemoryFiles;
use program_text::{Command, read_command};
use std::alloc::Global;
use std::test::Fail;

/// The files `l` of one byte, `s` of two, `a` of three and `b` of none.
fn small_files(alloc: Global) -> Result<MemoryFiles, Fail> {
    let mut held = Vec::new(alloc);
    held.push((String::from_str(alloc, "l")?, [1].to_vec(alloc)?))?;
    held.push((String::from_str(alloc, "s")?, [2, 3].to_vec(alloc)?))?;
    held.push((String::from_str(alloc, "a")?, [4, 5, 6].to_vec(alloc)?))?;
    held.push((String::from_str(alloc, "b")?, Vec::new(alloc)))?;
    Ok(MemoryFiles::new(held, Vec::new(alloc)))
}

#[test]
fn files_of_a_command(rt: HostRuntime) -> Result<(), Fail> {
    let alloc = rt.alloc();
    let arguments = arguments_of(alloc, "tables x86_64 l --sframe s a b a")?;
    let mut files = small_files(alloc)?;
    if let Ok(Command::Tables(command)) = read_command(&arguments) {
        match read_files(alloc, &command, &mut files) {
            Ok(read) => {
                assert_eq!(rt; read.layout.as_slice(), [1].as_slice());
                assert_eq!(rt; read.sframe.as_slice(), [2, 3].as_slice());
                assert_eq!(rt; read.buffer.as_slice(), [4, 5, 6, 4, 5, 6].as_slice());
                let spans = [
                    Span { start: 0, stop: 3 },
                    Span { start: 3, stop: 3 },
                    Span { start: 3, stop: 6 },
                ];
                assert_eq!(rt; read.objects.as_slice(), spans.as_slice());
            }
            Err(error) => assert_eq!(rt; error, ReadError::NoMemory),
        }
    }
    Ok(())
}

#[test]
fn missing_files(rt: HostRuntime) -> Result<(), Fail> {
    let alloc = rt.alloc();
    for (line, index) in [
        ("tables x86_64 m a", 2),
        ("tables x86_64 l --sframe m a", 4),
        ("tables x86_64 l a b m", 5),
        ("tables x86_64 l --sframe s a b m", 7),
        ("tables x86_64 l --index 8 a m", 6),
        ("tables x86_64 l --sframe m --index 8 a", 4),
        ("tables x86_64 l --sframe s --index 8 a b m", 9),
    ] {
        let arguments = arguments_of(alloc, line)?;
        let mut files = small_files(alloc)?;
        if let Ok(Command::Tables(command)) = read_command(&arguments) {
            let error = read_files(alloc, &command, &mut files).err();
            assert_eq!(rt; error, Some(ReadError::Unread(index)));
        }
    }
    Ok(())
}
