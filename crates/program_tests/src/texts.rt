//! The arguments of the command line, the layout and the report.

use elf_format::{Architecture, Span};
use gdb_index_format::{CuBoundary, IndexVersion, NameWords, Placement};
use program_text::{
    Command, LayoutError, TablesCommand, push_tables, read_command, read_layout, report_start,
};
use sframe_format::SframeOutcome;
use std::alloc::Global;
use std::test::Fail;

/// The arguments of a line, between single spaces.
pub(crate) fn arguments_of(alloc: Global, line: &str) -> Result<Vec<String>, Fail> {
    let mut words = Vec::new(alloc);
    for word in line.split_whitespace() {
        words.push(String::from_str(alloc, word)?)?;
    }
    Ok(words)
}

/// Returns the command `tables` that the arguments are.
fn tables_command(words: &[String]) -> Option<TablesCommand<'_>> {
    match read_command(words) {
        Ok(Command::Tables(command)) => Some(command),
        _ => None,
    }
}

#[test]
fn usage_errors(rt: HostRuntime) -> Result<(), Fail> {
    let alloc = rt.alloc();
    for (line, index) in [
        ("", 0),
        ("table x86_64 l", 0),
        ("tables", 1),
        ("tables arm", 1),
        ("tables x86_64", 2),
        ("tables x86_64 l --sframe", 4),
        ("tables x86_64 l --index", 4),
        ("tables x86_64 l --index 7 o", 4),
        ("tables x86_64 l --index --sframe s", 4),
        ("tables x86_64 l --sframe s --index", 6),
        ("tables x86_64 l --sframe s --index 10", 6),
        ("find", 1),
        ("find i", 2),
        ("find i 6", 2),
        ("find i 6g", 2),
        ("find i 6d 6d", 3),
        ("frame", 1),
        ("frame s", 2),
        ("frame s 08192 8242", 2),
        ("frame s 18446744073709551616 0", 2),
        ("frame s 8192", 3),
        ("frame s 8192 0x2032", 3),
        ("frame s 8192 8242 16", 4),
    ] {
        let words = arguments_of(alloc, line)?;
        assert_eq!(rt; read_command(&words).err(), Some(index));
    }
    Ok(())
}

#[test]
fn a_command(rt: HostRuntime) -> Result<(), Fail> {
    let alloc = rt.alloc();
    let v8 = IndexVersion::V8;
    let v9 = IndexVersion::V9;
    for (line, sframe, version, objects, first) in [
        ("tables ppc64 l", None, v9, 0, 3),
        ("tables ppc64 l --sframe s o --sframe", Some("s"), v9, 2, 5),
        ("tables ppc64 l o --index 7", None, v9, 3, 3),
        ("tables ppc64 l --index 8 --sframe s", None, v8, 2, 5),
        (
            "tables ppc64 l --sframe --index --index 8 --index",
            Some("--index"),
            v8,
            1,
            7,
        ),
        ("tables ppc64 l --index 9 ./--index", None, v9, 1, 5),
    ] {
        let words = arguments_of(alloc, line)?;
        assert_eq!(rt;
            tables_command(&words).map(|command| (command.machine, command.layout, command.sframe)),
            Some((Architecture::Ppc64, "l", sframe))
        );
        assert_eq!(rt;
            tables_command(&words).map(|command| (command.index_version(), command.objects.len())),
            Some((version, objects))
        );
        assert_eq!(rt;
            tables_command(&words).map(|command| command.first_object()),
            Some(first)
        );
    }
    Ok(())
}

#[test]
fn wrong_layouts(rt: HostRuntime) -> Result<(), Fail> {
    let alloc = rt.alloc();
    for (text, wrong) in [
        ("", None),
        ("\n# a comment\n\n#", None),
        ("place 0 3 4096", Some(LayoutError::BadLine(1))),
        ("\n#\n \n", Some(LayoutError::BadLine(3))),
        ("base 1\nbase 1\nx\n", Some(LayoutError::BadLine(2))),
        ("range 0 +1", Some(LayoutError::BadLine(1))),
    ] {
        assert_eq!(rt; read_layout(alloc, text.as_bytes()).err(), wrong);
    }
    Ok(())
}

#[test]
fn a_layout(rt: HostRuntime) -> Result<(), Fail> {
    let alloc = rt.alloc();
    let text = "range 0 74\nplace 0 3 4096 16\nbase 18446744073709551615\nrange 74 148";
    let layout = read_layout(alloc, text.as_bytes()).expect(&rt, "a good layout");
    let placed = Placement {
        object: 0,
        section: 3,
        address: 4096,
        size: 16,
    };
    assert_eq!(rt; layout.placements.as_slice(), [placed].as_slice());
    assert_eq!(rt;
        layout.ranges.as_slice(),
        [
            Span { start: 0, stop: 74 },
            Span {
                start: 74,
                stop: 148
            }
        ]
        .as_slice()
    );
    assert_eq!(rt; layout.base, u64::MAX);
    Ok(())
}

#[test]
fn a_report(rt: HostRuntime) -> Result<(), Fail> {
    let alloc = rt.alloc();
    let units = [CuBoundary {
        offset: 0,
        length: 64,
    }];
    let mut names = Vec::new(alloc);
    names.push(NameWords {
        name: b"alpha",
        words: [0x3000_0000, 0xb000_0001].to_vec(alloc)?,
    })?;
    names.push(NameWords {
        name: b"",
        words: [0x9000_0000].to_vec(alloc)?,
    })?;
    let index = [0x0a; 33];
    let outcome = SframeOutcome::Sorted { used: 74 };
    let mut text = report_start(alloc, &units, &names, outcome, &index, &[])?;
    push_tables(&mut text, &index, &[])?;
    assert_eq!(rt;
        text.as_slice(),
        b"units 1\nunit 0 0 64\nnames 2\nname 616c706861 30000000 b0000001\nname - 90000000\noutcome sorted 74\nindex 33\n0a0a0a0a0a0a0a0a0a0a0a0a0a0a0a0a0a0a0a0a0a0a0a0a0a0a0a0a0a0a0a0a\n0a\nsframe 0\n".as_slice()
    );
    let mut empty = report_start(alloc, &[], &[], SframeOutcome::NoDescriptors, &[], &[])?;
    push_tables(&mut empty, &[], &[])?;
    assert_eq!(rt;
        empty.as_slice(),
        b"units 0\nnames 0\noutcome none\nindex 0\nsframe 0\n".as_slice()
    );
    Ok(())
}
