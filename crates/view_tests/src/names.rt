//! Names of symbols with their versions, and lists of libraries' names.

use elf_view::{RawSymbolName, Sonames, should_enforce_undefined};
use std::test::Fail;

#[test]
fn versioned_names(rt: HostRuntime) -> Result<(), Fail> {
    let alloc = rt.alloc();
    for (bytes, name, version, is_default, text) in [
        (
            b"foo@1.1".as_slice(),
            b"foo".as_slice(),
            Some(b"1.1".as_slice()),
            false,
            "foo@1.1",
        ),
        (b"foo@@2.0", b"foo", Some(b"2.0"), true, "foo@@2.0"),
        (b"foo", b"foo", None, true, "foo"),
        (b"", b"", None, true, ""),
        (b"foo@", b"foo", Some(b""), false, "foo@"),
        (b"foo@@", b"foo", Some(b""), true, "foo@@"),
        (b"a@@@b", b"a", Some(b"@b"), true, "a@@@b"),
        (
            b"\xc3\xa4@\xff1",
            b"\xc3\xa4",
            Some(b"\xff1"),
            false,
            "\u{e4}@?1",
        ),
        (
            b"\xff\xc3\xa4@1",
            b"\xff\xc3\xa4",
            Some(b"1"),
            false,
            "???@1",
        ),
    ] {
        let parsed = RawSymbolName::parse(bytes);
        assert_eq!(rt; parsed.name(), name);
        assert_eq!(rt; parsed.version_name(), version);
        assert_eq!(rt; parsed.is_default, is_default);
        assert_eq!(rt; format!(in alloc; "{parsed}")?.as_str(), text);
    }
    Ok(())
}

#[test]
fn names_of_libraries(rt: HostRuntime) -> Result<(), Fail> {
    let alloc = rt.alloc();
    let mut names = Vec::new(alloc);
    names.push(b"a".as_slice())?;
    names.push(b"libc.so.6".as_slice())?;
    names.push(b"a".as_slice())?;
    let names = Sonames::new(alloc, names)?;
    for (name, is_known) in [
        (b"a".as_slice(), true),
        (b"libc.so.6", true),
        (b"libc", false),
        (b"", false),
    ] {
        assert_eq!(rt; names.contains(name), is_known);
    }
    for allow in [false, true] {
        for is_executable in [false, true] {
            for complete in [false, true] {
                let enforced = should_enforce_undefined(allow, is_executable, complete);
                assert_eq!(rt; enforced, !allow && is_executable && complete);
            }
        }
    }
    Ok(())
}
