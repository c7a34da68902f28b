//! Files and sinks in memory, the system's files, and readers and writers of the tests' own.

use derive_program::{Ran, collect_words};
use program_io::{
    DiskFiles, FileFault, Files, MemoryFiles, MemorySink, PIECE, Sink, SinkFault, StreamSink,
    read_to_limit,
};
use std::env::FillError;
use std::test::Fail;

#[test]
fn files_in_memory(rt: HostRuntime) -> Result<(), Fail> {
    let alloc = rt.alloc();
    let mut held = Vec::new(alloc);
    held.push((String::from_str(alloc, "o")?, [1, 2, 3, 4].to_vec(alloc)?))?;
    held.push((String::from_str(alloc, "o")?, [5].to_vec(alloc)?))?;
    let mut files = MemoryFiles::new(held, [2].to_vec(alloc)?);
    let mut out = Vec::new(alloc);
    let failed = Err(FileFault::Failed);
    for (name, limit, answer) in [
        ("o", 4, Ok(())),
        ("o", 3, Err(FileFault::TooLong)),
        ("o", 4, failed),
        ("p", 4, failed),
        ("o", 5, Ok(())),
    ] {
        assert_eq!(rt; files.read_onto(name, &mut out, limit), answer);
    }
    assert_eq!(rt; out.as_slice(), [1, 2, 3, 4, 1, 2, 3, 4].as_slice());
    Ok(())
}

#[test]
fn a_sink_in_memory(rt: HostRuntime) -> Result<(), Fail> {
    let alloc = rt.alloc();
    let mut sink = MemorySink::new(alloc, [1].to_vec(alloc)?);
    assert_eq!(rt; sink.put(b"abc"), Ok(()));
    assert_eq!(rt; sink.put(b"defgh"), Err(SinkFault::Failed));
    assert_eq!(rt; sink.put(b"i"), Ok(()));
    assert_eq!(rt; sink.written(), b"abcdei".as_slice());
    Ok(())
}

#[test]
fn a_file_on_the_disk(rt: HostRuntime) -> Result<(), Fail> {
    let alloc = rt.alloc();
    std::fs::write(&rt, "three_bytes", "abc")?;
    let mut files = DiskFiles::new(&rt);
    let mut out = Vec::new(alloc);
    for (name, limit, answer) in [
        ("three_bytes", 3, Ok(())),
        ("three_bytes", 2, Err(FileFault::TooLong)),
        ("no_such_file", 3, Err(FileFault::Failed)),
    ] {
        assert_eq!(rt; files.read_onto(name, &mut out, limit), answer);
    }
    assert_eq!(rt; out.as_slice(), b"abc".as_slice());
    Ok(())
}

/// A stream that takes two bytes at a time, and no more than it has room for.
#[derive(Drop)]
struct Narrow {
    taken: Vec<u8>,
    room: usize,
}

impl std::io::Write for Narrow {
    fn write(&mut self, bytes: &[u8]) -> std::io::Result<usize> {
        let count = bytes.len().min(2).min(self.room);
        self.taken.extend_from_slice(&bytes[..count])?;
        self.room -= count;
        Ok(count)
    }

    fn flush(&mut self) -> std::io::Result<()> {
        Ok(())
    }
}

#[test]
fn a_stream(rt: HostRuntime) -> Result<(), Fail> {
    let alloc = rt.alloc();
    let mut sink = StreamSink::new(Narrow {
        taken: Vec::new(alloc),
        room: 5,
    });
    assert_eq!(rt; sink.put(b"abc"), Ok(()));
    assert_eq!(rt; sink.put(b"def"), Err(SinkFault::Failed));
    let mut output = StreamSink::new(rt.stdout());
    assert_eq!(rt; output.put(b""), Ok(()));
    Ok(())
}

/// A reader of five bytes, two at a time, which fails at the read of this number.
#[derive(Drop)]
struct Failing {
    left: u8,
    failing: u8,
}

impl std::io::Read for Failing {
    fn read(&mut self, buf: &mut [u8]) -> std::io::Result<usize> {
        if self.failing == 0 {
            return Err(std::io::Error::from(std::io::ErrorKind::Other));
        }
        self.failing -= 1;
        let count = buf.len().min(2).min(self.left as usize);
        buf[..count].fill(7);
        self.left -= count as u8;
        Ok(count)
    }
}

#[test]
fn a_reader_to_its_end(rt: HostRuntime) -> Result<(), Fail> {
    let alloc = rt.alloc();
    let mut piece = [0; PIECE];
    for (limit, failing, answer, length) in [
        (5, 9, Ok(()), 6),
        (4, 9, Err(FileFault::TooLong), 1),
        (5, 3, Err(FileFault::Failed), 1),
        (5, 0, Err(FileFault::Failed), 1),
    ] {
        let mut reader = Failing { left: 5, failing };
        let mut out = [1].to_vec(alloc)?;
        let mut taken = 0u64;
        assert_eq!(rt;
            read_to_limit(&mut reader, &mut piece, &mut out, limit, &mut taken),
            answer
        );
        assert_eq!(rt; out.len(), length);
    }
    Ok(())
}

/// Arguments of the test's own: the program's name, then these.
#[derive(Drop)]
struct OwnArguments {
    last: &'static [u8],
}

impl std::rt::Env for OwnArguments {
    fn arg(&self, i: usize, buf: &mut [u8]) -> Result<usize, FillError> {
        let bytes: &[u8] = match i {
            0 => b"derive",
            1 => &[b'a'; 300],
            2 => b"",
            3 => self.last,
            _ => return Err(FillError::NotPresent),
        };
        if bytes.len() > buf.len() {
            return Err(FillError::TooLong);
        }
        buf[..bytes.len()].copy_from_slice(bytes);
        Ok(bytes.len())
    }

    fn var(&self, _name: &str, _buf: &mut [u8]) -> Result<usize, FillError> {
        Err(FillError::NotPresent)
    }

    fn var_at(&self, _i: usize, _buf: &mut [u8]) -> Result<usize, FillError> {
        Err(FillError::NotPresent)
    }
}

#[test]
fn arguments_of_an_environment(rt: HostRuntime) -> Result<(), Fail> {
    let alloc = rt.alloc();
    match collect_words(&OwnArguments { last: b"o" }, alloc) {
        Ok(arguments) => {
            assert_eq!(rt; arguments.len(), 3);
            assert_eq!(rt; arguments[0].len(), 300);
            assert_eq!(rt; arguments[1].as_str(), "");
            assert_eq!(rt; arguments[2].as_str(), "o");
        }
        Err(ran) => assert_eq!(rt; ran.status(), 0),
    }
    let refused = collect_words(&OwnArguments { last: b"\xff" }, alloc).err();
    assert!(rt; matches!(refused, Some(Ran::BadWords(2))));
    Ok(())
}
