//! The program `derive`: it hands the arguments of the command line, the system's files and standard output to the library's run, prints
//! one line on standard error for every answer with a status above 0, and ends with the status.
#![tactic(auto)]

use derive_program::{Ran, collect_words, run};
use program_io::{DiskFiles, StreamSink};
use std::process::ExitCode;

/// Returns the answer for the arguments of the command line.
fn answer(rt: &HostRuntime) -> Ran {
    let alloc = rt.alloc();
    match collect_words(rt, alloc) {
        Ok(arguments) => {
            let mut files = DiskFiles::new(rt);
            let mut out = StreamSink::new(rt.stdout());
            run(alloc, &arguments, &mut files, &mut out)
        }
        Err(ran) => ran,
    }
}

fn main(rt: HostRuntime) -> ExitCode {
    let ran = answer(&rt);
    let status = ran.status();
    if status > 0 {
        let _ = eprintln!(rt; "{ran}");
    }
    ExitCode::from(status)
}
