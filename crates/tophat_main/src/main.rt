//! The program `tophat`: the exit code of its words over the system's files, ports and standard streams.
#![tactic(auto)]

use outer_io::{ReaderSource, SystemFiles, WriterSink};
use std::process::ExitCode;
use tophat_process::{exit_code, ports_of_machine, words};

fn main(rt: HostRuntime) -> ExitCode {
    let alloc = rt.alloc();
    exit_code(
        &rt,
        alloc,
        &words(&rt, alloc),
        &mut SystemFiles::new(&rt),
        &mut ReaderSource::new(rt.stdin()),
        &mut WriterSink::new(rt.stdout()),
        &mut WriterSink::new(rt.stderr()),
        &mut ports_of_machine(&rt),
    )
}
