//! Asks for files of the system, each within a limit, and then for disks, and says what comes of each.
#![tactic(auto)]

mod disk_tries;
mod lines;

use crate::disk_tries::try_disks;
use crate::lines::{Unsaid, say};
use outer_io::{FileAnswer, Files, Sink, SystemFiles, WriterSink};
use std::process::ExitCode;
use task_model::{OutOfMemory, TaskText};

/// Names with the most bytes that are asked for. The folder of the superuser isn't for others to read.
const TRIES: &[(&str, u64)] = &[
    ("letters", 27),
    ("letters", 26),
    ("letters", 25),
    ("empty", 0),
    (" two blanks ", 6),
    (" two blanks", 6),
    ("two blanks ", 6),
    ("letters ", 26),
    ("none", 26),
    (".", 26),
    ("letters/none", 26),
    ("/root", 26),
];

/// Names that are asked for once more when disks were tried: one that was only looked at, and those that were written.
const LATER_TRIES: &[(&str, u64)] = &[("none", 26), ("new", 26), ("twice", 26), ("gone", 26)];

fn main(rt: HostRuntime) -> ExitCode {
    let mut out = WriterSink::new(rt.stdout());
    let said = try_files(&rt, &mut out, TRIES)
        .and_then(|()| try_disks(&rt, &mut out))
        .and_then(|()| try_files(&rt, &mut out, LATER_TRIES));
    match said {
        Ok(()) => ExitCode::SUCCESS,
        Err(Unsaid) => ExitCode::FAILURE,
    }
}

/// Asks for each of these files within its limit, and says what comes of it.
fn try_files<O: Sink>(rt: &HostRuntime, out: &mut O, tries: &[(&str, u64)]) -> Result<(), Unsaid> {
    let mut files = SystemFiles::new(rt);
    for (name, limit) in tries {
        let answer = match TaskText::of(rt.alloc(), name) {
            Ok(text) => files.read_whole(rt.alloc(), &text, *limit),
            Err(OutOfMemory) => FileAnswer::Memory,
        };
        says(out, name, *limit, &answer)?;
    }
    Ok(())
}

/// What came of a request.
fn shown(answer: &FileAnswer) -> &[u8] {
    match answer {
        FileAnswer::Bytes(bytes) => bytes.as_slice(),
        FileAnswer::Absent => b"(absent)",
        FileAnswer::TooLong => b"(too long)",
        FileAnswer::Failed => b"(a read fault)",
        FileAnswer::Memory => b"(out of memory)",
    }
}

/// Says what came of a request.
fn says<O: Sink>(out: &mut O, name: &str, limit: u64, answer: &FileAnswer) -> Result<(), Unsaid> {
    let mut number = itoa::Buffer::new();
    say(
        out,
        &[
            b"[",
            name.as_bytes(),
            b"] within ",
            number.format(limit).as_bytes(),
            b": ",
            shown(answer),
            b"\n",
        ],
    )
}
