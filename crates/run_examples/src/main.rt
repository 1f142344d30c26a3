//! Runs each program of examples/ on its script, and says whether it writes what its file of answers holds. Then it is the process of the
//! program, with the text of its end on the standard output, too, so that a stored run shows that beside its status.
#![tactic(auto)]

use outer_io::{
    FileAnswer, Files, MemSink, PlainSource, ReaderSource, Sink, SystemFiles, WriterSink, Written,
    write_all,
};
use std::alloc::Global;
use std::process::ExitCode;
use task_model::{OutOfMemory, Row, TaskText};
use tophat::plain;
use tophat_process::{exit_code, ports_of_machine, words};

/// The examples: NAME.th, with its script NAME.script and what it writes, NAME.out.
const EXAMPLES: &[&str] = &[
    "approval",
    "board",
    "expenses",
    "incidents",
    "leave",
    "meeting",
    "notes",
    "order",
    "pair",
    "rooms",
    "stock",
    "tender",
    "visitors",
];

/// The most bytes of a script or of a file of answers.
const LONGEST: u64 = 65_536;

/// What becomes of an example.
#[derive(Clone, Copy)]
enum Outcome {
    AsExpected,
    Differs,
    NoFile,
    OutOfMemory,
}

impl Outcome {
    fn text(self) -> &'static str {
        match self {
            Outcome::AsExpected => ": as in its file of answers\n",
            Outcome::Differs => ": NOT as in its file of answers\n",
            Outcome::NoFile => ": a file of it can't be read\n",
            Outcome::OutOfMemory => ": out of memory\n",
        }
    }
}

fn main(rt: HostRuntime) -> ExitCode {
    let mut out = WriterSink::new(rt.stdout());
    let mut files = SystemFiles::new(&rt);
    for name in EXAMPLES {
        let outcome = match try_example(rt.alloc(), &mut files, name) {
            Ok(outcome) => outcome,
            Err(OutOfMemory) => Outcome::OutOfMemory,
        };
        if !says(&mut out, name, outcome.text()) {
            return ExitCode::from(1);
        }
    }
    exit_code(
        &rt,
        rt.alloc(),
        &words(&rt, rt.alloc()),
        &mut files,
        &mut ReaderSource::new(rt.stdin()),
        &mut out,
        &mut WriterSink::new(rt.stdout()),
        &mut ports_of_machine(&rt),
    )
}

/// Whether both texts were written.
fn says<O: Sink>(out: &mut O, name: &str, text: &str) -> bool {
    matches!(write_all(out, name.as_bytes()), Written::Whole)
        && matches!(write_all(out, text.as_bytes()), Written::Whole)
}

/// Runs the example of this name on its script, and compares what it writes.
fn try_example<F: Files>(alloc: Global, files: &mut F, name: &str) -> Result<Outcome, OutOfMemory> {
    let Some(script) = file(alloc, files, name, ".script")? else {
        return Ok(Outcome::NoFile);
    };
    let Some(answers) = file(alloc, files, name, ".out")? else {
        return Ok(Outcome::NoFile);
    };
    let mut words = Row::new(alloc);
    words.push(TaskText::of(alloc, "run")?)?;
    words.push(file_name(alloc, name, ".th")?)?;
    let mut input = PlainSource::new(script, 4_096);
    let mut out = MemSink::new(alloc, 4_096, Row::new(alloc));
    let mut err = MemSink::new(alloc, 4_096, Row::new(alloc));
    let status = plain(
        alloc,
        words.as_slice(),
        files,
        &mut input,
        &mut out,
        &mut err,
    );
    if status == Some(0) && out.taken() == answers.as_slice() {
        Ok(Outcome::AsExpected)
    } else {
        Ok(Outcome::Differs)
    }
}

/// The name of a file of the example of this name.
fn file_name(alloc: Global, name: &str, ending: &str) -> Result<TaskText, OutOfMemory> {
    match format!(in alloc; "{name}{ending}") {
        Ok(text) => TaskText::of(alloc, text.as_str()),
        Err(_) => Err(OutOfMemory),
    }
}

/// The bytes of a file of the example of this name, if it can be read.
fn file<F: Files>(
    alloc: Global,
    files: &mut F,
    name: &str,
    ending: &str,
) -> Result<Option<Row<u8>>, OutOfMemory> {
    let name = file_name(alloc, name, ending)?;
    match files.read_whole(alloc, &name, LONGEST) {
        FileAnswer::Bytes(bytes) => Ok(Some(bytes)),
        FileAnswer::Memory => Err(OutOfMemory),
        _ => Ok(None),
    }
}
