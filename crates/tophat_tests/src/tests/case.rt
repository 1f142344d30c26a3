//! A case: one call of the command, and what comes of it.
ghost use Rattle.std.specs.Prelude.{◌<◌};

use outer_io::{MemFiles, MemSink, MemSource};
use std::alloc::Global;
use task_model::{OutOfMemory, Row, TaskText};
use tophat::plain;

/// The words with spaces between them, the file `p.th`, the script, and the numbers of the calls on files, input, output and errors that fail.
#[derive(Clone, Copy)]
pub(super) struct Case<'a> {
    pub(super) words: &'a str,
    pub(super) program: &'a [u8],
    pub(super) script: &'a [u8],
    pub(super) fails: [u64; 4],
}

pub(super) const RUN: Case<'static> = Case {
    words: "run p.th",
    program: b"",
    script: b"",
    fails: [0, 0, 0, 0],
};

fn bytes(alloc: Global, text: &[u8]) -> Result<Row<u8>, OutOfMemory> {
    let mut row = Row::new(alloc);
    row.extend(text)?;
    Ok(row)
}

fn one<T: Drop>(alloc: Global, item: T) -> Result<Row<T>, OutOfMemory> {
    let mut row = Row::new(alloc);
    row.push(item)?;
    Ok(row)
}

/// Words with spaces between them. There are none where the text is empty.
pub(super) fn words_of(alloc: Global, text: &str) -> Result<Row<TaskText>, OutOfMemory> {
    let mut row = Row::new(alloc);
    if !text.is_empty() {
        for word in text.split(' ') {
            row.push(TaskText::of(alloc, word)?)?;
        }
    }
    Ok(row)
}

fn files(alloc: Global, program: &[u8], failing: u64) -> Result<MemFiles, OutOfMemory> {
    let names = one(alloc, TaskText::of(alloc, "p.th")?)?;
    let contents = one(alloc, bytes(alloc, program)?)?;
    Ok(MemFiles::new(names, contents, one(alloc, failing)?))
}

fn sink(alloc: Global, piece: usize, failing: u64) -> Result<MemSink, OutOfMemory>
    requires { 0 < piece }
{
    Ok(MemSink::new(alloc, piece, one(alloc, failing)?))
}

fn source(
    alloc: Global,
    script: &[u8],
    piece: usize,
    failing: u64,
) -> Result<MemSource, OutOfMemory>
    requires { 0 < piece }
{
    let script = bytes(alloc, script)?;
    Ok(MemSource::new(script, piece, one(alloc, failing)?))
}

/// What a call is given, in memory.
#[derive(Drop)]
struct Objects {
    files: MemFiles,
    input: MemSource,
    out: MemSink,
    err: MemSink,
}

/// Both sinks: the output, and that of errors.
fn sinks(alloc: Global, case: &Case<'_>, piece: usize) -> Result<(MemSink, MemSink), OutOfMemory>
    requires { 0 < piece }
{
    let out = sink(alloc, piece, case.fails[2])?;
    Ok((out, sink(alloc, piece, case.fails[3])?))
}

impl Objects {
    fn of(alloc: Global, case: &Case<'_>, piece: usize) -> Result<Objects, OutOfMemory>
        requires { 0 < piece }
    {
        let files = files(alloc, case.program, case.fails[0])?;
        let input = source(alloc, case.script, piece, case.fails[1])?;
        let (out, err) = sinks(alloc, case, piece)?;
        Ok(Objects {
            files,
            input,
            out,
            err,
        })
    }
}

/// What comes of a case in pieces of this size: `= ` and the status, or `= none` where the words ask for no plain command, and behind that line
/// what the error sink and then the output took.
pub(super) fn told(alloc: Global, case: &Case<'_>, piece: usize) -> Result<String, OutOfMemory> {
    let words = words_of(alloc, case.words)?;
    let mut objects = Objects::of(alloc, case, piece.max(1))?;
    let status = plain(
        alloc,
        words.as_slice(),
        &mut objects.files,
        &mut objects.input,
        &mut objects.out,
        &mut objects.err,
    );
    text_of(alloc, status, &objects.out, &objects.err)
}

fn text_of(
    alloc: Global,
    status: Option<u8>,
    out: &MemSink,
    err: &MemSink,
) -> Result<String, OutOfMemory> {
    let mut text = match status {
        Some(status) => format!(in alloc; "= {status}\n")?,
        None => String::from_str(alloc, "= none\n")?,
    };
    text.push_str(String::from_utf8_lossy(alloc, err.taken())?.as_str())?;
    text.push_str(String::from_utf8_lossy(alloc, out.taken())?.as_str())?;
    Ok(text)
}

/// Puts a case and what comes of it, where that isn't what is wanted.
pub(super) fn put_compared(
    found: &mut String,
    case: &str,
    told: &str,
    wanted: &str,
) -> Result<(), OutOfMemory> {
    if told != wanted {
        write!(found, "{case}\nis {told}\n")?;
    }
    Ok(())
}
