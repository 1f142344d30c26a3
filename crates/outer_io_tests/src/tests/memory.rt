use super::{answers, shown};
use outer_io::{
    Files, MemFiles, MemSink, MemSource, PlainFiles, PlainSource, Sink, Source, write_all,
    write_four, write_two,
};
use std::alloc::Global;
use std::test::Fail;
use task_model::{OutOfMemory, Row, TaskText};

fn bytes(alloc: Global, text: &[u8]) -> Result<Row<u8>, OutOfMemory> {
    let mut row = Row::new(alloc);
    row.extend(text)?;
    Ok(row)
}

fn call(alloc: Global, failing: u64) -> Result<Row<u64>, OutOfMemory> {
    let mut row = Row::new(alloc);
    row.push(failing)?;
    Ok(row)
}

fn names(alloc: Global) -> Result<Row<TaskText>, OutOfMemory> {
    let mut row = Row::new(alloc);
    for name in ["a", "b", "a"] {
        row.push(TaskText::of(alloc, name)?)?;
    }
    Ok(row)
}

fn contents(alloc: Global) -> Result<Row<Row<u8>>, OutOfMemory> {
    let mut row = Row::new(alloc);
    for text in ["one", "", "two"] {
        row.push(bytes(alloc, text.as_bytes())?)?;
    }
    Ok(row)
}

// What reads into five bytes answer, and the bytes that are then there.
fn reads<S: Source>(alloc: Global, source: &mut S, times: u32) -> Result<String, OutOfMemory> {
    let mut room = *b".....";
    let mut text = answers(alloc, source, &mut room, times)?;
    match str::from_utf8(&room) {
        Ok(bytes) => text.push_str(bytes)?,
        Err(_) => text.push_str("no text")?,
    }
    Ok(text)
}

fn source_told(alloc: Global) -> Result<String, OutOfMemory> {
    let mut source = MemSource::new(bytes(alloc, b"abcdefg")?, 4, call(alloc, 2)?);
    reads(alloc, &mut source, 5)
}

fn plain_source_told(alloc: Global) -> Result<String, OutOfMemory> {
    let mut source = PlainSource::new(bytes(alloc, b"abc")?, 9);
    reads(alloc, &mut source, 2)
}

// What writes in turn answer.
fn writes<S: Sink>(alloc: Global, sink: &mut S) -> Result<String, OutOfMemory> {
    let one = sink.write(b"abcd");
    let all = write_all(sink, b"defgh");
    let two = write_two(sink, b"1", b"2345");
    let four = write_four(sink, b"6", b"", b"7", b"8");
    Ok(format!(in alloc; "{one:?} {all:?} {two:?} {four:?} ")?)
}

// The same, and what was taken.
fn sink_told(alloc: Global) -> Result<String, OutOfMemory> {
    let mut sink = MemSink::new(alloc, 3, call(alloc, 3)?);
    let mut text = writes(alloc, &mut sink)?;
    text.push_str(str::from_utf8(sink.taken()).unwrap_or("no text"))?;
    Ok(text)
}

/// The texts of files that are asked for in turn, each within its limit, or why there is none.
pub(super) fn texts<F: Files>(
    alloc: Global,
    files: &mut F,
    asked: &[(&str, u64)],
) -> Result<String, OutOfMemory> {
    let mut text = String::new(alloc);
    for (name, limit) in asked {
        let name = TaskText::of(alloc, name)?;
        text.push_str(shown(&files.read_whole(alloc, &name, *limit)))?;
        text.push(';')?;
    }
    Ok(text)
}

fn plain_files_told(alloc: Global) -> Result<String, OutOfMemory> {
    let mut files = PlainFiles::new(names(alloc)?, contents(alloc)?);
    texts(alloc, &mut files, &[("a", 3), ("a", 2), ("b", 0), ("c", 9)])
}

fn files(alloc: Global) -> Result<MemFiles, OutOfMemory> {
    Ok(MemFiles::new(names(alloc)?, contents(alloc)?, call(alloc, 2)?))
}

fn files_told(alloc: Global) -> Result<String, OutOfMemory> {
    let mut files = files(alloc)?;
    texts(alloc, &mut files, &[("a", 3), ("a", 3), ("a", 3)])
}

// What comes of calls on each object, a line each.
fn all_told(alloc: Global) -> Result<String, OutOfMemory> {
    let mut text = source_told(alloc)?;
    write!(text, "\n{}", plain_source_told(alloc)?.as_str())?;
    write!(text, "\n{}", sink_told(alloc)?.as_str())?;
    write!(text, "\n{}", plain_files_told(alloc)?.as_str())?;
    write!(text, "\n{}", files_told(alloc)?.as_str())?;
    Ok(text)
}

const TOLD: &str = "Took(4) Failed Took(3) End End efgd.
Took(3) End abc..
Took(3) Failed Whole Whole abcdef12345678
one;too long;;absent;
one;failed;one;";

#[test]
fn objects_in_memory_do_as_they_say(rt: HostRuntime) -> Result<(), Fail> {
    assert_eq!(rt; all_told(rt.alloc())?.as_str(), TOLD);
    Ok(())
}
