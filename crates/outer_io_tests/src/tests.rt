ghost use Rattle.std.specs.Prelude.{◌<◌, length};

mod flaky;
mod links;
mod memory;
mod streams;

use outer_io::{FileAnswer, Source};
use std::alloc::Global;
use task_model::OutOfMemory;

/// A file's text, or why there is none.
fn shown(answer: &FileAnswer) -> &str {
    match answer {
        FileAnswer::Bytes(bytes) => std::str::from_utf8(bytes.as_slice()).unwrap_or("no text"),
        FileAnswer::Absent => "absent",
        FileAnswer::TooLong => "too long",
        FileAnswer::Failed => "failed",
        FileAnswer::Memory => "out of memory",
    }
}

/// What so many reads answer, with a blank behind each.
fn answers<S: Source>(
    alloc: Global,
    source: &mut S,
    room: &mut [u8],
    times: u32,
) -> Result<String, OutOfMemory>
    requires { 0 < length room.old }
{
    let mut text = String::new(alloc);
    for _ in 0..times {
        let got = source.read(room);
        write!(text, "{got:?} ")?;
    }
    Ok(text)
}
