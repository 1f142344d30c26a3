//! Rows of tables, read in one piece and byte by byte.

use super::telling::{request_told, told};
use http_requests::{Progress, RequestReader};
use std::alloc::Global;
use task_model::OutOfMemory;
use testing_programs::repeated;

/// What the rows of a table are: requests, or the forms of requests.
#[derive(Clone, Copy)]
pub(super) enum Rows {
    Requests,
    Forms,
}

// The request of a row, and what follows it behind `|`.
fn request_of(alloc: Global, rows: Rows, row: &str) -> Result<String, OutOfMemory> {
    let row = repeated(alloc, row)?;
    match rows {
        Rows::Requests => Ok(row),
        Rows::Forms => {
            let head = "POST / HTTP/1.1~Host: a~Content-Length:";
            Ok(format!(in alloc; "{head} {}~~{}|GET", row.len(), row.as_str())?)
        }
    }
}

// The bytes that a text stands for.
fn bytes_of(alloc: Global, text: &str) -> Result<Vec<u8>, OutOfMemory> {
    let mut bytes = Vec::new(alloc);
    for byte in text.as_bytes() {
        match *byte {
            b'~' => bytes.extend_from_slice(b"\r\n")?,
            b'^' => bytes.push(b'\n')?,
            b'`' => bytes.push(b'\r')?,
            b'!' => bytes.push(0xff)?,
            other => bytes.push(other)?,
        }
    }
    Ok(bytes)
}

// What they are in one piece, behind which nothing comes.
fn at_once(alloc: Global, bytes: &[u8]) -> Result<String, OutOfMemory> {
    let mut reader = RequestReader::new();
    told(alloc, &reader.read(alloc, bytes, true)?)
}

// What they are byte by byte, up to the first whole request.
fn by_bytes(alloc: Global, bytes: &[u8]) -> Result<String, OutOfMemory> {
    let mut reader = RequestReader::new();
    let mut seen = Vec::new(alloc);
    for byte in bytes {
        seen.push(*byte)?;
        if let Progress::Request(request) = reader.read(alloc, seen.as_slice(), false)? {
            return request_told(alloc, &request);
        }
    }
    told(alloc, &reader.read(alloc, seen.as_slice(), true)?)
}

// What a row wants: its request takes so many bytes.
fn wanted(alloc: Global, want: &str, length: usize) -> Result<String, OutOfMemory> {
    let want = repeated(alloc, want)?;
    if want.as_str() == "more" || want.as_str() == "nothing" {
        return Ok(want);
    }
    Ok(format!(in alloc; "{want} {length}")?)
}

fn row_differences(
    alloc: Global,
    rows: Rows,
    row: &str,
    want: &str,
) -> Result<String, OutOfMemory> {
    let text = request_of(alloc, rows, row)?;
    let (first, rest) = text.as_str().split_once('|').unwrap_or((text.as_str(), ""));
    let mut bytes = bytes_of(alloc, first)?;
    let want = wanted(alloc, want, bytes.len())?;
    bytes.extend_from_slice(bytes_of(alloc, rest)?.as_slice())?;
    let whole = at_once(alloc, bytes.as_slice())?;
    let parts = by_bytes(alloc, bytes.as_slice())?;
    if whole.as_str() == want.as_str() && parts.as_str() == want.as_str() {
        return Ok(String::new(alloc));
    }
    Ok(format!(in alloc; "{row} => {whole} and {parts}, not {want}\n")?)
}

/// What differs from a table.
pub(super) fn differences(alloc: Global, rows: Rows, table: &str) -> Result<String, OutOfMemory> {
    let mut all = String::new(alloc);
    for line in table.split('\n') {
        let (row, want) = line.split_once(" => ").unwrap_or((line, ""));
        all.push_str(row_differences(alloc, rows, row, want)?.as_str())?;
    }
    Ok(all)
}
