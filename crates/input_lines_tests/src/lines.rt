//! Tables of lines: what each asks for, or the column at which it is bad.

use input_lines::{Line, parse_line, print_entry};
use line_frame::LineStop;
use std::alloc::Global;
use std::test::Fail;
use task_model::{Entry, OutOfMemory};

// An entry as it is printed, without its line end.
fn entry_text(alloc: Global, entry: &Entry) -> Result<String, OutOfMemory> {
    let text = print_entry(alloc, entry)?;
    let line = text.as_str().strip_suffix('\n').unwrap_or("no line");
    Ok(String::from_str(alloc, line)?)
}

// Whether it is blank, which seat it shows, or the entry.
fn line_text(alloc: Global, line: &Line) -> Result<String, OutOfMemory> {
    match line {
        Line::Blank => Ok(String::from_str(alloc, "blank")?),
        Line::Show { seat } => Ok(format!(in alloc; "shows {seat}")?),
        Line::Act(entry) => entry_text(alloc, entry),
    }
}

// What a line asks for, or the column at which it is bad.
fn told(alloc: Global, bytes: &[u8]) -> Result<String, OutOfMemory> {
    match parse_line(alloc, bytes) {
        Ok(line) => line_text(alloc, &line),
        Err(LineStop::Bad { column }) => Ok(format!(in alloc; "column {column}")?),
        Err(LineStop::Memory) => Err(OutOfMemory),
    }
}

// Puts what a line is to come to and what it comes to, where that is something else.
fn put_difference(
    found: &mut String,
    alloc: Global,
    bytes: &[u8],
    want: &str,
) -> Result<(), OutOfMemory> {
    let told = told(alloc, bytes)?;
    if told.as_str() != want {
        write!(found, "{want} is {}\n", told.as_str())?;
    }
    Ok(())
}

// The bytes of a line, in which `^` stands for a carriage return.
fn with_returns(alloc: Global, line: &str) -> Result<Vec<u8>, OutOfMemory> {
    let mut bytes = Vec::new(alloc);
    for byte in line.bytes() {
        bytes.push(if byte == b'^' { b'\r' } else { byte })?;
    }
    Ok(bytes)
}

/// Puts what differs from a row: a line, in which `^` stands for a carriage return, and what it comes to.
pub(crate) fn put_row(found: &mut String, alloc: Global, row: &str) -> Result<(), OutOfMemory> {
    let (line, want) = row.split_once('@').unwrap_or((row, ""));
    let bytes = with_returns(alloc, line)?;
    put_difference(found, alloc, bytes.as_slice(), want)
}

/// Lines, each before what it comes to.
const LINES: &str = r#"@blank
^@blank
#@blank
# a comment@blank
#^@blank
#^^@blank
1 show@shows 1
9 show@shows 9
10 show@shows 10
64 show@shows 64
64 show^@shows 64
1 . next@1 . next
1 . left^@1 . left
7 .FS right@7 .FS right
1 . set 4@1 . set 4
1 . set 4^@1 . set 4
1 . set  4 @1 . set 4
1 . set 4 ^@1 . set 4
64 .FSS set -007@64 .FSS set -7
2 .S set ()@2 .S set ()
2 .S set true@2 .S set true
2 .S set ( 1,[] )@2 .S set (1, [])
2 .S set [1, true]@2 .S set [1, true]
2 .S set "a b"@2 .S set "a b"
2 .S set "\r"^@2 .S set "\r"
3 . set -9223372036854775808@3 . set -9223372036854775808
 @column 1
x@column 1
^^@column 2
^x@column 2
 # a@column 1
0@column 1
0 show@column 1
01 show@column 1
1@column 2
6@column 2
65@column 2
65 show@column 2
64@column 3
640 show@column 3
70 show@column 2
1x@column 2
1^@column 2
1 @column 3
1  show@column 3
1 ^@column 3
1 sh@column 5
1 shot@column 6
1 show @column 7
1 showx@column 7
1 show^x@column 8
1 show^^@column 8
1 F next@column 3
1 .@column 4
1 .f next@column 4
1 .FT next@column 5
1 .F^@column 5
1 . @column 5
1 .  next@column 5
1 . nex@column 8
1 . nexx@column 8
1 . nextx@column 9
1 . next @column 9
1 . next x@column 9
1 . lift@column 6
1 . leftr@column 9
1 . righ^@column 9
1 . right 1@column 10
1 . write@column 5
1 . set@column 8
1 . set^@column 8
1 . set @column 9
1 . set ^@column 9
1 . set 4x@column 10
1 . set 4 x@column 11
1 . set 4^x@column 11
1 . set 4^^@column 11
1 . set 4 ^ @column 12
1 . set -^@column 10
1 . set - 5@column 10
1 . set (1^)@column 11
1 . set "a^b"@column 11
1 . set "a@column 11
1 . set [1,]@column 12
1 . set tru@column 12
1 . set 9223372036854775808@column 27
1 . set 12345678901234567890@column 28"#;

const EXAMPLES: &str = "1 show
17 show
64 .FSFS next
5 . left
30 .S right
1 . set true
1 . set (1, 2)
9 .F set [-1, 2]";

// The first bytes of a line, and behind them one that begins nothing.
fn cut(alloc: Global, line: &[u8], length: usize) -> Result<Vec<u8>, OutOfMemory> {
    let mut bytes = Vec::new(alloc);
    for byte in line.iter().take(length) {
        bytes.push(*byte)?;
    }
    bytes.push(b'~')?;
    Ok(bytes)
}

// Puts what differs where a line has so many bytes of this one, alone and before a byte that begins nothing: both are bad behind them.
fn put_front(
    found: &mut String,
    alloc: Global,
    line: &[u8],
    length: usize,
) -> Result<(), OutOfMemory> {
    let column = format!(in alloc; "column {}", (length as u64).saturating_add(1))?;
    let bytes = cut(alloc, line, length)?;
    put_difference(found, alloc, bytes.as_slice(), column.as_str())?;
    if length > 0 {
        let front = line.get(..length).unwrap_or(line);
        put_difference(found, alloc, front, column.as_str())?;
    }
    Ok(())
}

// Puts what differs of the fronts of a line that are none themselves.
fn put_fronts(found: &mut String, alloc: Global, line: &[u8]) -> Result<(), OutOfMemory> {
    for length in 0..line.len() {
        put_front(found, alloc, line, length)?;
    }
    Ok(())
}

fn put_all(found: &mut String, alloc: Global) -> Result<(), OutOfMemory> {
    put_difference(found, alloc, b"#\xff\x00 1 show", "blank")?;
    put_difference(found, alloc, b"1 . set \"\xc3(", "column 11")?;
    for row in LINES.split('\n') {
        put_row(found, alloc, row)?;
    }
    for line in EXAMPLES.split('\n') {
        put_fronts(found, alloc, line.as_bytes())?;
    }
    Ok(())
}

#[test]
fn lines_and_their_fronts(rt: HostRuntime) -> Result<(), Fail> {
    let mut found = String::new(rt.alloc());
    put_all(&mut found, rt.alloc())?;
    assert!(rt; found.is_empty(), "{}", found.as_str());
    Ok(())
}
