ghost use Rattle.hub_lines.specs.HubLines.{IsWorldCount};

use hub_lines::parse_hub_line;
use line_frame::LineStop;
use std::alloc::Global;
use task_model::OutOfMemory;
use testing_programs::repeated;

/// Lines for 2 worlds, each before what it comes to: no world, the world that it names, or the column at which it is bad. `^` stands for a
/// carriage return, and `{N PIECE}` for N times the piece.
const TWO: &str = r#"@none
^@none
# 3 show@none
#{1048575 a}@none
#{1048576 a}@column 1048577
1 1 show@world 1
2 64 .F next^@world 2
2 @world 2
1 ^@world 1
2 # a@world 2
1 #{1048573 a}@world 1
1 #{1048574 a}@column 1048577
0 1 show@column 1
3 1 show@column 1
10 1 show@column 2
01 1 show@column 1
2@column 2
2^@column 2
2  show@column 3
2 0 show@column 3
2 65 show@column 4
2 1 shot@column 8
 2 show@column 1
x@column 1
^^@column 2
1 1 .{1048574 F}@column 1048572
1 1 . set 4{1048566  }@column 1048577"#;

/// The same of 9.
const NINE: &str = r#"9 1 show@world 9
10 1 show@column 2"#;

/// The same of 16.
const SIXTEEN: &str = r#"1 1 show@world 1
10 1 show@world 10
16 1 show@world 16
17 1 show@column 2
20 1 show@column 2
1@column 2
16@column 3
16 1 .{1048574 F}@column 1048572"#;

// Which world a line names, or the column at which it is bad.
fn told(alloc: Global, worlds: u8, bytes: &[u8]) -> Result<String, OutOfMemory>
    requires { IsWorldCount worlds }
{
    match parse_hub_line(alloc, worlds, bytes) {
        Ok(None) => Ok(String::from_str(alloc, "none")?),
        Ok(Some(line)) => Ok(format!(in alloc; "world {}", line.world)?),
        Err(LineStop::Bad { column }) => Ok(format!(in alloc; "column {column}")?),
        Err(LineStop::Memory) => Err(OutOfMemory),
    }
}

// The bytes of a line, in which `^` stands for a carriage return.
fn with_returns(alloc: Global, line: &str) -> Result<Vec<u8>, OutOfMemory> {
    let mut bytes = Vec::new(alloc);
    for byte in line.bytes() {
        bytes.push(if byte == b'^' { b'\r' } else { byte })?;
    }
    Ok(bytes)
}

// Puts what differs from a row.
fn put_row(found: &mut String, alloc: Global, worlds: u8, row: &str) -> Result<(), OutOfMemory>
    requires { IsWorldCount worlds }
{
    let row = repeated(alloc, row)?;
    let (line, want) = row.as_str().split_once('@').unwrap_or((row.as_str(), ""));
    let bytes = with_returns(alloc, line)?;
    let told = told(alloc, worlds, bytes.as_slice())?;
    if told.as_str() != want {
        write!(found, "{want} is {}\n", told.as_str())?;
    }
    Ok(())
}

// Puts what differs from a table.
fn put_table(found: &mut String, alloc: Global, worlds: u8, table: &str) -> Result<(), OutOfMemory>
    requires { IsWorldCount worlds }
{
    for row in table.split('\n') {
        put_row(found, alloc, worlds, row)?;
    }
    Ok(())
}

pub(crate) fn put_all(found: &mut String, alloc: Global) -> Result<(), OutOfMemory> {
    put_table(found, alloc, 2, TWO)?;
    put_table(found, alloc, 9, NINE)?;
    put_table(found, alloc, 16, SIXTEEN)
}
