//! A table of literals and names of types: what is read, where it stops, and what is printed.

use literal_text::{LiteralStop, print_basic, print_value, read_any, read_basic, read_value};
use std::alloc::{AllocError, Global};
use std::test::Fail;
use task_model::{OutOfMemory, TaskText, Value};

fn stop_told(alloc: Global, stop: &LiteralStop) -> Result<String, OutOfMemory> {
    match stop {
        LiteralStop::Bad(bad) => Ok(format!(in alloc; "place {}", bad.place)?),
        LiteralStop::Memory => Err(OutOfMemory),
    }
}

fn value_told(alloc: Global, read: &Result<Value, LiteralStop>) -> Result<String, OutOfMemory> {
    match read {
        Ok(v) => Ok(String::from_str(alloc, print_value(alloc, v)?.as_str())?),
        Err(stop) => stop_told(alloc, stop),
    }
}

fn type_told(alloc: Global, bytes: &[u8]) -> Result<String, OutOfMemory> {
    match &read_basic(alloc, bytes) {
        Ok(b) => Ok(String::from_str(alloc, print_basic(alloc, b)?.as_str())?),
        Err(stop) => stop_told(alloc, stop),
    }
}

fn typed_told(alloc: Global, bytes: &[u8], name: &str) -> Result<String, OutOfMemory> {
    match &read_basic(alloc, name.as_bytes()) {
        Ok(b) => value_told(alloc, &read_value(alloc, bytes, b)),
        Err(stop) => stop_told(alloc, stop),
    }
}

// The text that bytes are printed as, or the place where they are bad: as the name of a type, as a value of any type, or of a given one.
fn told(alloc: Global, kind: &str, bytes: &[u8]) -> Result<String, OutOfMemory> {
    match kind {
        "type" => type_told(alloc, bytes),
        "any" => value_told(alloc, &read_any(alloc, bytes)),
        name => typed_told(alloc, bytes, name),
    }
}

// Puts what bytes are told as, where that isn't what is wanted.
fn put_difference(
    found: &mut String,
    alloc: Global,
    kind: &str,
    bytes: &[u8],
    want: &str,
) -> Result<(), OutOfMemory> {
    let told = told(alloc, kind, bytes)?;
    if told.as_str() != want {
        write!(found, "{kind} {want} is {}\n", told.as_str())?;
    }
    Ok(())
}

/// What the bytes are to be, the bytes, and what they are printed as, or the place where they are bad.
const ROWS: &str = r#"int@4x@place 1
int@ -07 @-7
[int]@[1, true@place 4
int@-9223372036854775808@-9223372036854775808
int@-9223372036854775809@place 19
int@9223372036854775807@9223372036854775807
int@9223372036854775808@place 18
int@-0@0
int@007@7
int@- 5@place 1
int@4 2@place 2
(int, text)@ ( 1 , "a" ) @(1, "a")
(int, int)@(1,2,3)@place 4
(int, int)@()@place 1
[[bool]]@[]@[]
unit@true@place 0
bool@@place 0
any@@place 0
any@  @place 2
any@ ( ) @()
any@[ ]@[]
any@(1,2,3)@place 4
any@[1,true , "x",[( ),false] ]@[1, true, "x", [(), false]]
any@tr ue@place 2
any@[1,]@place 3
any@"\n\t\r\"\\\x7f\x4A"@"\n\t\r\"\\\x7fJ"
any@"\x80"@place 3
any@"\x7g"@place 4
any@"\X41"@place 2
type@in@place 2
type@@place 0
type@ ( [ unit ] ,( bool,text) ) @([unit], (bool, text))
type@()@place 1
type@(int,int,int)@place 8"#;

// Bytes that stand in no table, and what they are told as.
const BYTES: &[(&[u8], &str)] = &[
    (b"\"\xc3(\"", "place 2"),
    (b"\"\xc0\xaf\"", "place 1"),
    (b"\"\xe0\x80\x80\"", "place 2"),
    (b"\"\xed\xa0\x80\"", "place 2"),
    (b"\"\xf4\x90\x80\x80\"", "place 2"),
    (b"\"\xf0\x9f\x98\x80\"", "\"\u{1f600}\""),
    (b"\"\x7f\"", "place 1"),
    (b"\"a\nb\"", "place 2"),
];

fn put_rows(found: &mut String, alloc: Global) -> Result<(), OutOfMemory> {
    for row in ROWS.split('\n') {
        let (kind, rest) = field(row);
        let (bytes, want) = field(rest);
        put_difference(found, alloc, kind, bytes.as_bytes(), want)?;
    }
    for (bytes, want) in BYTES {
        put_difference(found, alloc, "any", bytes, want)?;
    }
    Ok(())
}

// The next field of a row, and what stands behind it.
fn field(row: &str) -> (&str, &str) {
    row.split_once('@').unwrap_or((row, ""))
}

/// What the texts are to be, a front, a piece with its number, a back with its number, and where they are bad, if they are.
const LIMITS: &str = r#"any@"@a@65536@"@1@
any@"@a@65537@"@1@place 65537
any@"@a@65535@é"@1@place 65536
any@[0@, 0@1023@]@1@
any@[0@,0@1024@]@1@place 2048
any@@[@64@]@64@
any@@[@65@]@65@place 64
any@@[@64@0]@1@place 64
type@@[@64@int@1@place 63"#;

// A front, a piece so many times, and a back so many times.
fn long(
    alloc: Global,
    texts: (&str, &str, &str),
    counts: (u32, u32),
) -> Result<String, AllocError> {
    let (front, piece, back) = texts;
    let mut text = String::from_str(alloc, front)?;
    for _ in 0..counts.0 {
        text.push_str(piece)?;
    }
    for _ in 0..counts.1 {
        text.push_str(back)?;
    }
    Ok(text)
}

// Puts what differs from a row of limits.
fn put_limit(found: &mut String, alloc: Global, row: &str) -> Result<(), OutOfMemory> {
    let (kind, rest) = field(row);
    let (front, rest) = field(rest);
    let (piece, rest) = field(rest);
    let (many, rest) = field(rest);
    let (back, rest) = field(rest);
    let (backs, want) = field(rest);
    let counts = (
        many.parse::<u32>().unwrap_or(0),
        backs.parse::<u32>().unwrap_or(0),
    );
    let text = long(alloc, (front, piece, back), counts)?;
    let want = if want.is_empty() { text.as_str() } else { want };
    put_difference(found, alloc, kind, text.as_bytes(), want)
}

// The name of a type of the most levels.
fn deepest(alloc: Global) -> Result<String, AllocError> {
    let front = long(alloc, ("", "[", "int"), (63, 1))?;
    long(alloc, (front.as_str(), "]", ""), (63, 0))
}

fn put_limits(found: &mut String, alloc: Global) -> Result<(), OutOfMemory> {
    for row in LIMITS.split('\n') {
        put_limit(found, alloc, row)?;
    }
    let most = deepest(alloc)?;
    put_difference(found, alloc, "type", most.as_bytes(), most.as_str())
}

// What a text of one character is printed as.
fn printed(alloc: Global, text: &str) -> Result<TaskText, OutOfMemory> {
    print_value(alloc, &Value::Text(TaskText::of(alloc, text)?))
}

// Puts what it is printed as, where that isn't what is wanted.
fn put_printed(
    found: &mut String,
    alloc: Global,
    text: &str,
    want: &str,
) -> Result<(), OutOfMemory> {
    let printed = printed(alloc, text)?;
    if printed.as_str() != want {
        write!(found, "{want} is {}\n", printed.as_str())?;
    }
    Ok(())
}

// The text of a control character, and what it is to be printed as.
fn control(alloc: Global, code: u8) -> Result<(String, String), AllocError> {
    let text = format!(in alloc; "{}", code as char)?;
    let want = match code {
        9 => format!(in alloc; "\"\\t\""),
        10 => format!(in alloc; "\"\\n\""),
        13 => format!(in alloc; "\"\\r\""),
        _ => format!(in alloc; "\"\\x{code:02x}\""),
    };
    Ok((text, want?))
}

const CHARACTERS: &[(&str, &str)] = &[
    ("\u{7f}", "\"\\x7f\""),
    ("\u{1f600}", "\"\u{1f600}\""),
    ("\"\\", "\"\\\"\\\\\""),
];

fn put_characters(found: &mut String, alloc: Global) -> Result<(), OutOfMemory> {
    for code in 0u8..32 {
        let (text, want) = control(alloc, code)?;
        put_printed(found, alloc, text.as_str(), want.as_str())?;
    }
    for (text, want) in CHARACTERS {
        put_printed(found, alloc, text, want)?;
    }
    Ok(())
}

fn put_all(found: &mut String, alloc: Global) -> Result<(), OutOfMemory> {
    put_rows(found, alloc)?;
    put_limits(found, alloc)?;
    put_characters(found, alloc)
}

#[test]
fn literals_types_and_texts(rt: HostRuntime) -> Result<(), Fail> {
    let mut found = String::new(rt.alloc());
    put_all(&mut found, rt.alloc())?;
    assert!(rt; found.is_empty(), "{}", found.as_str());
    Ok(())
}
