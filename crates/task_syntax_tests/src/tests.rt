//! Tokens and faults of sources.

use std::alloc::{AllocError, Global};
use std::test::Fail;
use task_syntax::{LexStop, Token, TokenKind, lex};

fn put_kind(text: &mut String, kind: &TokenKind) -> Result<(), AllocError> {
    match kind {
        TokenKind::Name => text.push_str("name"),
        TokenKind::Keyword(keyword) => text.push_str(keyword.spelling()),
        TokenKind::Number(number) => write!(text, "{number}"),
        TokenKind::Text(content) => {
            text.push('"')?;
            text.push_str(content.as_str())?;
            text.push('"')
        }
        TokenKind::Symbol(symbol) => text.push_str(symbol.spelling()),
    }
}

// Tokens, each behind its span.
fn tokens_text(alloc: Global, tokens: &[Token]) -> Result<String, AllocError> {
    let mut text = String::new(alloc);
    for token in tokens {
        write!(text, "{}-{} ", token.from, token.to)?;
        put_kind(&mut text, &token.kind)?;
        text.push(' ')?;
    }
    Ok(text)
}

/// The tokens of a source, or its fault.
fn shown(alloc: Global, source: &str) -> Result<String, AllocError> {
    match lex(alloc, source) {
        Ok(tokens) => tokens_text(alloc, tokens.list.as_slice()),
        Err(LexStop::Fault { place, kind }) => format!(in alloc; "{kind:?} at {place}"),
        Err(LexStop::Memory) => Err(AllocError),
    }
}

// Puts a source and what is shown of it, where that isn't what is wanted.
fn put_difference(
    found: &mut String,
    alloc: Global,
    source: &str,
    want: &str,
) -> Result<(), AllocError> {
    let told = shown(alloc, source)?;
    if told.as_str().trim_end() != want.trim_end() {
        write!(found, "{source:?} is {}\n", told.as_str())?;
    }
    Ok(())
}

/// Words, numbers and comments, each before its tokens with their spans, or its fault.
const WORDS: &str = " => 

 \t\r\n => 

_ => BadChar at 0

_a => BadChar at 0

a_ => 0-2 name

a _ => BadChar at 2

if iff i f => 0-2 if 3-6 name 7-8 name 9-10 name

in1 fun\u{e9} => 0-3 name 4-9 name

If nil => 0-2 name 3-6 nil

\u{3b1} \u{6f22}\u{5b57} x\u{301} => 0-2 name 3-9 name 10-13 name

\u{301} => BadChar at 0

a \u{1f600} => BadChar at 2

a\u{1f600} => BadChar at 1

\u{a0} => BadChar at 0

\u{b} => BadChar at 0

\u{feff}a => BadChar at 0

12a => 0-2 12 2-3 name

a12 => 0-3 name

\u{661} => BadChar at 0

0007 => 0-4 7

9223372036854775807 => 0-19 9223372036854775807

9223372036854775808 => WideNumber at 0

 99999999999999999999 _ => WideNumber at 1

a # b => 0-1 name

# \u{e9}\r b => 

#\nb# => 2-3 name

a&b => BadChar at 1

&&& => BadChar at 2

<& => BadChar at 1

' => BadChar at 0

\\ => BadChar at 0";

/// Literals of texts.
const TEXTS: &str = "\"\" => 0-2 \"\"

\"#\" # \" => 0-3 \"#\"

\"a\"\"b\"1 => 0-3 \"a\" 3-6 \"b\" 6-7 1

\"\u{e9}\u{80}\" => 0-6 \"\u{e9}\u{80}\"

\"\\\"\\\\\\n\\t\\r\" => 0-12 \"\"\\\n\t\r\"

\"\\x00\\x4a\\x4A\\x7f\" => 0-18 \"\0JJ\u{7f}\"

\"\\x80\" => BadEscape at 1

\"\\q\" => BadEscape at 1

\"\\X41\" => BadEscape at 1

\"\\x4\" => BadEscape at 1

\"\\x4g\" => BadEscape at 1

\"\\ => BadEscape at 1

\"\\x4 => BadEscape at 1

\"\u{e9}\\U000000e9\" => BadEscape at 3

\"a\nb\" => BadChar at 2

\"a\tb => BadChar at 2

\"\u{7f}\" => BadChar at 1

\"\\q\n\" => BadEscape at 1

\"\n\\q\" => BadChar at 1

\" => OpenText at 0

 \"a\\\" => OpenText at 1

\"a\" \"# b => OpenText at 4

 \"\\q => BadEscape at 2

\"a\" _ \" => BadChar at 4

_ \"\\q\" => BadChar at 0";

// Puts what differs from a table.
fn put_table(found: &mut String, alloc: Global, table: &str) -> Result<(), AllocError> {
    for row in table.split("\n\n") {
        let (source, want) = row.split_once(" => ").unwrap_or((row, ""));
        put_difference(found, alloc, source, want)?;
    }
    Ok(())
}

// The signs, from the longest to the shortest, so that the first one at the front of some bytes is the longest there.
const SIGNS: [&str; 31] = [
    ">>=", ">>?", "<&>", "<|>", "<?>", ":=", "::", "==", "!=", "<=", ">=", "++", "->", "||", "&&",
    "(", ")", "[", "]", ",", ":", ";", ".", "=", "!", "<", ">", "+", "-", "*", "|",
];

/// The longest sign at the front of these bytes, or none.
fn longest(bytes: &[u8]) -> &'static str {
    for sign in &SIGNS {
        if bytes.starts_with(sign.as_bytes()) {
            return sign;
        }
    }
    ""
}

/// The longest sign at each place, or the first place with none.
fn cut(alloc: Global, source: &str) -> Result<String, AllocError> {
    let mut text = String::new(alloc);
    let mut place = 0;
    for _ in 0..source.len() {
        if place < source.len() {
            let sign = longest(&source.as_bytes()[place..]);
            if sign.is_empty() {
                return format!(in alloc; "BadChar at {place}");
            }
            let end = source.len().min(place.saturating_add(sign.len()));
            write!(text, "{place}-{end} {sign} ")?;
            place = end;
        }
    }
    Ok(text)
}

// Puts what differs where the one sign stands right behind the other.
fn put_signs(
    found: &mut String,
    alloc: Global,
    first: &str,
    second: &str,
) -> Result<(), AllocError> {
    let source = format!(in alloc; "{first}{second}")?;
    let want = cut(alloc, source.as_str())?;
    put_difference(found, alloc, source.as_str(), want.as_str())
}

// Puts what differs of signs alone, and of each two side by side.
fn put_all_signs(found: &mut String, alloc: Global) -> Result<(), AllocError> {
    for first in &SIGNS {
        put_signs(found, alloc, first, "")?;
        for second in &SIGNS {
            put_signs(found, alloc, first, second)?;
        }
    }
    Ok(())
}

/// A character so many times between two texts.
fn repeated(
    alloc: Global,
    front: &str,
    character: &str,
    times: usize,
    back: &str,
) -> Result<String, AllocError> {
    let mut text = String::from_str(alloc, front)?;
    for _ in 0..times {
        text.push_str(character)?;
    }
    text.push_str(back)?;
    Ok(text)
}

/// A front, a character with its number, a back, and what is shown of them all, in which `…` stands for the characters.
const LONG_SOURCES: &str = "\"@a@65536@\"@0-65538 \"…\"

\"@a@65535@\\x41\"@0-65541 \"…A\"

\"\\n@a@65534@\\\\\"@0-65540 \"\n…\\\"

\"@\u{e9}@32768@\"@0-65538 \"…\"

\"@a@65537@\"@LongText at 0

 \"@a@65535@\\n\\x41\"@LongText at 1

\"a@\u{e9}@32768@\"@LongText at 0

\"@a@70000@@OpenText at 0

\"@a@70000@\\q\"@BadEscape at 70001

\"@a@70000@\n\"@BadChar at 70001

@9@10000@@WideNumber at 0

@0@9999@7@0-10000 7

@a@10000@#@0-10000 name";

// What is shown of a source is this, in which `…` stands for its characters.
fn long_want(
    alloc: Global,
    want: &str,
    character: &str,
    times: usize,
) -> Result<String, AllocError> {
    match want.split_once('…') {
        Some((from, to)) => repeated(alloc, from, character, times, to),
        None => String::from_str(alloc, want),
    }
}

// The next field of a row, and what stands behind it.
fn field(row: &str) -> (&str, &str) {
    row.split_once('@').unwrap_or((row, ""))
}

// Puts what differs from a row.
fn put_long(found: &mut String, alloc: Global, row: &str) -> Result<(), AllocError> {
    let (front, rest) = field(row);
    let (character, rest) = field(rest);
    let (times, rest) = field(rest);
    let (back, want) = field(rest);
    let times = times.parse::<usize>().unwrap_or(0);
    let source = repeated(alloc, front, character, times, back)?;
    let want = long_want(alloc, want, character, times)?;
    put_difference(found, alloc, source.as_str(), want.as_str())
}

// Puts what differs of everything here.
fn put_all(found: &mut String, alloc: Global) -> Result<(), AllocError> {
    put_table(found, alloc, WORDS)?;
    put_table(found, alloc, TEXTS)?;
    put_all_signs(found, alloc)?;
    for row in LONG_SOURCES.split("\n\n") {
        put_long(found, alloc, row)?;
    }
    Ok(())
}

#[test]
fn tokens_and_faults(rt: HostRuntime) -> Result<(), Fail> {
    let mut found = String::new(rt.alloc());
    put_all(&mut found, rt.alloc())?;
    assert!(rt; found.is_empty(), "{}", found.as_str());
    Ok(())
}
