ghost use Rattle.std.specs.Prelude.{◌≡◌, ◌≤◌, ◌∷◌, [], ◌<◌, ℕ, IsTrue, ◌↔◌, MatchOption, encode_utf8, string_bytes};
ghost use Rattle.std.specs.Char.{IsScalar};
ghost use Rattle.std.specs.Str.Lossy.{second_byte_min, second_byte_max};
ghost use Rattle.exact_reading.specs.Reading.{Right, seen, Always, Anything};
ghost use Rattle.task_model.specs.Terms.Token.{Escapes};
ghost use Rattle.task_model.specs.Terms.Value.{value_term};
ghost use Rattle.literal_text.specs.LiteralReading.{TextLiteral, Content, Part, Wide, WideEnd, Escape, HexEnd, HexDigit, InRange, NoBlank, width_of, IsRawByte};

use exact_reading::{ParseStop, expect, next, skip, strip, unexpected};
use std::alloc::Global;
use task_model::{TEXT_BYTE_LIMIT, TaskText, Value, hex_value};

/// A text, and the spaces behind it.
pub(crate) fn text(alloc: Global, bytes: &[u8]) -> Result<(Value, &[u8]), ParseStop>
    ensures { Right TextLiteral Always NoBlank bytes.now (seen (λ r. (value_term r.0, r.1.now)) result) }
{
    let rest = expect(bytes, b'"')?;
    let (content, rest) = content(alloc, rest)?;
    let Ok(content) = TaskText::of_string(content) else {
        return Err(ParseStop::Memory);
    };
    Ok((Value::Text(content), skip(rest, b' ')))
}

/// The content of a text, and the quote at its end.
fn content(alloc: Global, bytes: &[u8]) -> Result<(String, &[u8]), ParseStop>
    ensures { Right (Content []) Always Anything bytes.now (seen (λ r. (string_bytes r.0, r.1.now)) result) }
{
    let mut content = String::new(alloc);
    let mut rest = bytes;
    loop {
        if let Some(after) = strip(rest, b'"') {
            return Ok((content, after));
        }
        let (character, after) = part(TEXT_BYTE_LIMIT - content.len(), rest)?;
        content.push(character)?;
        rest = after;
    }
}

/// A character or an escape of a text's content, of at most so many bytes of content.
fn part(room: usize, bytes: &[u8]) -> Result<(char, &[u8]), ParseStop>
    ensures { Right (Part room) Always Anything bytes.now (seen (λ r. (encode_utf8 r.0, r.1.now)) result) }
{
    let Some((byte, rest)) = next(bytes) else {
        return Err(unexpected(bytes));
    };
    if room == 0 {
        return Err(unexpected(bytes));
    }
    if byte == b'\\' {
        return escape(rest);
    }
    if is_plain(byte) {
        return Ok((byte as char, rest));
    }
    wide(room, bytes)
}

/// Whether a byte is a character that stands for itself.
fn is_plain(byte: u8) -> bool
    ensures { IsTrue result ↔ IsRawByte byte }
{
    byte >= 0x20 && byte < 0x7f && byte != b'"' && byte != b'\\'
}

/// What stands behind the backslash of an escape.
fn escape(bytes: &[u8]) -> Result<(char, &[u8]), ParseStop>
    ensures { Right Escape Always Anything bytes.now (seen (λ r. (encode_utf8 r.0, r.1.now)) result) }
{
    let Some((letter, rest)) = next(bytes) else {
        return Err(unexpected(bytes));
    };
    if letter == b'x' {
        return hex(rest);
    }
    match escaped(letter) {
        Some(character) => Ok((character, rest)),
        None => Err(unexpected(bytes)),
    }
}

/// The character that a letter behind a backslash stands for.
fn escaped(letter: u8) -> Option<char>
    ensures { MatchOption result ((c : ℕ) → Escapes letter c → ⊥) (λ c. Escapes letter c) }
{
    match letter {
        b'"' => Some('"'),
        b'\\' => Some('\\'),
        b'n' => Some('\n'),
        b't' => Some('\t'),
        b'r' => Some('\r'),
        _ => None,
    }
}

/// The two digits of an escape by a number.
fn hex(bytes: &[u8]) -> Result<(char, &[u8]), ParseStop>
    ensures { Right HexEnd Always Anything bytes.now (seen (λ r. (encode_utf8 r.0, r.1.now)) result) }
{
    let (high, rest) = hex_digit(7, bytes)?;
    let (low, rest) = hex_digit(15, rest)?;
    Ok(((high * 16 + low) as char, rest))
}

/// A hexadecimal digit of a value up to a limit.
fn hex_digit(limit: u8, bytes: &[u8]) -> Result<(u8, &[u8]), ParseStop>
    ensures { Right (HexDigit limit) Always Anything bytes.now (seen (λ r. (r.0, r.1.now)) result) }
{
    let Some((digit, rest)) = next(bytes) else {
        return Err(unexpected(bytes));
    };
    match hex_value(digit as char) {
        Some(value) if value <= limit => Ok((value, rest)),
        _ => Err(unexpected(bytes)),
    }
}

/// A character of two bytes or more.
fn wide(room: usize, bytes: &[u8]) -> Result<(char, &[u8]), ParseStop>
    ensures { Right (Wide room) Always Anything bytes.now (seen (λ r. (encode_utf8 r.0, r.1.now)) result) }
{
    let Some((lead, rest)) = next(bytes) else {
        return Err(unexpected(bytes));
    };
    let width = width(lead);
    if width > room {
        return Err(unexpected(bytes));
    }
    match width {
        2 => two(lead, rest),
        3 => three(lead, rest),
        4 => four(lead, rest),
        _ => Err(unexpected(bytes)),
    }
}

/// How many bytes a character has that begins with this one, or 0.
fn width(lead: u8) -> usize
    ensures { result ≡ width_of lead }
{
    match lead {
        0xc2..=0xdf => 2,
        0xe0..=0xef => 3,
        0xf0..=0xf4 => 4,
        _ => 0,
    }
}

fn two(lead: u8, bytes: &[u8]) -> Result<(char, &[u8]), ParseStop>
    requires { width_of lead ≡ 2 }
    ensures { Right (WideEnd lead) Always Anything bytes.now (seen (λ r. (encode_utf8 r.0, r.1.now)) result) }
{
    let (second, rest) = in_range(0x80, 0xbf, bytes)?;
    let code = (lead as u32 - 0xc0) * 64 + (second as u32 - 0x80);
    Ok((character(code), rest))
}

fn three(lead: u8, bytes: &[u8]) -> Result<(char, &[u8]), ParseStop>
    requires { width_of lead ≡ 3 }
    ensures { Right (WideEnd lead) Always Anything bytes.now (seen (λ r. (encode_utf8 r.0, r.1.now)) result) }
{
    let (second, rest) = in_range(least_second(lead), greatest_second(lead), bytes)?;
    let (third, rest) = in_range(0x80, 0xbf, rest)?;
    let code = ((lead as u32 - 0xe0) * 64 + (second as u32 - 0x80)) * 64 + (third as u32 - 0x80);
    Ok((character(code), rest))
}

fn four(lead: u8, bytes: &[u8]) -> Result<(char, &[u8]), ParseStop>
    requires { width_of lead ≡ 4 }
    ensures { Right (WideEnd lead) Always Anything bytes.now (seen (λ r. (encode_utf8 r.0, r.1.now)) result) }
{
    let (second, rest) = in_range(least_second(lead), greatest_second(lead), bytes)?;
    let (third, rest) = in_range(0x80, 0xbf, rest)?;
    let (fourth, rest) = in_range(0x80, 0xbf, rest)?;
    let front = (lead as u32 - 0xf0) * 64 + (second as u32 - 0x80);
    let code = (front * 64 + (third as u32 - 0x80)) * 64 + (fourth as u32 - 0x80);
    Ok((character(code), rest))
}

fn character(code: u32) -> char
    requires { IsScalar code }
    ensures { result ≡ code }
{
    match char::from_u32(code) {
        Some(character) => character,
        None => unreachable!(),
    }
}

/// The least byte that may follow the first of a character.
fn least_second(lead: u8) -> u8
    ensures { result ≡ second_byte_min lead }
{
    match lead {
        0xe0 => 0xa0,
        0xf0 => 0x90,
        _ => 0x80,
    }
}

/// The greatest byte that may follow the first of a character.
fn greatest_second(lead: u8) -> u8
    ensures { result ≡ second_byte_max lead }
{
    match lead {
        0xed => 0x9f,
        0xf4 => 0x8f,
        _ => 0xbf,
    }
}

/// A byte in a range.
fn in_range(low: u8, high: u8, bytes: &[u8]) -> Result<(u8, &[u8]), ParseStop>
    ensures { Right (InRange low high) Always Anything bytes.now (seen (λ r. (r.0, r.1.now)) result) }
{
    match next(bytes) {
        Some((byte, rest)) if low <= byte && byte <= high => Ok((byte, rest)),
        _ => Err(unexpected(bytes)),
    }
}
