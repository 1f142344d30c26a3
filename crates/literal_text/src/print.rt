ghost use Rattle.std.specs.Prelude.{◌≡◌, ◌≤◌, ◌<◌, ◌/◌, ◌%◌, [], ◌∷◌, ◌++◌, IfOk, OnOk, string_bytes, encode_utf8, codes, map, true, if◌then◌else◌};
ghost use Rattle.task_model.specs.Terms.Basic.{BasicTerm, basic_term};
ghost use Rattle.task_model.specs.Terms.Value.{value_term, value_has, list_value, as_values};
ghost use Rattle.task_model.specs.Syntax.Literal.{basic_text, value_text, escaped_all, hex_digit};
ghost use Rattle.task_model.specs.Checking.TypeParts.{symbols_of};
ghost use Rattle.literal_text.specs.Literals.{IsLiteral, IsLiteralOf, IsWithinLiteralLimits, levels_of};
ghost use Rattle.literal_text.specs.Types.{IsTypeName};
ghost use Rattle.task_model.specs.Terms.Held.{IsHeld, AreHeld};

use itoa::Buffer;
use std::alloc::Global;
use task_model::{Basic, OutOfMemory, TaskText, Value};

/// The literal of a value.
pub fn print_value(alloc: Global, v: &Value) -> Result<TaskText, OutOfMemory>
    ensures text { IfOk result (λ t. t ≡ value_text (value_term v.now)) }
    // Read as a literal of any type, it is the value, if that is within the limits.
    ensures any { IsWithinLiteralLimits (value_term v.now) → levels_of (value_term v.now) ≤ 64
        → IfOk result (λ t. IsLiteral t (value_term v.now)) }
    // Read as a literal of a type of at most 64 symbols that the value has, it is the value.
    ensures typed { (b : BasicTerm) → symbols_of b ≤ 64 → value_has (value_term v.now) b ≡ true
        → IfOk result (λ t. IsLiteralOf b t (value_term v.now)) }
{
    let mut text = String::new(alloc);
    write_value(&mut text, v)?;
    TaskText::of_string(text)
}

/// The name of a type.
pub fn print_basic(alloc: Global, b: &Basic) -> Result<TaskText, OutOfMemory>
    ensures text { IfOk result (λ t. t ≡ basic_text (basic_term b.now)) }
    // Read, it is the type, if that has at most 64 symbols.
    ensures small { symbols_of (basic_term b.now) ≤ 64 → IfOk result (λ t. IsTypeName t (basic_term b.now)) }
{
    let mut text = String::new(alloc);
    write_basic(&mut text, b)?;
    TaskText::of_string(text)
}

#[cycle(write)]
fn write_value(text: &mut String, v: &Value) -> Result<(), OutOfMemory>
    ensures text { OnOk result (string_bytes text.new ≡ string_bytes text.old ++ value_text (value_term v.now)) }
    ensures held { OnOk result (IsHeld (value_term v.now)) }
{
    match v {
        Value::Unit => put(text, "()"),
        Value::Bool(true) => put(text, "true"),
        Value::Bool(false) => put(text, "false"),
        Value::Int(i) => put(text, Buffer::new().format(*i)),
        Value::Text(content) => write_text(text, content.as_str()),
        Value::Pair(first, second) => {
            put(text, "(")?;
            write_value(text, first)?;
            put(text, ", ")?;
            write_value(text, second)?;
            put(text, ")")
        }
        Value::List(items) => write_list(text, items.as_slice()),
    }
}

#[cycle(write)]
fn write_list(text: &mut String, items: &[Value]) -> Result<(), OutOfMemory>
    ensures text { OnOk result (string_bytes text.new ≡ string_bytes text.old
        ++ value_text (list_value (as_values (map value_term items.now)))) }
    ensures held { OnOk result (AreHeld (as_values (map value_term items.now))) }
{
    let mut first = true;
    for item in items {
        put(text, opening(first))?;
        write_value(text, item)?;
        first = false;
    }
    put(text, closing(first))
}

/// What stands in front of an element.
fn opening(first: bool) -> &'static str
    ensures { result.now ≡ (if first then codes "[" else codes ", ") }
{
    if first { "[" } else { ", " }
}

/// What ends a list, where the first element would still come or came.
fn closing(first: bool) -> &'static str
    ensures { result.now ≡ (if first then codes "[]" else codes "]") }
{
    if first { "[]" } else { "]" }
}

fn write_text(text: &mut String, content: &str) -> Result<(), OutOfMemory>
    ensures { OnOk result (string_bytes text.new ≡ string_bytes text.old ++ (34 ∷ (escaped_all content.now ++ (34 ∷ [])))) }
{
    put(text, "\"")?;
    for character in content.chars() {
        write_character(text, character)?;
    }
    put(text, "\"")
}

fn write_character(text: &mut String, character: char) -> Result<(), OutOfMemory>
    ensures { OnOk result (string_bytes text.new ≡ string_bytes text.old ++ escaped_all (encode_utf8 character)) }
{
    match character {
        '"' => put(text, "\\\""),
        '\\' => put(text, "\\\\"),
        '\n' => put(text, "\\n"),
        '\t' => put(text, "\\t"),
        '\r' => put(text, "\\r"),
        '\0'..='\x1f' | '\x7f' => write_hex(text, character as u8),
        _ => push(text, character),
    }
}

/// An escape by a number.
fn write_hex(text: &mut String, byte: u8) -> Result<(), OutOfMemory>
    requires { byte < 128 }
    ensures { OnOk result (string_bytes text.new ≡ string_bytes text.old
        ++ (codes "\\x" ++ hex_digit (byte / 16) ∷ hex_digit (byte % 16) ∷ [])) }
{
    put(text, "\\x")?;
    push(text, digit(byte / 16))?;
    push(text, digit(byte % 16))
}

/// A hexadecimal digit in lower case.
fn digit(value: u8) -> char
    requires { value < 16 }
    ensures { result ≡ hex_digit value }
{
    if value < 10 {
        (b'0' + value) as char
    } else {
        (87 + value) as char
    }
}

fn write_basic(text: &mut String, b: &Basic) -> Result<(), OutOfMemory>
    ensures { OnOk result (string_bytes text.new ≡ string_bytes text.old ++ basic_text (basic_term b.now)) }
{
    match b {
        Basic::Unit => put(text, "unit"),
        Basic::Bool => put(text, "bool"),
        Basic::Int => put(text, "int"),
        Basic::Text => put(text, "text"),
        Basic::Pair(first, second) => {
            put(text, "(")?;
            write_basic(text, first)?;
            put(text, ", ")?;
            write_basic(text, second)?;
            put(text, ")")
        }
        Basic::List(item) => {
            put(text, "[")?;
            write_basic(text, item)?;
            put(text, "]")
        }
    }
}

fn put(text: &mut String, piece: &str) -> Result<(), OutOfMemory>
    ensures { OnOk result (string_bytes text.new ≡ string_bytes text.old ++ piece.now) }
{
    Ok(text.push_str(piece)?)
}

fn push(text: &mut String, character: char) -> Result<(), OutOfMemory>
    ensures { OnOk result (string_bytes text.new ≡ string_bytes text.old ++ encode_utf8 character) }
{
    Ok(text.push(character)?)
}
