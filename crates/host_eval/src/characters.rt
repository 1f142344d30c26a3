ghost use Rattle.std.specs.Prelude.{◌≡◌, ◌<◌, ◌≤◌, ◌^◌, true, ◌∷◌, ◌++◌, length, take, drop, IfOk, string_bytes};
ghost use Rattle.task_model.specs.Syntax.Characters.{continues, characters_of, cut_text};
ghost use Rattle.task_model.specs.Syntax.Characters as rules;
ghost use Rattle.host_eval.specs.ValueWords as words;

use std::alloc::{AllocError, Global};
use task_model::{OutOfMemory, TEXT_BYTE_LIMIT, TaskText};

fn continues(byte: u8) -> bool
    ensures { result ≡ rules.continues byte }
{
    128 <= byte && byte < 192
}

// Whether a character begins here, or the text ends.
fn starts(bytes: &[u8]) -> bool
    ensures { result ≡ words.starts bytes.now }
{
    match bytes {
        [] => true,
        [byte, ..] => !continues(*byte),
    }
}

/// How many characters a text has.
pub fn characters(text: &str) -> usize
    ensures count { result ≡ length (characters_of text.now) }
    ensures small { result < 2 ^ 63 }
{
    let mut rest = text.as_bytes();
    let mut count = 0;
    while let [_, more @ ..] = rest {
        rest = more;
        if starts(rest) {
            count += 1;
        }
    }
    count
}

// How many bytes the first character has.
fn first_size(bytes: &[u8]) -> usize
    requires { 0 < length bytes.now }
    ensures some { (0 < result) × (result ≤ length bytes.now) }
    ensures first { characters_of bytes.now ≡ take result bytes.now ∷ characters_of (drop result bytes.now) }
    ensures next { words.starts (drop result bytes.now) ≡ true }
{
    let rest = &bytes[1..];
    if starts(rest) {
        1
    } else {
        1 + first_size(rest)
    }
}

/// Two texts in one, cut after the last whole character within the limit.
pub fn cut_join(alloc: Global, first: &str, second: &str) -> Result<TaskText, OutOfMemory>
    ensures { IfOk result (λ t. t ≡ cut_text (first.now ++ second.now)) }
{
    let text = joined(alloc, first, second)?;
    TaskText::of(alloc, cut(text.as_str()))
}

fn joined(alloc: Global, first: &str, second: &str) -> Result<String, AllocError>
    ensures { IfOk result (λ t. string_bytes t ≡ first.now ++ second.now) }
{
    let mut text = String::from_str(alloc, first)?;
    text.push_str(second)?;
    Ok(text)
}

// The whole characters in front that are within the limit together.
fn cut(text: &str) -> &str
    ensures { result.now ≡ cut_text text.now }
{
    let end = fitting(text.as_bytes());
    if end == 0 { "" } else { &text[..end] }
}

fn fitting(bytes: &[u8]) -> usize
    ensures some { result ≤ length bytes.now }
    ensures fitting { cut_text bytes.now ≡ take result bytes.now }
    ensures next { 0 < result → words.starts (drop result bytes.now) ≡ true }
{
    let mut end = 0;
    let mut rest = bytes;
    while let [_, ..] = rest {
        let size = first_size(rest);
        if size > TEXT_BYTE_LIMIT - end {
            return end;
        }
        end += size;
        rest = &rest[size..];
    }
    end
}
