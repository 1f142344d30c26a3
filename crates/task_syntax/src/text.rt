ghost use Rattle.std.specs.Prelude.{◌≡◌, ◌≢◌, ◌∷◌, ◌++◌, ◌<◌, [], true, ℕ, List, MatchOption, MatchResult, encode_utf8};
ghost use Rattle.std.specs.Str.{all_scalars};
ghost use Rattle.task_model.specs.Terms.Text.{Text};
ghost use Rattle.task_model.specs.Terms.Token.{hex, PartIs};
ghost use Rattle.task_syntax.specs.Fault.{IsNoEscape};
ghost use Rattle.task_syntax.specs.Front.{LexStopsAt};
ghost use Rattle.task_syntax.specs.TextParts.{PartStands, PartFails, TextStands};

use crate::cursor::first_char;
use crate::stop::{LexKind, Stop};
use std::alloc::Global;
use task_model::{TEXT_BYTE_LIMIT, TaskText, hex_value};

/// The character that two digits write, and what stands after them.
fn hex_escape(text: &str) -> Option<(char, &str)>
    ensures { MatchOption result
        ((a b : ℕ) (t back : Text) → PartIs (hex a b) t → text.now ≡ a ∷ b ∷ back → ⊥)
        (λ r. (a : ℕ) × (b : ℕ) × (text.now ≡ a ∷ b ∷ r.1.now) × PartIs (hex a b) (encode_utf8 r.0)) }
{
    let (first, rest) = first_char(text)?;
    let (second, rest) = first_char(rest)?;
    let high = hex_value(first)?;
    let low = hex_value(second)?;
    let code = high * 16 + low;
    if code < 128 {
        Some((char::from(code), rest))
    } else {
        None
    }
}

/// The character that an escape stands for, and what stands after it. The backslash was passed.
fn escape(text: &str) -> Option<(char, &str)>
    ensures { MatchOption result (IsNoEscape (92 ∷ text.now)) (λ r. PartStands (92 ∷ text.now) r.0 r.1.now) }
{
    let (letter, rest) = first_char(text)?;
    match letter {
        '"' => Some(('"', rest)),
        '\\' => Some(('\\', rest)),
        'n' => Some(('\n', rest)),
        't' => Some(('\t', rest)),
        'r' => Some(('\r', rest)),
        'x' => hex_escape(rest),
        _ => None,
    }
}

/// The character that a part of a text stands for, and what stands after the part, which begins with this character.
fn part(first: char, more: &str) -> Result<(char, &str), LexKind>
    requires scalar { all_scalars (first ∷ []) ≡ true }
    requires no_quote { first ≢ 34 }
    ensures { MatchResult result
        (λ r. PartStands (encode_utf8 first ++ more.now) r.0 r.1.now)
        (λ kind. PartFails (encode_utf8 first ++ more.now) kind) }
{
    if first == '\\' {
        return escape(more).ok_or(LexKind::BadEscape);
    }
    if first < ' ' || first == '\x7f' {
        return Err(LexKind::BadChar);
    }
    Ok((first, more))
}

/// The content of the text at the front, whose first quote was passed, and what stands after it.
pub(crate) fn text_at<'s>(
    alloc: Global,
    text: &'s str,
    inside: &'s str,
) -> Result<(TaskText, &'s str), Stop<'s>>
    requires { text.now ≡ 34 ∷ inside.now }
    ensures { MatchResult result
        (λ r. TextStands text.now r.0 r.1.now)
        (λ stop. LexStopsAt text.now stop) }
{
    let mut content = String::new(alloc);
    let mut rest = inside;
    while let Some((first, more)) = first_char(rest) {
        if first == '"' {
            if content.len() > TEXT_BYTE_LIMIT {
                return Err(Stop::Fault {
                    kind: LexKind::LongText,
                    rest: text,
                });
            }
            let Ok(content) = TaskText::of_string(content) else {
                return Err(Stop::Memory);
            };
            return Ok((content, more));
        }
        match part(first, more) {
            Ok((character, after)) => {
                if content.push(character).is_err() {
                    return Err(Stop::Memory);
                }
                rest = after;
            }
            Err(kind) => return Err(Stop::Fault { kind, rest }),
        }
    }
    Err(Stop::Fault {
        kind: LexKind::OpenText,
        rest: text,
    })
}
