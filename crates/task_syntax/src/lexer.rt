ghost use Rattle.std.specs.Prelude.{◌≡◌, ◌≢◌, ◌+◌, ◌≤◌, [], ◌∷◌, false, ℕ, List, length, MatchResult, IfOk, IfErr};
ghost use Rattle.task_model.specs.Terms.Text.{Text};
ghost use Rattle.task_model.specs.Terms.Token.{TokenTerm, HasTokens};
ghost use Rattle.task_syntax.specs.Fault.{IsLexStop};
ghost use Rattle.task_syntax.specs.Front.{Leads, LexStopsAt};
ghost use Rattle.task_syntax.specs.Runs as runs;
ghost use Rattle.task_syntax.specs.Runs.{BeginsWithCharacter, IsRun, goes_on};
ghost use Rattle.task_syntax.specs.Tokens.{AreTokens, AreSpans};
ghost use Rattle.std.specs.Char.{is_ascii_digit};
ghost use Rattle.std.specs.Prelude.{true};
ghost use Rattle.std.specs.Str.{all_scalars};
ghost use Rattle.unicode_ident.specs.Ident as ident;

use crate::cursor::{first_char, place_of};
use crate::keyword::keyword_spelled;
use crate::number::value;
use crate::run::Run;
use crate::stop::{LexKind, LexStop, Stop};
use crate::symbol::symbol_at;
use crate::text::text_at;
use crate::token::{Token, TokenKind, Tokens};
use std::alloc::Global;
use task_model::Row;
use unicode_ident::is_xid_start;

fn is_blank(character: char) -> bool
    ensures { result ≡ runs.is_blank character }
{
    character == ' ' || character == '\t' || character == '\n' || character == '\r'
}

/// The name or the keyword at the front of a text, whose first character was passed, and what stands after it.
fn word_at<'s>(text: &'s str, more: &'s str) -> (TokenKind, &'s str)
    requires { (c : ℕ) × BeginsWithCharacter text.now c more.now × (all_scalars (c ∷ []) ≡ true) × (ident.is_xid_start c ≡ true) }
    ensures { Leads text.now result.0 result.1.now }
{
    let rest = Run::Word.strip(more);
    let word = &text.as_bytes()[..text.len() - rest.len()];
    match keyword_spelled(word) {
        Some(keyword) => (TokenKind::Keyword(keyword), rest),
        None => (TokenKind::Name, rest),
    }
}

/// The number at the front of a text that begins with a digit, and what stands after it.
fn number_at(text: &str) -> Result<(TokenKind, &str), Stop<'_>>
    requires { (c : ℕ) × (more : Text) × BeginsWithCharacter text.now c more × (is_ascii_digit c ≡ true) }
    ensures { MatchResult result (λ r. Leads text.now r.0 r.1.now) (λ stop. LexStopsAt text.now stop) }
{
    let rest = Run::Digits.strip(text);
    let digits = &text.as_bytes()[..text.len() - rest.len()];
    match value(digits) {
        Some(number) => Ok((TokenKind::Number(number as i64), rest)),
        None => Err(Stop::Fault {
            kind: LexKind::WideNumber,
            rest: text,
        }),
    }
}

/// The token at the front of a text that begins with no blank and no comment, and what stands after it.
fn token_at<'s>(
    alloc: Global,
    text: &'s str,
    first: char,
    more: &'s str,
) -> Result<(TokenKind, &'s str), Stop<'s>>
    requires begins { BeginsWithCharacter text.now first more.now }
    requires scalar { all_scalars (first ∷ []) ≡ true }
    requires no_blank { runs.is_blank first ≡ false }
    requires no_comment { first ≢ 35 }
    ensures { MatchResult result (λ r. Leads text.now r.0 r.1.now) (λ stop. LexStopsAt text.now stop) }
{
    if is_xid_start(first) {
        return Ok(word_at(text, more));
    }
    if first.is_ascii_digit() {
        return number_at(text);
    }
    if first == '"' {
        return match text_at(alloc, text, more) {
            Ok((content, rest)) => Ok((TokenKind::Text(content), rest)),
            Err(stop) => Err(stop),
        };
    }
    match symbol_at(text, first) {
        Some((symbol, rest)) => Ok((TokenKind::Symbol(symbol), rest)),
        None => Err(Stop::Fault {
            kind: LexKind::BadChar,
            rest: text,
        }),
    }
}

/// The tokens of a source, or its first fault.
pub fn lex(alloc: Global, text: &str) -> Result<Tokens, LexStop>
    ensures tokens { IfOk result (λ r. (ts : List TokenTerm) × HasTokens text.now ts × AreTokens text.now r.list.list ts) }
    ensures only { IfOk result (λ r. (ts : List TokenTerm) → HasTokens text.now ts → AreTokens text.now r.list.list ts) }
    ensures spans { IfOk result (λ r. AreSpans 0 r.list.list (length text.now)) }
    ensures fault { IfErr result (λ stop. IsLexStop text.now stop) }
{
    let mut list = Row::new(alloc);
    let mut rest = text;
    while let Some((first, more)) = first_char(rest) {
        if is_blank(first) {
            rest = more;
            continue;
        }
        if first == '#' {
            rest = Run::Line.strip(more);
            continue;
        }
        match token_at(alloc, rest, first, more) {
            Ok((kind, after)) => {
                let from = place_of(text, rest);
                let to = place_of(text, after);
                if list.push(Token { kind, from, to }).is_err() {
                    return Err(LexStop::Memory);
                }
                rest = after;
            }
            Err(Stop::Fault { kind, rest }) => {
                return Err(LexStop::Fault {
                    place: place_of(text, rest),
                    kind,
                });
            }
            Err(Stop::Memory) => return Err(LexStop::Memory),
        }
    }
    Ok(Tokens { list })
}
