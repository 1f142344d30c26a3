ghost use Rattle.std.specs.Prelude.{◌≤◌, ◌∷◌};
ghost use Rattle.exact_reading.specs.Reading.{seen};
ghost use Rattle.task_model.specs.declared.keyword.Keyword.TheVariants as words;
ghost use Rattle.task_model.specs.Syntax.Lexemes as terms;
ghost use Rattle.task_model.specs.Syntax.Grammar as grammar;
ghost use Rattle.reader_grammar.specs.Languages.{Reads};
ghost use Rattle.reader_grammar.specs.Parts.{lexemes, shown, shown_host};

use crate::operators::operators;
use exact_reading::{ParseStop, too_nested};
use reader_grammar::{
    Level, Parsed, PositionedToken, expect_keyword, expect_name, expect_symbol, strip_keyword,
};
use std::alloc::Global;
use task_model::{Host, Keyword, Symbol};

/// An expression of at most so many levels.
#[cycle(expression)]
pub fn expression<'t>(
    alloc: Global,
    room: usize,
    tokens: &'t [PositionedToken<'t>],
) -> Result<(Parsed<Host>, &'t [PositionedToken<'t>]), ParseStop>
    ensures { Reads grammar.expression shown room (lexemes tokens.now) (seen (λ r. (shown_host r.0, lexemes r.1.now)) result) }
{
    if let Some((place, rest)) = strip_keyword(tokens, Keyword::Let) {
        if room < 2 {
            return Err(too_nested(tokens));
        }
        return let_in(alloc, room, place, rest);
    }
    if let Some((place, rest)) = strip_keyword(tokens, Keyword::If) {
        if room < 2 {
            return Err(too_nested(tokens));
        }
        return if_then(alloc, room, place, rest);
    }
    if let Some((place, rest)) = strip_keyword(tokens, Keyword::Case) {
        if room < 2 {
            return Err(too_nested(tokens));
        }
        return case_of(alloc, room, place, rest);
    }
    operators(alloc, Level::Either, room, tokens)
}

/// What stands behind `let`.
#[cycle(expression)]
fn let_in<'t>(
    alloc: Global,
    room: usize,
    place: u64,
    tokens: &'t [PositionedToken<'t>],
) -> Result<(Parsed<Host>, &'t [PositionedToken<'t>]), ParseStop>
    requires { 2 ≤ room }
    ensures { Reads grammar.expression shown room (terms.keyword words.Let place ∷ lexemes tokens.now)
        (seen (λ r. (shown_host r.0, lexemes r.1.now)) result) }
{
    let (name, _, rest) = expect_name(tokens)?;
    let (_, rest) = expect_symbol(rest, Symbol::Define)?;
    let (value, rest) = expression(alloc, room - 1, rest)?;
    let (_, rest) = expect_keyword(rest, Keyword::In)?;
    let (body, rest) = expression(alloc, room - 1, rest)?;
    Ok((value.let_in(alloc, place, name, body)?, rest))
}

/// What stands behind `if`.
#[cycle(expression)]
fn if_then<'t>(
    alloc: Global,
    room: usize,
    place: u64,
    tokens: &'t [PositionedToken<'t>],
) -> Result<(Parsed<Host>, &'t [PositionedToken<'t>]), ParseStop>
    requires { 2 ≤ room }
    ensures { Reads grammar.expression shown room (terms.keyword words.If place ∷ lexemes tokens.now)
        (seen (λ r. (shown_host r.0, lexemes r.1.now)) result) }
{
    let (test, rest) = expression(alloc, room - 1, tokens)?;
    let (_, rest) = expect_keyword(rest, Keyword::Then)?;
    let (yes, rest) = expression(alloc, room - 1, rest)?;
    let (_, rest) = expect_keyword(rest, Keyword::Else)?;
    let (no, rest) = expression(alloc, room - 1, rest)?;
    Ok((test.if_then(alloc, place, yes, no)?, rest))
}

/// What stands behind `case`.
#[cycle(expression)]
fn case_of<'t>(
    alloc: Global,
    room: usize,
    place: u64,
    tokens: &'t [PositionedToken<'t>],
) -> Result<(Parsed<Host>, &'t [PositionedToken<'t>]), ParseStop>
    requires { 2 ≤ room }
    ensures { Reads grammar.expression shown room (terms.keyword words.Case place ∷ lexemes tokens.now)
        (seen (λ r. (shown_host r.0, lexemes r.1.now)) result) }
{
    let (list, rest) = expression(alloc, room - 1, tokens)?;
    let (_, rest) = expect_keyword(rest, Keyword::Of)?;
    let (_, rest) = expect_symbol(rest, Symbol::OpenBracket)?;
    let (_, rest) = expect_symbol(rest, Symbol::CloseBracket)?;
    let (_, rest) = expect_symbol(rest, Symbol::Arrow)?;
    let (empty, rest) = expression(alloc, room - 1, rest)?;
    let (_, rest) = expect_symbol(rest, Symbol::Bar)?;
    let (head, _, rest) = expect_name(rest)?;
    let (_, rest) = expect_symbol(rest, Symbol::Cons)?;
    let (tail, _, rest) = expect_name(rest)?;
    let (_, rest) = expect_symbol(rest, Symbol::Arrow)?;
    let (more, rest) = expression(alloc, room - 1, rest)?;
    Ok((list.case_of(alloc, place, empty, head, tail, more)?, rest))
}
