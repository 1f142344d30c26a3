ghost use Rattle.std.specs.Prelude.{◌≤◌, ◌∷◌};
ghost use Rattle.exact_reading.specs.Reading.{seen};
ghost use Rattle.task_model.specs.declared.symbol.Symbol.TheVariants as signs;
ghost use Rattle.task_model.specs.Syntax.Lexemes as terms;
ghost use Rattle.task_model.specs.Syntax.Grammar as grammar;
ghost use Rattle.reader_grammar.specs.Languages.{Reads};
ghost use Rattle.reader_grammar.specs.Parts.{lexemes, shown, shown_host};

use crate::expressions::expression;
use crate::listings::{arguments, enclosed};
use crate::simple::simple;
use exact_reading::{ParseStop, too_nested, unexpected};
use reader_grammar::{Parsed, PositionedToken, expect_symbol, strip_name, strip_symbol};
use std::alloc::Global;
use task_model::{Host, Symbol};

/// A number, a text, a constant, a name, what stands at a reference, a call, a list or what stands in parentheses.
#[cycle(expression)]
pub fn atom<'t>(
    alloc: Global,
    room: usize,
    tokens: &'t [PositionedToken<'t>],
) -> Result<(Parsed<Host>, &'t [PositionedToken<'t>]), ParseStop>
    ensures { Reads grammar.atom shown room (lexemes tokens.now) (seen (λ r. (shown_host r.0, lexemes r.1.now)) result) }
{
    if let Some((found, rest)) = simple(alloc, room, tokens)? {
        return Ok((found, rest));
    }
    if let Some((name, place, rest)) = strip_name(tokens) {
        if room < 1 {
            return Err(too_nested(tokens));
        }
        return named(alloc, room, name, place, rest);
    }
    if let Some((place, rest)) = strip_symbol(tokens, Symbol::Open) {
        if room < 1 {
            return Err(too_nested(tokens));
        }
        return opened(alloc, room, place, rest);
    }
    if let Some((place, rest)) = strip_symbol(tokens, Symbol::OpenBracket) {
        if room < 2 {
            return Err(too_nested(tokens));
        }
        return elements(alloc, room, place, rest);
    }
    Err(unexpected(tokens))
}

/// What stands behind a name.
#[cycle(expression)]
fn named<'t>(
    alloc: Global,
    room: usize,
    name: &str,
    place: u64,
    tokens: &'t [PositionedToken<'t>],
) -> Result<(Parsed<Host>, &'t [PositionedToken<'t>]), ParseStop>
    requires { 1 ≤ room }
    ensures { Reads grammar.atom shown room (terms.name name.now place ∷ lexemes tokens.now)
        (seen (λ r. (shown_host r.0, lexemes r.1.now)) result) }
{
    let Some(_) = strip_symbol(tokens, Symbol::Open) else {
        return Ok((Parsed::named(alloc, name, place)?, tokens));
    };
    let (items, rest) = enclosed(alloc, room - 1, tokens)?;
    Ok((items.call(alloc, name, place)?, rest))
}

/// What stands behind `(`.
#[cycle(expression)]
fn opened<'t>(
    alloc: Global,
    room: usize,
    place: u64,
    tokens: &'t [PositionedToken<'t>],
) -> Result<(Parsed<Host>, &'t [PositionedToken<'t>]), ParseStop>
    requires { 1 ≤ room }
    ensures { Reads grammar.atom shown room (terms.symbol signs.Open place ∷ lexemes tokens.now)
        (seen (λ r. (shown_host r.0, lexemes r.1.now)) result) }
{
    if let Some((_, rest)) = strip_symbol(tokens, Symbol::Close) {
        return Ok((Parsed::leaf(alloc, Host::Unit, place)?, rest));
    }
    let (first, rest) = expression(alloc, room - 1, tokens)?;
    if let Some((_, rest)) = strip_symbol(rest, Symbol::Close) {
        return Ok((first.group(place), rest));
    }
    let (_, rest) = expect_symbol(rest, Symbol::Comma)?;
    let (second, rest) = expression(alloc, room - 1, rest)?;
    let (_, rest) = expect_symbol(rest, Symbol::Close)?;
    Ok((first.pair(alloc, place, second)?, rest))
}

/// What stands behind `[`.
#[cycle(expression)]
fn elements<'t>(
    alloc: Global,
    room: usize,
    place: u64,
    tokens: &'t [PositionedToken<'t>],
) -> Result<(Parsed<Host>, &'t [PositionedToken<'t>]), ParseStop>
    requires { 2 ≤ room }
    ensures { Reads grammar.atom shown room (terms.symbol signs.OpenBracket place ∷ lexemes tokens.now)
        (seen (λ r. (shown_host r.0, lexemes r.1.now)) result) }
{
    let (items, rest) = arguments(alloc, room - 1, tokens)?;
    let (_, rest) = expect_symbol(rest, Symbol::CloseBracket)?;
    Ok((items.elements(alloc, place)?, rest))
}
