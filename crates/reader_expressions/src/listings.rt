ghost use Rattle.exact_reading.specs.Reading.{seen};
ghost use Rattle.task_model.specs.Syntax.Grammar as grammar;
ghost use Rattle.reader_grammar.specs.Languages.{Reads};
ghost use Rattle.reader_grammar.specs.Parts.{lexemes, shown_list, shown_items};

use crate::expressions::expression;
use exact_reading::{ParseStop, unexpected};
use reader_grammar::{Items, PositionedToken, expect_symbol, strip_symbol};
use std::alloc::Global;
use task_model::Symbol;

/// Expressions with commas between them, at least one.
#[cycle(expression)]
pub fn arguments<'t>(
    alloc: Global,
    room: usize,
    tokens: &'t [PositionedToken<'t>],
) -> Result<(Items, &'t [PositionedToken<'t>]), ParseStop>
    ensures { Reads (grammar.series (grammar.list grammar.arguments)) shown_list room (lexemes tokens.now)
        (seen (λ r. (shown_items r.0, lexemes r.1.now)) result) }
{
    let (first, mut rest) = expression(alloc, room, tokens)?;
    let mut items = Items::one(alloc, first)?;
    while let Some((_, after)) = strip_symbol(rest, Symbol::Comma) {
        let (next, after) = expression(alloc, room, after)?;
        items = items.and(next)?;
        rest = after;
    }
    Ok((items, rest))
}

/// Arguments in parentheses, or none.
#[cycle(expression)]
pub fn enclosed<'t>(
    alloc: Global,
    room: usize,
    tokens: &'t [PositionedToken<'t>],
) -> Result<(Items, &'t [PositionedToken<'t>]), ParseStop>
    ensures { Reads (grammar.enclosed grammar.arguments) shown_list room (lexemes tokens.now)
        (seen (λ r. (shown_items r.0, lexemes r.1.now)) result) }
{
    let Some((_, rest)) = strip_symbol(tokens, Symbol::Open) else {
        return Err(unexpected(tokens));
    };
    if let Some((_, rest)) = strip_symbol(rest, Symbol::Close) {
        return Ok((Items::none(alloc), rest));
    }
    let (items, rest) = arguments(alloc, room, rest)?;
    let (_, rest) = expect_symbol(rest, Symbol::Close)?;
    Ok((items, rest))
}
