ghost use Rattle.exact_reading.specs.Reading.{seen};
ghost use Rattle.task_model.specs.Syntax.Grammar as grammar;
ghost use Rattle.reader_grammar.specs.Languages.{Reads};
ghost use Rattle.reader_grammar.specs.Parts.{lexemes, series_of, shown, shown_series, shown_part, shown_host};

use crate::atoms::atom;
use exact_reading::{ParseStop, too_nested};
use reader_grammar::{Level, Parsed, PositionedToken, operator, prefix, relation, strip_symbol};
use std::alloc::Global;
use task_model::{Host, Op, Symbol};

/// Parts of a level, with its operators between them.
#[cycle(expression)]
pub fn operators<'t>(
    alloc: Global,
    level: Level,
    room: usize,
    tokens: &'t [PositionedToken<'t>],
) -> Result<(Parsed<Host>, &'t [PositionedToken<'t>]), ParseStop>
    ensures { Reads (grammar.series (series_of level)) (shown_series level) room (lexemes tokens.now)
        (seen (λ r. (shown_host r.0, lexemes r.1.now)) result) }
{
    let (mut left, mut rest) = part(alloc, level, room, tokens)?;
    while let Some((op, after)) = operator(level, rest) {
        if left.levels >= room {
            return Err(too_nested(rest));
        }
        let (right, after) = part(alloc, level, room - 1, after)?;
        left = left.operated(alloc, op, right)?;
        rest = after;
    }
    Ok((left, rest))
}

/// A part of a level.
#[cycle(expression)]
fn part<'t>(
    alloc: Global,
    level: Level,
    room: usize,
    tokens: &'t [PositionedToken<'t>],
) -> Result<(Parsed<Host>, &'t [PositionedToken<'t>]), ParseStop>
    ensures { Reads (grammar.part_of (series_of level)) (shown_part level) room (lexemes tokens.now)
        (seen (λ r. (shown_host r.0, lexemes r.1.now)) result) }
{
    match level {
        Level::Either => operators(alloc, Level::Both, room, tokens),
        Level::Both => comparison(alloc, room, tokens),
        Level::Sum => operators(alloc, Level::Product, room, tokens),
        Level::Product => operand(alloc, room, tokens),
    }
}

/// A part, and perhaps a comparison with another one.
#[cycle(expression)]
fn comparison<'t>(
    alloc: Global,
    room: usize,
    tokens: &'t [PositionedToken<'t>],
) -> Result<(Parsed<Host>, &'t [PositionedToken<'t>]), ParseStop>
    ensures { Reads grammar.comparison shown room (lexemes tokens.now) (seen (λ r. (shown_host r.0, lexemes r.1.now)) result) }
{
    let (left, rest) = listed(alloc, room, tokens)?;
    let Some((op, after)) = relation(rest) else {
        return Ok((left, rest));
    };
    if left.levels >= room {
        return Err(too_nested(rest));
    }
    let (right, after) = listed(alloc, room - 1, after)?;
    Ok((left.operated(alloc, op, right)?, after))
}

/// A part, and perhaps a list that it is put in front of.
#[cycle(expression)]
fn listed<'t>(
    alloc: Global,
    room: usize,
    tokens: &'t [PositionedToken<'t>],
) -> Result<(Parsed<Host>, &'t [PositionedToken<'t>]), ParseStop>
    ensures { Reads grammar.listed shown room (lexemes tokens.now) (seen (λ r. (shown_host r.0, lexemes r.1.now)) result) }
{
    let (left, rest) = operators(alloc, Level::Sum, room, tokens)?;
    let Some((_, after)) = strip_symbol(rest, Symbol::Cons) else {
        return Ok((left, rest));
    };
    if left.levels >= room {
        return Err(too_nested(rest));
    }
    let (right, after) = listed(alloc, room - 1, after)?;
    Ok((left.operated(alloc, Op::Cons, right)?, after))
}

/// Operators, and then the atom that they stand before.
#[cycle(expression)]
fn operand<'t>(
    alloc: Global,
    room: usize,
    tokens: &'t [PositionedToken<'t>],
) -> Result<(Parsed<Host>, &'t [PositionedToken<'t>]), ParseStop>
    ensures { Reads grammar.operand shown room (lexemes tokens.now) (seen (λ r. (shown_host r.0, lexemes r.1.now)) result) }
{
    let Some((op, place, rest)) = prefix(tokens) else {
        return atom(alloc, room, tokens);
    };
    if room < 2 {
        return Err(too_nested(tokens));
    }
    let (inner, rest) = operand(alloc, room - 1, rest)?;
    Ok((inner.prefixed(alloc, op, place)?, rest))
}
