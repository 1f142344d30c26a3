ghost use Rattle.std.specs.Prelude.{◌≡◌, ◌≤◌, [], ◌∷◌, ◌++◌, IfOk, IfErr};
ghost use Rattle.exact_reading.specs.Reading.{seen};
ghost use Rattle.task_model.specs.Terms.Program.{param_term};
ghost use Rattle.task_model.specs.Syntax.Grammar as grammar;
ghost use Rattle.reader_grammar.specs.Languages.{Reads};
ghost use Rattle.reader_grammar.specs.Parts.{lexemes};
ghost use Rattle.reader_programs.specs.Definitions.{shown_parameter, shown_parameter_list, shown_enclosed, shown_parameters};

use exact_reading::{ParseStop, unexpected};
use reader_grammar::{
    PositionedToken, basic, expect_symbol, name_text, strip_keyword, strip_name, strip_symbol,
};
use std::alloc::Global;
use std::collections::VecDeque;
use task_model::{Keyword, Kind, Param, Row, Symbol};

/// Parameters that were read, and their places.
#[derive(Drop)]
pub(crate) struct Parameters {
    pub(crate) list: Row<Param>,
    pub(crate) places: VecDeque<u64>,
}

impl Parameters {
    /// No parameters.
    fn none(alloc: Global) -> Parameters
        ensures { shown_parameters result ≡ ([], []) }
    {
        Parameters {
            list: Row::new(alloc),
            places: VecDeque::new(alloc),
        }
    }

    /// These parameters, and one more behind them, which stands here.
    fn and(self, parameter: Param, place: u64) -> Result<Parameters, ParseStop>
        ensures shown { IfOk result (λ r. shown_parameters r
            ≡ ((shown_parameters self).0 ++ param_term parameter ∷ [], (shown_parameters self).1 ++ place ∷ [])) }
        ensures memory { IfErr result (λ e. e ≡ ParseStop.Memory) }
    {
        let mut places = self.places;
        places.push_back(place)?;
        let mut list = self.list;
        if list.push(parameter).is_err() {
            return Err(ParseStop::Memory);
        }
        Ok(Parameters { list, places })
    }
}

/// A parameter whose type has at most so many levels, and its place.
fn parameter<'t>(
    alloc: Global,
    room: usize,
    tokens: &'t [PositionedToken<'t>],
) -> Result<(Param, u64, &'t [PositionedToken<'t>]), ParseStop>
    requires { 1 ≤ room }
    ensures { Reads grammar.parameter shown_parameter room (lexemes tokens.now)
        (seen (λ r. ((param_term r.0, r.1), lexemes r.2.now)) result) }
{
    let Some((name, place, rest)) = strip_name(tokens) else {
        return Err(unexpected(tokens));
    };
    let Some((_, rest)) = strip_symbol(rest, Symbol::Colon) else {
        return Err(unexpected(rest));
    };
    if let Some((_, rest)) = strip_keyword(rest, Keyword::Ref) {
        let (item, rest) = basic(alloc, room, rest)?;
        let name = name_text(alloc, name)?;
        let kind = Kind::Ref(item.basic);
        return Ok((Param { name, kind }, place, rest));
    }
    let (item, rest) = basic(alloc, room, rest)?;
    let name = name_text(alloc, name)?;
    let kind = Kind::Plain(item.basic);
    Ok((Param { name, kind }, place, rest))
}

/// Parameters with commas between them, at least one.
fn some_parameters<'t>(
    alloc: Global,
    room: usize,
    tokens: &'t [PositionedToken<'t>],
) -> Result<(Parameters, &'t [PositionedToken<'t>]), ParseStop>
    requires { 1 ≤ room }
    ensures { Reads (grammar.series (grammar.list grammar.parameters)) shown_parameter_list room (lexemes tokens.now)
        (seen (λ r. (shown_parameters r.0, lexemes r.1.now)) result) }
{
    let (first, place, mut rest) = parameter(alloc, room, tokens)?;
    let mut all = Parameters::none(alloc).and(first, place)?;
    while let Some((_, after)) = strip_symbol(rest, Symbol::Comma) {
        let (next, place, after) = parameter(alloc, room, after)?;
        all = all.and(next, place)?;
        rest = after;
    }
    Ok((all, rest))
}

/// Parameters in parentheses, or none.
pub(crate) fn enclosed_parameters<'t>(
    alloc: Global,
    room: usize,
    tokens: &'t [PositionedToken<'t>],
) -> Result<(Parameters, &'t [PositionedToken<'t>]), ParseStop>
    requires { 1 ≤ room }
    ensures { Reads (grammar.enclosed grammar.parameters) shown_enclosed room (lexemes tokens.now)
        (seen (λ r. (shown_parameters r.0, lexemes r.1.now)) result) }
{
    let Some((_, rest)) = strip_symbol(tokens, Symbol::Open) else {
        return Err(unexpected(tokens));
    };
    if let Some((_, rest)) = strip_symbol(rest, Symbol::Close) {
        return Ok((Parameters::none(alloc), rest));
    }
    let (all, rest) = some_parameters(alloc, room, rest)?;
    let (_, rest) = expect_symbol(rest, Symbol::Close)?;
    Ok((all, rest))
}
