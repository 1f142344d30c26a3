ghost use Rattle.std.specs.Prelude.{◌≡◌, ℕ, List, ◌∷◌, MatchOption};
ghost use Rattle.exact_reading.specs.Reading.{seen};
ghost use Rattle.task_model.specs.Terms.Basic.{basic_term};
ghost use Rattle.task_model.specs.Syntax.Lexemes as terms;
ghost use Rattle.task_model.specs.Syntax.Grammar as grammar;
ghost use Rattle.task_model.specs.Syntax.Meaning.{scalar_of};
ghost use Rattle.reader_grammar.specs.Languages.{Reads};
ghost use Rattle.reader_grammar.specs.Parts.{lexemes, measured, shown_type};

use crate::lexeme::PositionedToken;
use crate::measured::Measured;
use crate::steps::{expect_symbol, strip_keyword, strip_symbol};
use exact_reading::{ParseStop, too_nested, unexpected};
use std::alloc::Global;
use std::sync::Arc;
use task_model::{Basic, Keyword, Symbol};

/// The type of one word that stands first, if one does, and what stands after it.
fn scalar<'t>(tokens: &'t [PositionedToken<'t>]) -> Option<(Basic, &'t [PositionedToken<'t>])>
    ensures { MatchOption result
        ((b : grammar.Scalar) (p : ℕ) (rest : List terms.Lexeme) → lexemes tokens.now ≡ terms.keyword (grammar.scalar b) p ∷ rest → ⊥)
        (λ r. (b : grammar.Scalar) × (p : ℕ) × (lexemes tokens.now ≡ terms.keyword (grammar.scalar b) p ∷ lexemes r.1.now)
        × (basic_term r.0 ≡ scalar_of b)) }
{
    if let Some((_, rest)) = strip_keyword(tokens, Keyword::Unit) {
        return Some((Basic::Unit, rest));
    }
    if let Some((_, rest)) = strip_keyword(tokens, Keyword::Bool) {
        return Some((Basic::Bool, rest));
    }
    if let Some((_, rest)) = strip_keyword(tokens, Keyword::Int) {
        return Some((Basic::Int, rest));
    }
    if let Some((_, rest)) = strip_keyword(tokens, Keyword::Text) {
        return Some((Basic::Text, rest));
    }
    None
}

/// A type of at most so many levels.
pub fn basic<'t>(
    alloc: Global,
    room: usize,
    tokens: &'t [PositionedToken<'t>],
) -> Result<(Measured, &'t [PositionedToken<'t>]), ParseStop>
    ensures { Reads grammar.basic shown_type room (lexemes tokens.now) (seen (λ r. (measured r.0, lexemes r.1.now)) result) }
{
    if let Some((basic, rest)) = scalar(tokens) {
        if room < 1 {
            return Err(too_nested(tokens));
        }
        return Ok((Measured { basic, levels: 1 }, rest));
    }
    if let Some((_, rest)) = strip_symbol(tokens, Symbol::Open) {
        if room < 2 {
            return Err(too_nested(tokens));
        }
        let (first, rest) = basic(alloc, room - 1, rest)?;
        let (_, rest) = expect_symbol(rest, Symbol::Comma)?;
        let (second, rest) = basic(alloc, room - 1, rest)?;
        let (_, rest) = expect_symbol(rest, Symbol::Close)?;
        let levels = 1 + first.levels.max(second.levels);
        let basic = Basic::Pair(
            Arc::new(alloc, first.basic)?,
            Arc::new(alloc, second.basic)?,
        );
        return Ok((Measured { basic, levels }, rest));
    }
    if let Some((_, rest)) = strip_symbol(tokens, Symbol::OpenBracket) {
        if room < 2 {
            return Err(too_nested(tokens));
        }
        let (item, rest) = basic(alloc, room - 1, rest)?;
        let (_, rest) = expect_symbol(rest, Symbol::CloseBracket)?;
        let levels = 1 + item.levels;
        let basic = Basic::List(Arc::new(alloc, item.basic)?);
        return Ok((Measured { basic, levels }, rest));
    }
    Err(unexpected(tokens))
}
