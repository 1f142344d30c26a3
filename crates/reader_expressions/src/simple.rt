ghost use Rattle.reader_grammar.specs.Parts.{lexemes, shown_host};
ghost use Rattle.reader_expressions.specs.LiteralTokens.{ReadsSimple, seen_simple};

use crate::literals::literal;
use exact_reading::{ParseStop, too_nested};
use reader_grammar::{Parsed, PositionedToken, basic, expect_name, strip_keyword, strip_symbol};
use std::alloc::Global;
use task_model::{Host, Keyword, Symbol};

/// The literal, reference or empty list that stands first, if one does.
pub fn simple<'t>(
    alloc: Global,
    room: usize,
    tokens: &'t [PositionedToken<'t>],
) -> Result<Option<(Parsed<Host>, &'t [PositionedToken<'t>])>, ParseStop>
    ensures { ReadsSimple room (lexemes tokens.now) (seen_simple (λ r. (shown_host r.0, lexemes r.1.now)) result) }
{
    if let Some((node, rest)) = literal(alloc, tokens)? {
        if room < 1 {
            return Err(too_nested(tokens));
        }
        return Ok(Some((node, rest)));
    }
    if let Some((place, rest)) = strip_symbol(tokens, Symbol::Bang) {
        if room < 1 {
            return Err(too_nested(tokens));
        }
        let (name, _, rest) = expect_name(rest)?;
        return Ok(Some((Parsed::content(alloc, name, place)?, rest)));
    }
    if let Some((place, rest)) = strip_keyword(tokens, Keyword::Nil) {
        if room < 2 {
            return Err(too_nested(tokens));
        }
        let (item, rest) = basic(alloc, room - 1, rest)?;
        return Ok(Some((Parsed::nil(alloc, item, place)?, rest)));
    }
    Ok(None)
}
