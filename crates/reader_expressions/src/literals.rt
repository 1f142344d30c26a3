ghost use Rattle.std.specs.Prelude.{◌≡◌, IfOk, IfErr, MatchOption};
ghost use Rattle.reader_grammar.specs.Parts.{lexemes, shown_host};
ghost use Rattle.reader_expressions.specs.LiteralTokens.{NoLiteral, BeginsWithLiteral};

use exact_reading::ParseStop;
use reader_grammar::{Parsed, PositionedToken, name_text, strip_keyword, strip_number, strip_text};
use std::alloc::Global;
use task_model::{Host, Keyword};

/// The number, text or truth value that stands first, if one does, and what stands after it.
pub fn literal<'t>(
    alloc: Global,
    tokens: &'t [PositionedToken<'t>],
) -> Result<Option<(Parsed<Host>, &'t [PositionedToken<'t>])>, ParseStop>
    ensures found { IfOk result (λ found. MatchOption found (NoLiteral (lexemes tokens.now))
        (λ r. BeginsWithLiteral (lexemes tokens.now) (shown_host r.0) (lexemes r.1.now))) }
    ensures memory { IfErr result (λ e. e ≡ ParseStop.Memory) }
{
    if let Some((number, place, rest)) = strip_number(tokens) {
        let node = Parsed::leaf(alloc, Host::Int(number.value), place)?;
        return Ok(Some((node, rest)));
    }
    if let Some((quote, place, rest)) = strip_text(tokens) {
        let text = name_text(alloc, quote.content.as_str())?;
        let node = Parsed::leaf(alloc, Host::Text(text), place)?;
        return Ok(Some((node, rest)));
    }
    if let Some((place, rest)) = strip_keyword(tokens, Keyword::True) {
        let node = Parsed::leaf(alloc, Host::Bool(true), place)?;
        return Ok(Some((node, rest)));
    }
    if let Some((place, rest)) = strip_keyword(tokens, Keyword::False) {
        let node = Parsed::leaf(alloc, Host::Bool(false), place)?;
        return Ok(Some((node, rest)));
    }
    Ok(None)
}
