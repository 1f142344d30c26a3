ghost use Rattle.std.specs.Prelude.{◌≡◌, ℕ, List, ◌∷◌, MatchOption};
ghost use Rattle.task_model.specs.Terms.Text.{Text};
ghost use Rattle.exact_reading.specs.Reading.{Right, seen, Always, Anything};
ghost use Rattle.task_model.specs.Syntax.Lexemes as terms;
ghost use Rattle.reader_grammar.specs.Languages as languages;
ghost use Rattle.reader_grammar.specs.Parts.{lexemes};

use crate::lexeme::{Digits, Lexeme, PositionedToken, QuotedText};
use exact_reading::{ParseStop, unexpected};
use task_model::{Keyword, Symbol};

/// The place of this keyword, if it stands first, and what stands after it.
pub fn strip_keyword<'t>(
    tokens: &'t [PositionedToken<'t>],
    keyword: Keyword,
) -> Option<(u64, &'t [PositionedToken<'t>])>
    ensures { MatchOption result
        ((p : ℕ) (rest : List terms.Lexeme) → lexemes tokens.now ≡ terms.keyword keyword p ∷ rest → ⊥)
        (λ r. lexemes tokens.now ≡ terms.keyword keyword r.0 ∷ lexemes r.1.now) }
{
    let (first, rest) = tokens.split_first()?;
    match first.lexeme {
        Lexeme::Keyword(found) if found == keyword => Some((first.from, rest)),
        _ => None,
    }
}

/// The place of this sign, if it stands first, and what stands after it.
pub fn strip_symbol<'t>(
    tokens: &'t [PositionedToken<'t>],
    symbol: Symbol,
) -> Option<(u64, &'t [PositionedToken<'t>])>
    ensures { MatchOption result
        ((p : ℕ) (rest : List terms.Lexeme) → lexemes tokens.now ≡ terms.symbol symbol p ∷ rest → ⊥)
        (λ r. lexemes tokens.now ≡ terms.symbol symbol r.0 ∷ lexemes r.1.now) }
{
    let (first, rest) = tokens.split_first()?;
    match first.lexeme {
        Lexeme::Symbol(found) if found == symbol => Some((first.from, rest)),
        _ => None,
    }
}

/// The name that stands first, if one does, its place, and what stands after it.
pub fn strip_name<'t>(
    tokens: &'t [PositionedToken<'t>],
) -> Option<(&'t str, u64, &'t [PositionedToken<'t>])>
    ensures { MatchOption result
        ((x : Text) (p : ℕ) (rest : List terms.Lexeme) → lexemes tokens.now ≡ terms.name x p ∷ rest → ⊥)
        (λ r. lexemes tokens.now ≡ terms.name r.0.now r.1 ∷ lexemes r.2.now) }
{
    let (first, rest) = tokens.split_first()?;
    match first.lexeme {
        Lexeme::Name(name) => Some((name, first.from, rest)),
        _ => None,
    }
}

/// The number that stands first, if one does, its place, and what stands after it.
pub fn strip_number<'t>(
    tokens: &'t [PositionedToken<'t>],
) -> Option<(Digits<'t>, u64, &'t [PositionedToken<'t>])>
    ensures { MatchOption result
        ((t : Text) (p : ℕ) (rest : List terms.Lexeme) → lexemes tokens.now ≡ terms.number t p ∷ rest → ⊥)
        (λ r. lexemes tokens.now ≡ terms.number r.0.digits.now r.1 ∷ lexemes r.2.now) }
{
    let (first, rest) = tokens.split_first()?;
    match first.lexeme {
        Lexeme::Number(number) => Some((number, first.from, rest)),
        _ => None,
    }
}

/// The text that stands first, if one does, its place, and what stands after it.
pub fn strip_text<'t>(
    tokens: &'t [PositionedToken<'t>],
) -> Option<(QuotedText<'t>, u64, &'t [PositionedToken<'t>])>
    ensures { MatchOption result
        ((t v : Text) (p : ℕ) (rest : List terms.Lexeme) → lexemes tokens.now ≡ terms.quoted_text t v p ∷ rest → ⊥)
        (λ r. lexemes tokens.now ≡ terms.quoted_text r.0.spelling.now r.0.content.now r.1 ∷ lexemes r.2.now) }
{
    let (first, rest) = tokens.split_first()?;
    match first.lexeme {
        Lexeme::Text(quote) => Some((quote, first.from, rest)),
        _ => None,
    }
}

/// Takes a keyword.
pub fn expect_keyword<'t>(
    tokens: &'t [PositionedToken<'t>],
    keyword: Keyword,
) -> Result<(u64, &'t [PositionedToken<'t>]), ParseStop>
    ensures { Right (languages.KeywordToken keyword) Always Anything (lexemes tokens.now) (seen (λ r. (r.0, lexemes r.1.now)) result) }
{
    match strip_keyword(tokens, keyword) {
        Some((place, rest)) => Ok((place, rest)),
        None => Err(unexpected(tokens)),
    }
}

/// Takes a sign.
pub fn expect_symbol<'t>(
    tokens: &'t [PositionedToken<'t>],
    symbol: Symbol,
) -> Result<(u64, &'t [PositionedToken<'t>]), ParseStop>
    ensures { Right (languages.SymbolToken symbol) Always Anything (lexemes tokens.now) (seen (λ r. (r.0, lexemes r.1.now)) result) }
{
    match strip_symbol(tokens, symbol) {
        Some((place, rest)) => Ok((place, rest)),
        None => Err(unexpected(tokens)),
    }
}

/// Takes a name.
pub fn expect_name<'t>(
    tokens: &'t [PositionedToken<'t>],
) -> Result<(&'t str, u64, &'t [PositionedToken<'t>]), ParseStop>
    ensures { Right languages.NameToken Always Anything (lexemes tokens.now) (seen (λ r. ((r.0.now, r.1), lexemes r.2.now)) result) }
{
    match strip_name(tokens) {
        Some((name, place, rest)) => Ok((name, place, rest)),
        None => Err(unexpected(tokens)),
    }
}
