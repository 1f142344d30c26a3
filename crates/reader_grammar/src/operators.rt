ghost use Rattle.std.specs.Prelude.{◌≡◌, ℕ, List, ◌∷◌, MatchOption};
ghost use Rattle.task_model.specs.Syntax.Lexemes as terms;
ghost use Rattle.task_model.specs.Syntax.Grammar as grammar;
ghost use Rattle.task_model.specs.Syntax.Meaning.{relation_of};
ghost use Rattle.reader_grammar.specs.Parts.{lexemes};
ghost use Rattle.reader_grammar.specs.Prefixes.{prefix_term};

use crate::lexeme::PositionedToken;
use crate::prefixes::Prefix;
use crate::steps::{strip_keyword, strip_symbol};
use task_model::{Keyword, Op, Symbol};

/// The operator before an operand that stands first, if one does, its place, and what stands after it.
pub fn prefix<'t>(
    tokens: &'t [PositionedToken<'t>],
) -> Option<(Prefix, u64, &'t [PositionedToken<'t>])>
    ensures { MatchOption result
        ((o : grammar.Prefix) (p : ℕ) (rest : List terms.Lexeme) → lexemes tokens.now ≡ grammar.prefix o p ∷ rest → ⊥)
        (λ r. lexemes tokens.now ≡ grammar.prefix (prefix_term r.0) r.1 ∷ lexemes r.2.now) }
{
    if let Some((place, rest)) = strip_symbol(tokens, Symbol::Minus) {
        return Some((Prefix::Negative, place, rest));
    }
    if let Some((place, rest)) = strip_keyword(tokens, Keyword::Not) {
        return Some((Prefix::Not, place, rest));
    }
    if let Some((place, rest)) = strip_keyword(tokens, Keyword::Fst) {
        return Some((Prefix::First, place, rest));
    }
    if let Some((place, rest)) = strip_keyword(tokens, Keyword::Snd) {
        return Some((Prefix::Second, place, rest));
    }
    let (place, rest) = strip_keyword(tokens, Keyword::Len)?;
    Some((Prefix::Length, place, rest))
}

/// The comparison that stands first, if one does, and what stands after it.
pub fn relation<'t>(tokens: &'t [PositionedToken<'t>]) -> Option<(Op, &'t [PositionedToken<'t>])>
    ensures { MatchOption result
        ((o : grammar.Relation) (p : ℕ) (rest : List terms.Lexeme) → lexemes tokens.now ≡ terms.symbol (grammar.relation o) p ∷ rest → ⊥)
        (λ r. (o : grammar.Relation) × (p : ℕ) × (lexemes tokens.now ≡ terms.symbol (grammar.relation o) p ∷ lexemes r.1.now)
        × (relation_of o ≡ r.0)) }
{
    if let Some((_, rest)) = strip_symbol(tokens, Symbol::Equal) {
        return Some((Op::Eq, rest));
    }
    if let Some((_, rest)) = strip_symbol(tokens, Symbol::NotEqual) {
        return Some((Op::Ne, rest));
    }
    if let Some((_, rest)) = strip_symbol(tokens, Symbol::Less) {
        return Some((Op::Lt, rest));
    }
    if let Some((_, rest)) = strip_symbol(tokens, Symbol::LessEqual) {
        return Some((Op::Le, rest));
    }
    if let Some((_, rest)) = strip_symbol(tokens, Symbol::Greater) {
        return Some((Op::Gt, rest));
    }
    let (_, rest) = strip_symbol(tokens, Symbol::GreaterEqual)?;
    Some((Op::Ge, rest))
}
