ghost use Rattle.std.specs.Prelude.{MatchOption};
ghost use Rattle.reader_grammar.specs.Parts.{lexemes, series_of, NoOperator, Operated};

use crate::lexeme::{Lexeme, PositionedToken};
use task_model::{Keyword, Op, Symbol};

/// Operators that group to the left, from the loosest to the tightest.
#[derive(Clone, Copy, Debug, PartialEq, Eq)]
pub enum Level {
    Either,
    Both,
    Sum,
    Product,
}

/// The operator of this level that stands first, if one does, and what stands after it.
pub fn operator<'t>(
    level: Level,
    tokens: &'t [PositionedToken<'t>],
) -> Option<(Op, &'t [PositionedToken<'t>])>
    ensures { MatchOption result (NoOperator (series_of level) (lexemes tokens.now))
        (λ r. Operated (series_of level) (lexemes tokens.now) r.0 (lexemes r.1.now)) }
{
    match leading(tokens) {
        Some((found, op, rest)) if found == level => Some((op, rest)),
        _ => None,
    }
}

/// The operator of any level that stands first, if one does, its level, and what stands after it.
fn leading<'t>(tokens: &'t [PositionedToken<'t>]) -> Option<(Level, Op, &'t [PositionedToken<'t>])>
    ensures { MatchOption result ((l : Level) → NoOperator (series_of l) (lexemes tokens.now))
        (λ r. Operated (series_of r.0) (lexemes tokens.now) r.1 (lexemes r.2.now)) }
{
    let (first, rest) = tokens.split_first()?;
    let (level, op) = match first.lexeme {
        Lexeme::Symbol(symbol) => match symbol {
            Symbol::Or => (Level::Either, Op::Or),
            Symbol::And => (Level::Both, Op::And),
            Symbol::Plus => (Level::Sum, Op::Add),
            Symbol::Minus => (Level::Sum, Op::Sub),
            Symbol::Join => (Level::Sum, Op::Join),
            Symbol::Star => (Level::Product, Op::Mul),
            _ => return None,
        },
        Lexeme::Keyword(keyword) => match keyword {
            Keyword::Quot => (Level::Product, Op::Quot),
            Keyword::Rem => (Level::Product, Op::Rem),
            _ => return None,
        },
        _ => return None,
    };
    Some((level, op, rest))
}
