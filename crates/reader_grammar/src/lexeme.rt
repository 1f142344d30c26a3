ghost use Rattle.std.specs.Prelude.{◌≡◌, pos};
ghost use Rattle.task_model.specs.Terms.Token.{number_from};

use task_model::{Keyword, Symbol, TaskText};

/// The digits of a number, and its value.
#[derive(Clone, Copy)]
pub struct Digits<'s> {
    pub digits: &'s [u8],
    pub value: i64,
    ghost right: { value ≡ pos (number_from 0 digits.now) },
}

/// A text as it is spelled, and its content.
#[derive(Clone, Copy)]
pub struct QuotedText<'s> {
    pub spelling: &'s [u8],
    pub content: &'s TaskText,
}

/// A token as the grammar takes it.
#[derive(Clone, Copy)]
pub enum Lexeme<'s> {
    Keyword(Keyword),
    Symbol(Symbol),
    Name(&'s str),
    Number(Digits<'s>),
    Text(QuotedText<'s>),
}

/// A token and the place of its first byte.
#[derive(Clone, Copy)]
pub struct PositionedToken<'s> {
    pub lexeme: Lexeme<'s>,
    pub from: u64,
}
