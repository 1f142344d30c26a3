use task_model::{Keyword, Row, Symbol, TaskText};

/// What a token is; a text has its content, with each escape as the character that it stands for.
#[derive(Drop)]
pub enum TokenKind {
    Name,
    Keyword(Keyword),
    Number(i64),
    Text(TaskText),
    Symbol(Symbol),
}

/// A token and its span, in bytes of the source.
#[derive(Drop)]
pub struct Token {
    pub kind: TokenKind,
    pub from: u64,
    pub to: u64,
}

/// The tokens of a source, in order.
#[derive(Drop)]
pub struct Tokens {
    pub list: Row<Token>,
}
