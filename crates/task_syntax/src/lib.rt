//! The tokens of a program.
#![tactic(auto)]

mod cursor;
mod keyword;
mod laws;
mod lexer;
mod number;
mod run;
mod stop;
mod symbol;
mod text;
mod token;

pub use laws::one_reading;
pub use lexer::lex;
pub use stop::{LexKind, LexStop, ReadKind, ReadStop};
pub use token::{Token, TokenKind, Tokens};
