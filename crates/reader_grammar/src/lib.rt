//! The grammar of programs: its definitions, its productions as rules of reading, the steps of a reader, and the reader of types.
#![tactic(auto)]

mod basics;
mod items;
mod joining;
mod lexeme;
mod measured;
mod operators;
mod parsed;
mod parts;
mod prefixes;
mod series;
mod steps;

pub use basics::basic;
pub use items::Items;
pub use joining::joined;
pub use lexeme::{Digits, Lexeme, PositionedToken, QuotedText};
pub use measured::Measured;
pub use operators::{prefix, relation};
pub use parsed::{Parsed, name_text};
pub use parts::Parts;
pub use prefixes::Prefix;
pub use series::{Level, operator};
pub use steps::{
    expect_keyword, expect_name, expect_symbol, strip_keyword, strip_name, strip_number,
    strip_symbol, strip_text,
};
