//! Literals and types as text (docs/FORMATS.md): printing, and reading that is exact at the first bad byte.
#![tactic(auto)]

mod ints;
mod laws;
mod print;
mod read;
mod stop;
mod texts;
mod types;
mod values;
mod wanted;
mod words;

pub use laws::some_literal;
pub use print::{print_basic, print_value};
pub use read::{read_any, read_basic, read_value};
pub use stop::{BadLiteral, LiteralStop};
