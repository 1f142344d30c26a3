//! Programs as text, with the fewest parentheses.
#![tactic(auto, using(crate::proofs::LineLemmas::with_tokens_append))]

mod definitions;
mod expressions;
mod laws;
mod operators;
mod print;
mod printer;
mod tasks;
mod types;

pub use laws::{parentheses_are_needed, read_is_written};
pub use print::print_program;
