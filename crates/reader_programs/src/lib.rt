//! Tasks, definitions and whole programs from their texts, with exact first faults.
#![tactic(auto)]

mod definition;
mod definition_words;
mod parameters;
mod program;
mod read;
mod tokens;

pub use read::{Read, read_program};
