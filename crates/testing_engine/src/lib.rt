//! What the tests of the engine and of offers share: a bench that holds a program with a state which fits it, and whose calls are those of
//! the engine.
#![tactic(auto)]

mod bench;
mod parts;
mod runs;

pub use bench::Bench;
