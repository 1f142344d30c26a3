//! Seats that all act at once on the world of one small program, each from a thread of its own (docs/FORMATS.md, "The drill").
#![tactic(auto)]

mod drilling;
mod giving;
mod running;

pub use drilling::drill;
