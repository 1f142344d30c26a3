//! Expressions, evaluated: a value in exact units and height, over a program that is accepted and an environment and a store that fit.
#![tactic(auto)]

mod characters;
mod definitions;
mod evaluation;
mod head_and_tail;
mod lookups;
mod named;
mod names;
mod operators;
mod unary;

pub use definitions::{Definitions, Found};
pub use evaluation::{eval, slots_at, value_at};
pub use head_and_tail::HeadAndTail;
pub use lookups::{place_named, truth};
pub use names::{Links, Names};
pub use operators::{computed, decider, list_of, operated};
pub use unary::Unary;
