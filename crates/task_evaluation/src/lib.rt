//! The rules of tasks, in exact units and heights: evaluation, over a program that is accepted, a store with layers, and environments
//! that are borrowed.
#![tactic(auto)]

mod callee;
mod counts;
mod engine;
mod evaluation;
mod first_part;
mod kept;
mod kinds;
mod parts;
mod tables;
mod two_parts;
mod walk;

pub use callee::Callee;
pub use engine::{Engine, binder_of};
pub use evaluation::{evaluate, evaluate_at};
pub use first_part::FirstPart;
pub use kinds::{PairKind, StepKind, pair_tree, step_tree};
