//! The reader of expressions and of arguments, exact at the first fault.
#![tactic(auto)]

mod atoms;
mod expressions;
mod listings;
mod literals;
mod operators;
mod simple;

pub use atoms::atom;
pub use expressions::expression;
pub use listings::enclosed;
