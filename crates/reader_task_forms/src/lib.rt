//! The reader of tasks, form by form, exact at the first fault.
#![tactic(auto)]

mod atoms;
mod binders;
mod branches;
mod series;
mod tasks;
mod word_atoms;

pub use tasks::task;
