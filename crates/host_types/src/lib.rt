//! Types: whether a program meets every demand, or the first one that it doesn't meet.
#![tactic(auto)]

mod bound_to;
mod calls;
mod checking;
mod compare;
mod definitions;
mod expressions;
mod fault;
mod laws;
mod lookups;
mod names;
mod operators;
mod tasks;

pub use checking::check;
pub use fault::CheckStop;
pub use laws::{
    examples, met_is_typed, met_task_is_typed, typed_is_met, typed_task_is_met, types_are_counted,
};
pub use task_model::TypeKind;
