//! That nothing costs more than a program's bound: laws over the rules of `task_model` and the bound of `stride_bound`. Each is a
//! function that does nothing, and whose clauses hold of the definitions alone.
#![tactic(auto)]

mod laws;

pub use laws::{bounds_hold, nothing_costs_more};
