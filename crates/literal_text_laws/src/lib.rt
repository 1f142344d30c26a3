//! Laws on literals: functions that do nothing, and whose clauses hold of the definitions alone.
#![tactic(auto)]

mod laws;

pub use laws::{one_literal, one_literal_of_a_type, one_type_name};
