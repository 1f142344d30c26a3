//! The program of a drill with its inputs (docs/FORMATS.md, "The drill"), and that each of them is taken.
#![tactic(auto)]

mod inputs;
mod laws;
mod program;

pub use inputs::drill_input;
pub use laws::drill_inputs_are_taken;
pub use program::drill_program;
