//! What expressions give: tables of expressions with their values and units. Tests alone, but for the value of a function.
#![tactic(auto)]

mod functions;
#[cfg(test)]
mod tests;

pub use functions::value_of;
