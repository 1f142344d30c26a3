//! What worlds do with the inputs of small programs: tables of programs with their openings, inputs, budgets and offers, and want of
//! memory. Tests alone.
#![tactic(auto)]

#[cfg(test)]
mod tests;
