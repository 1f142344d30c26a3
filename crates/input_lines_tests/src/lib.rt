//! What `input_lines` reads and prints: tests alone, of lines, their columns and the soak.
#![tactic(auto)]

#[cfg(test)]
mod limits;
#[cfg(test)]
mod lines;
#[cfg(test)]
mod soaks;
